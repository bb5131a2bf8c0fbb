//! The wrapping calls return the machine's answer under `wrapping`: the wrapped number.
#![tactic(auto, unfolding(fixed_machine::specs::Rows::exact, fixed_script::specs::Offered::is_offered), using(crate::proofs::Answered::projected))]

ghost use Rattle.std.specs.Prelude.{◌≡◌, ◌≤◌, true, false, IsSome};
ghost use Rattle.fixed_machine.specs.Machine.{row_of};
ghost use Rattle.fixed_script.specs.Offered.{is_offered};
ghost use Rattle.fixed_agree.specs.Agreement.{IsBinary, IsByInteger, IsOfferedOnBoth, IsUnary, MachineAnswers, one_operand, three_operands, two_operands, with_integer};

use crate::answers::bits_of;
use fixed_machine::Answer;
use fixed_num::Fixed;
use fixed_policy::{Wrapping, WrappingMulAdd, WrappingProducts, WrappingSigned, WrappingUnsigned};
use fixed_script::{Op, Policy};
use fixed_word::{SignedWord, UnsignedWord, Word};

/// Runs an operation on one number that is offered on all words. Precondition: the row is defined.
pub fn unary<T: Word, const F: u32>(op: Op, a: Fixed<T, F>) -> Answer
    requires fraction { F ≤ T.BITS }
    requires arity { IsUnary op }
    requires offered { IsOfferedOnBoth Policy.Wrapping op }
    requires row { IsSome (row_of op (one_operand (T.value a.bits) F)) }
    ensures { MachineAnswers T.SIGNED T.BITS Policy.Wrapping op
        (one_operand (T.value a.bits) F) result }
{
    match op {
        Op::Neg => bits_of(a.wrapping_neg()),
        Op::Recip => bits_of(a.wrapping_recip()),
        Op::Sqrt => bits_of(a.wrapping_sqrt()),
        _ => Answer::Absent,
    }
}

/// Runs an operation on one number that is offered on signed words. Precondition: the row is defined.
pub fn unary_signed<T: SignedWord, const F: u32>(op: Op, a: Fixed<T, F>) -> Answer
    requires fraction { F ≤ T.BITS }
    requires arity { IsUnary op }
    requires offered { is_offered true Policy.Wrapping op ≡ true }
    requires row { IsSome (row_of op (one_operand (T.value a.bits) F)) }
    ensures { MachineAnswers T.SIGNED T.BITS Policy.Wrapping op
        (one_operand (T.value a.bits) F) result }
{
    match op {
        Op::Abs => bits_of(a.wrapping_abs()),
        Op::Signum => bits_of(a.wrapping_signum()),
        _ => unary(op, a),
    }
}

/// Runs an operation on one number that is offered on unsigned words. Precondition: the row is defined.
pub fn unary_unsigned<T: UnsignedWord, const F: u32>(op: Op, a: Fixed<T, F>) -> Answer
    requires fraction { F ≤ T.BITS }
    requires arity { IsUnary op }
    requires offered { is_offered false Policy.Wrapping op ≡ true }
    requires row { IsSome (row_of op (one_operand (T.value a.bits) F)) }
    ensures { MachineAnswers T.SIGNED T.BITS Policy.Wrapping op
        (one_operand (T.value a.bits) F) result }
{
    match op {
        Op::NextPowerOfTwo => bits_of(a.wrapping_next_power_of_two()),
        _ => unary(op, a),
    }
}

/// Runs an operation on two numbers. Precondition: the row is defined.
pub fn binary<T: Word, const F: u32>(op: Op, a: Fixed<T, F>, b: Fixed<T, F>) -> Answer
    requires fraction { F ≤ T.BITS }
    requires arity { IsBinary op }
    requires offered { is_offered T.SIGNED Policy.Wrapping op ≡ true }
    requires row { IsSome (row_of op (two_operands (T.value a.bits) (T.value b.bits) F)) }
    ensures { MachineAnswers T.SIGNED T.BITS Policy.Wrapping op
        (two_operands (T.value a.bits) (T.value b.bits) F) result }
{
    match op {
        Op::Add => bits_of(a.wrapping_add(b)),
        Op::Sub => bits_of(a.wrapping_sub(b)),
        Op::Mul => bits_of(a.wrapping_mul(b)),
        Op::Div => bits_of(a.wrapping_div(b)),
        Op::DivEuclid => bits_of(a.wrapping_div_euclid(b)),
        Op::NextMultipleOf => bits_of(a.wrapping_next_multiple_of(b)),
        Op::Dist => bits_of(a.wrapping_dist(b)),
        _ => Answer::Absent,
    }
}

/// Runs an operation on a number and an integer. Precondition: the row is defined.
pub fn by_integer<T: Word, const F: u32>(op: Op, a: Fixed<T, F>, k: T) -> Answer
    requires fraction { F ≤ T.BITS }
    requires arity { IsByInteger op }
    requires offered { is_offered T.SIGNED Policy.Wrapping op ≡ true }
    requires row { IsSome (row_of op (with_integer (T.value a.bits) (T.value k) F)) }
    ensures { MachineAnswers T.SIGNED T.BITS Policy.Wrapping op
        (with_integer (T.value a.bits) (T.value k) F) result }
{
    match op {
        Op::MulInt => bits_of(a.wrapping_mul_int(k)),
        Op::DivInt => bits_of(a.wrapping_div_int(k)),
        Op::DivEuclidInt => bits_of(a.wrapping_div_euclid_int(k)),
        Op::RemEuclidInt => bits_of(a.wrapping_rem_euclid_int(k)),
        _ => Answer::Absent,
    }
}

/// Runs the multiply-add: `a` times `mul`, plus `add`.
pub fn mul_add<T: Word, const F: u32, const G: u32>(
    a: Fixed<T, F>,
    mul: Fixed<T, G>,
    add: Fixed<T, F>,
) -> Answer
    requires fraction { G ≤ T.BITS }
    ensures { MachineAnswers T.SIGNED T.BITS Policy.Wrapping Op.MulAdd
        (three_operands (T.value a.bits) (T.value mul.bits) (T.value add.bits) F G F) result }
{
    bits_of(a.wrapping_mul_add(mul, add))
}

/// Runs the sum with a product: `sum` plus `a` times `b`.
pub fn add_prod<T: Word, const F: u32, const A: u32, const B: u32>(
    sum: Fixed<T, F>,
    a: Fixed<T, A>,
    b: Fixed<T, B>,
) -> Answer
    requires fraction { F ≤ T.BITS }
    requires a { A ≤ T.BITS }
    requires b { B ≤ T.BITS }
    ensures { MachineAnswers T.SIGNED T.BITS Policy.Wrapping Op.AddProd
        (three_operands (T.value sum.bits) (T.value a.bits) (T.value b.bits) F A B) result }
{
    bits_of(sum.wrapping_add_prod(a, b))
}
