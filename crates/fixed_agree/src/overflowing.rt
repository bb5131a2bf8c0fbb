//! The overflowing calls return the machine's answer under `overflowing`: the wrapped number and its verdict.
#![tactic(auto, unfolding(fixed_machine::specs::Rows::exact, fixed_script::specs::Offered::is_offered), using(crate::proofs::Answered::projected))]

ghost use Rattle.std.specs.Prelude.{◌≡◌, ◌≤◌, true, false, IsSome};
ghost use Rattle.fixed_machine.specs.Machine.{row_of};
ghost use Rattle.fixed_script.specs.Offered.{is_offered};
ghost use Rattle.fixed_agree.specs.Agreement.{IsBinary, IsByInteger, IsOfferedOnBoth, IsUnary, MachineAnswers, one_operand, three_operands, two_operands, with_integer};

use crate::answers::flagged_of;
use fixed_machine::Answer;
use fixed_num::Fixed;
use fixed_policy::{Overflowing, OverflowingMulAdd, OverflowingProducts, OverflowingSigned};
use fixed_script::{Op, Policy};
use fixed_word::{SignedWord, UnsignedWord, Word};

/// Runs an operation on one number that is offered on all words. Precondition: the row is defined.
pub fn unary<T: Word, const F: u32>(op: Op, a: Fixed<T, F>) -> Answer
    requires fraction { F ≤ T.BITS }
    requires arity { IsUnary op }
    requires offered { IsOfferedOnBoth Policy.Overflowing op }
    requires row { IsSome (row_of op (one_operand (T.value a.bits) F)) }
    ensures { MachineAnswers T.SIGNED T.BITS Policy.Overflowing op
        (one_operand (T.value a.bits) F) result }
{
    match op {
        Op::Neg => flagged_of(a.overflowing_neg()),
        Op::Recip => flagged_of(a.overflowing_recip()),
        Op::Sqrt => flagged_of(a.overflowing_sqrt()),
        _ => Answer::Absent,
    }
}

/// Runs an operation on one number that is offered on signed words. Precondition: the row is defined.
pub fn unary_signed<T: SignedWord, const F: u32>(op: Op, a: Fixed<T, F>) -> Answer
    requires fraction { F ≤ T.BITS }
    requires arity { IsUnary op }
    requires offered { is_offered true Policy.Overflowing op ≡ true }
    requires row { IsSome (row_of op (one_operand (T.value a.bits) F)) }
    ensures { MachineAnswers T.SIGNED T.BITS Policy.Overflowing op
        (one_operand (T.value a.bits) F) result }
{
    match op {
        Op::Abs => flagged_of(a.overflowing_abs()),
        Op::Signum => flagged_of(a.overflowing_signum()),
        _ => unary(op, a),
    }
}

/// Runs an operation on one number that is offered on unsigned words. Precondition: the row is defined.
pub fn unary_unsigned<T: UnsignedWord, const F: u32>(op: Op, a: Fixed<T, F>) -> Answer
    requires fraction { F ≤ T.BITS }
    requires arity { IsUnary op }
    requires offered { is_offered false Policy.Overflowing op ≡ true }
    requires row { IsSome (row_of op (one_operand (T.value a.bits) F)) }
    ensures { MachineAnswers T.SIGNED T.BITS Policy.Overflowing op
        (one_operand (T.value a.bits) F) result }
{
    unary(op, a)
}

/// Runs an operation on two numbers. Precondition: the row is defined.
pub fn binary<T: Word, const F: u32>(op: Op, a: Fixed<T, F>, b: Fixed<T, F>) -> Answer
    requires fraction { F ≤ T.BITS }
    requires arity { IsBinary op }
    requires offered { is_offered T.SIGNED Policy.Overflowing op ≡ true }
    requires row { IsSome (row_of op (two_operands (T.value a.bits) (T.value b.bits) F)) }
    ensures { MachineAnswers T.SIGNED T.BITS Policy.Overflowing op
        (two_operands (T.value a.bits) (T.value b.bits) F) result }
{
    match op {
        Op::Add => flagged_of(a.overflowing_add(b)),
        Op::Sub => flagged_of(a.overflowing_sub(b)),
        Op::Mul => flagged_of(a.overflowing_mul(b)),
        Op::Div => flagged_of(a.overflowing_div(b)),
        Op::DivEuclid => flagged_of(a.overflowing_div_euclid(b)),
        Op::NextMultipleOf => flagged_of(a.overflowing_next_multiple_of(b)),
        Op::Dist => flagged_of(a.overflowing_dist(b)),
        _ => Answer::Absent,
    }
}

/// Runs an operation on a number and an integer. Precondition: the row is defined.
pub fn by_integer<T: Word, const F: u32>(op: Op, a: Fixed<T, F>, k: T) -> Answer
    requires fraction { F ≤ T.BITS }
    requires arity { IsByInteger op }
    requires offered { is_offered T.SIGNED Policy.Overflowing op ≡ true }
    requires row { IsSome (row_of op (with_integer (T.value a.bits) (T.value k) F)) }
    ensures { MachineAnswers T.SIGNED T.BITS Policy.Overflowing op
        (with_integer (T.value a.bits) (T.value k) F) result }
{
    match op {
        Op::MulInt => flagged_of(a.overflowing_mul_int(k)),
        Op::DivInt => flagged_of(a.overflowing_div_int(k)),
        Op::DivEuclidInt => flagged_of(a.overflowing_div_euclid_int(k)),
        Op::RemEuclidInt => flagged_of(a.overflowing_rem_euclid_int(k)),
        _ => Answer::Absent,
    }
}

/// Runs the multiply-add: `a` times `mul`, plus `add`.
pub fn mul_add<T: Word, const F: u32, const G: u32>(
    a: Fixed<T, F>,
    mul: Fixed<T, G>,
    add: Fixed<T, F>,
) -> Answer
    requires fraction { G ≤ T.BITS }
    ensures { MachineAnswers T.SIGNED T.BITS Policy.Overflowing Op.MulAdd
        (three_operands (T.value a.bits) (T.value mul.bits) (T.value add.bits) F G F) result }
{
    flagged_of(a.overflowing_mul_add(mul, add))
}

/// Runs the sum with a product: `sum` plus `a` times `b`.
pub fn add_prod<T: Word, const F: u32, const A: u32, const B: u32>(
    sum: Fixed<T, F>,
    a: Fixed<T, A>,
    b: Fixed<T, B>,
) -> Answer
    requires fraction { F ≤ T.BITS }
    requires a { A ≤ T.BITS }
    requires b { B ≤ T.BITS }
    ensures { MachineAnswers T.SIGNED T.BITS Policy.Overflowing Op.AddProd
        (three_operands (T.value sum.bits) (T.value a.bits) (T.value b.bits) F A B) result }
{
    flagged_of(sum.overflowing_add_prod(a, b))
}
