//! The checked calls return the machine's answer under `checked`: a number, or no value.
#![tactic(auto, unfolding(fixed_machine::specs::Rows::exact, fixed_script::specs::Offered::is_offered), using(crate::proofs::Answered::projected))]

ghost use Rattle.std.specs.Prelude.{◌≡◌, ◌≤◌, true, false};
ghost use Rattle.fixed_script.specs.Offered.{is_offered};
ghost use Rattle.fixed_agree.specs.Agreement.{IsBinary, IsByInteger, IsOfferedOnBoth, IsUnary, MachineAnswers, one_operand, three_operands, two_operands, with_integer};

use crate::answers::bits_or_absent;
use fixed_machine::Answer;
use fixed_num::Fixed;
use fixed_policy::{Checked, CheckedMulAdd, CheckedProducts, CheckedSigned, CheckedUnsigned};
use fixed_script::{Op, Policy};
use fixed_word::{SignedWord, UnsignedWord, Word};

/// Runs an operation on one number that is offered on all words.
pub fn unary<T: Word, const F: u32>(op: Op, a: Fixed<T, F>) -> Answer
    requires fraction { F ≤ T.BITS }
    requires arity { IsUnary op }
    requires offered { IsOfferedOnBoth Policy.Checked op }
    ensures { MachineAnswers T.SIGNED T.BITS Policy.Checked op
        (one_operand (T.value a.bits) F) result }
{
    match op {
        Op::Neg => bits_or_absent(a.checked_neg()),
        Op::Recip => bits_or_absent(a.checked_recip()),
        Op::Sqrt => bits_or_absent(a.checked_sqrt()),
        _ => Answer::Absent,
    }
}

/// Runs an operation on one number that is offered on signed words.
pub fn unary_signed<T: SignedWord, const F: u32>(op: Op, a: Fixed<T, F>) -> Answer
    requires fraction { F ≤ T.BITS }
    requires arity { IsUnary op }
    requires offered { is_offered true Policy.Checked op ≡ true }
    ensures { MachineAnswers T.SIGNED T.BITS Policy.Checked op
        (one_operand (T.value a.bits) F) result }
{
    match op {
        Op::Abs => bits_or_absent(a.checked_abs()),
        Op::Signum => bits_or_absent(a.checked_signum()),
        _ => unary(op, a),
    }
}

/// Runs an operation on one number that is offered on unsigned words.
pub fn unary_unsigned<T: UnsignedWord, const F: u32>(op: Op, a: Fixed<T, F>) -> Answer
    requires fraction { F ≤ T.BITS }
    requires arity { IsUnary op }
    requires offered { is_offered false Policy.Checked op ≡ true }
    ensures { MachineAnswers T.SIGNED T.BITS Policy.Checked op
        (one_operand (T.value a.bits) F) result }
{
    match op {
        Op::NextPowerOfTwo => bits_or_absent(a.checked_next_power_of_two()),
        _ => unary(op, a),
    }
}

/// Runs an operation on two numbers.
#[tactic(auto, unfolding(fixed_machine::specs::Rows::exact, fixed_script::specs::Offered::is_offered), using(crate::proofs::Rows::checked_row))]
pub fn binary<T: Word, const F: u32>(op: Op, a: Fixed<T, F>, b: Fixed<T, F>) -> Answer
    requires fraction { F ≤ T.BITS }
    requires arity { IsBinary op }
    requires offered { is_offered T.SIGNED Policy.Checked op ≡ true }
    ensures { MachineAnswers T.SIGNED T.BITS Policy.Checked op
        (two_operands (T.value a.bits) (T.value b.bits) F) result }
{
    match op {
        Op::Add => bits_or_absent(a.checked_add(b)),
        Op::Sub => bits_or_absent(a.checked_sub(b)),
        Op::Mul => bits_or_absent(a.checked_mul(b)),
        Op::Div => bits_or_absent(a.checked_div(b)),
        Op::DivEuclid => bits_or_absent(a.checked_div_euclid(b)),
        Op::NextMultipleOf => bits_or_absent(a.checked_next_multiple_of(b)),
        Op::Dist => bits_or_absent(a.checked_dist(b)),
        Op::Rem => bits_or_absent(a.checked_rem(b)),
        Op::RemEuclid => bits_or_absent(a.checked_rem_euclid(b)),
        _ => Answer::Absent,
    }
}

/// Runs an operation on a number and an integer.
pub fn by_integer<T: Word, const F: u32>(op: Op, a: Fixed<T, F>, k: T) -> Answer
    requires fraction { F ≤ T.BITS }
    requires arity { IsByInteger op }
    requires offered { is_offered T.SIGNED Policy.Checked op ≡ true }
    ensures { MachineAnswers T.SIGNED T.BITS Policy.Checked op
        (with_integer (T.value a.bits) (T.value k) F) result }
{
    match op {
        Op::MulInt => bits_or_absent(a.checked_mul_int(k)),
        Op::DivInt => bits_or_absent(a.checked_div_int(k)),
        Op::DivEuclidInt => bits_or_absent(a.checked_div_euclid_int(k)),
        Op::RemEuclidInt => bits_or_absent(a.checked_rem_euclid_int(k)),
        Op::RemInt => bits_or_absent(a.checked_rem_int(k)),
        _ => Answer::Absent,
    }
}

/// Runs the multiply-add: `a` times `mul`, plus `add`.
pub fn mul_add<T: Word, const F: u32, const G: u32>(
    a: Fixed<T, F>,
    mul: Fixed<T, G>,
    add: Fixed<T, F>,
) -> Answer
    requires fraction { G ≤ T.BITS }
    ensures { MachineAnswers T.SIGNED T.BITS Policy.Checked Op.MulAdd
        (three_operands (T.value a.bits) (T.value mul.bits) (T.value add.bits) F G F) result }
{
    bits_or_absent(a.checked_mul_add(mul, add))
}

/// Runs the sum with a product: `sum` plus `a` times `b`.
pub fn add_prod<T: Word, const F: u32, const A: u32, const B: u32>(
    sum: Fixed<T, F>,
    a: Fixed<T, A>,
    b: Fixed<T, B>,
) -> Answer
    requires fraction { F ≤ T.BITS }
    requires a { A ≤ T.BITS }
    requires b { B ≤ T.BITS }
    ensures { MachineAnswers T.SIGNED T.BITS Policy.Checked Op.AddProd
        (three_operands (T.value sum.bits) (T.value a.bits) (T.value b.bits) F A B) result }
{
    bits_or_absent(sum.checked_add_prod(a, b))
}
