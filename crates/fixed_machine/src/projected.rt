//! The result of a policy for a row.

ghost use Rattle.std.specs.Prelude.{◌≡◌, ◌≤◌, ◌<◌, ◌^◌, ℕ, ℤ, Bool, Option, Some, None, true, false, unsigned_abs, IsTrue};
ghost use Rattle.fixed_script.specs.declared.names.Op.{Op as Operation};
ghost use Rattle.fixed_word.specs.Format.{fits};
ghost use Rattle.fixed_word.specs.Standing.{StandsFor};
ghost use Rattle.fixed_script.specs.Offered.{is_offered};
ghost use Rattle.fixed_machine.specs.Machine.{row_by};
ghost use Rattle.fixed_text.specs.Words.{is_signed, width};
ghost use Rattle.fixed_machine.specs.Step.{FitsFormat, IsCell, cell_of};
ghost use Rattle.fixed_machine.specs.inside.Stepping.{IsAnswerOfRow, in_whole, number_in, values_of};

use crate::answer::SignedAnswer;
use crate::cause::Cause;
use crate::register::{OperandRegisters, Register, Signed};
use crate::rows::{Operand, outcome_by, word_held};
use fixed_script::{Op, Policy};
use fixed_text::WordName;
use fixed_word::{
    Outcome, RawWord, Rounding, Side, Word, checked_of, overflowing_of, saturating_of, strict_of,
    wrapping_of,
};

/// Returns the number of a word.
#[inline(always)]
fn number_of<T: RawWord>(word: T) -> Signed
    ensures { number_in result ≡ T.value word }
{
    Signed {
        below_zero: word.is_below_zero(),
        magnitude: word.magnitude(),
    }
}

/// Returns the operand that a register holds.
#[inline(always)]
fn operand_of<T: Word>(register: Register) -> Operand<T>
    requires { IsTrue (fits T.SIGNED T.BITS (cell_of register).bits) }
    ensures bits { T.value result.bits ≡ (cell_of register).bits }
    ensures fraction { result.fraction ≡ (cell_of register).fraction }
{
    Operand {
        bits: word_held(register),
        fraction: register.fraction,
    }
}

/// Returns the policy's answer for the number of an outcome, or its cause.
#[tactic(auto, unfolding(crate::specs::Machine::row_cause))]
#[inline(always)]
fn answered<T: Word>(
    policy: Policy,
    outcome: Outcome<T>,
    number: u64,
) -> Result<SignedAnswer, Cause>
    ensures { (x : ℤ) (op : Operation) → StandsFor T.value T.SIGNED T.BITS x outcome
        → IsAnswerOfRow T.SIGNED T.BITS policy op (Some x) number (in_whole result) }
{
    match policy {
        Policy::Checked => match checked_of(outcome) {
            Some(word) => Ok(SignedAnswer::Bits(number_of(word))),
            None => Ok(SignedAnswer::Absent),
        },
        Policy::Saturating => Ok(SignedAnswer::Bits(number_of(saturating_of(outcome)))),
        Policy::Wrapping => Ok(SignedAnswer::Bits(number_of(wrapping_of(outcome)))),
        Policy::Overflowing => {
            let (word, verdict) = overflowing_of(outcome);
            Ok(SignedAnswer::Flagged(number_of(word), verdict))
        }
        Policy::Strict => match outcome.side {
            Side::Fits => Ok(SignedAnswer::Bits(number_of(strict_of(outcome)))),
            Side::Above | Side::Below => Err(Cause::Overflow(number)),
        },
    }
}

/// Returns the policy's answer for a row that is undefined, or its cause.
#[tactic(auto, unfolding(crate::specs::Machine::row_cause))]
#[inline(always)]
fn unanswered(policy: Policy, op: Op, number: u64) -> Result<SignedAnswer, Cause>
    ensures { (signed : Bool) (n : ℕ) (row : Option ℤ) → row ≡ None
        → IsAnswerOfRow signed n policy op row number (in_whole result) }
{
    if policy == Policy::Checked {
        Ok(SignedAnswer::Absent)
    } else if op == Op::Sqrt {
        Err(Cause::NegativeRoot(number))
    } else {
        Err(Cause::ZeroDivisor(number))
    }
}

/// Returns the answer of an operation on registers of a word, or its cause.
#[inline(always)]
#[tactic(auto, unfolding(crate::specs::Machine::row_cause))]
pub(crate) fn answer_as<T: Word>(
    policy: Policy,
    op: Op,
    rounding: Option<Rounding>,
    taken: &OperandRegisters,
    number: u64,
) -> Result<SignedAnswer, Cause>
    requires offered { is_offered T.SIGNED policy op ≡ true }
    requires a { FitsFormat T.SIGNED T.BITS (cell_of taken.now.a) }
    requires b { FitsFormat T.SIGNED T.BITS (cell_of taken.now.b) }
    requires c { FitsFormat T.SIGNED T.BITS (cell_of taken.now.c) }
    ensures { IsAnswerOfRow T.SIGNED T.BITS policy op (row_by rounding op (values_of taken.now)) number
        (in_whole result) }
{
    let a = operand_of::<T>(taken.a);
    let b = operand_of::<T>(taken.b);
    match outcome_by(rounding, op, a, b, taken.c) {
        None => unanswered(policy, op, number),
        Some(outcome) => answered(policy, outcome, number),
    }
}

/// Does the same on the word with this name.
#[inline(never)]
pub(crate) fn answer_in_word(
    word: WordName,
    policy: Policy,
    op: Op,
    rounding: Option<Rounding>,
    taken: &OperandRegisters,
    number: u64,
) -> Result<SignedAnswer, Cause>
    requires offered { is_offered (is_signed word) policy op ≡ true }
    requires a { IsCell word (cell_of taken.now.a) }
    requires b { IsCell word (cell_of taken.now.b) }
    requires c { IsCell word (cell_of taken.now.c) }
    ensures { IsAnswerOfRow (is_signed word)
        (width word) policy op (row_by rounding op (values_of taken.now)) number (in_whole result) }
{
    match word {
        WordName::I8 => answer_as::<i8>(policy, op, rounding, taken, number),
        WordName::I16 => answer_as::<i16>(policy, op, rounding, taken, number),
        WordName::I32 => answer_as::<i32>(policy, op, rounding, taken, number),
        WordName::I64 => answer_as::<i64>(policy, op, rounding, taken, number),
        WordName::U8 => answer_as::<u8>(policy, op, rounding, taken, number),
        WordName::U16 => answer_as::<u16>(policy, op, rounding, taken, number),
        WordName::U32 => answer_as::<u32>(policy, op, rounding, taken, number),
        WordName::U64 => answer_as::<u64>(policy, op, rounding, taken, number),
    }
}
