//! The dot product of two arrays.
#![tactic(auto, unfolding(crate::specs::Calls::IsResultOf, crate::specs::Answers::at_fraction, crate::specs::Places::with_as_many, crate::specs::Dots::IsDot))]

ghost use Rattle.std.specs.Prelude.{ℤ, Result, map};
ghost use Rattle.fixed_face.specs.declared.answer.Code.{Code};
ghost use Rattle.fixed_face.specs.Answers.{at_fraction};
ghost use Rattle.fixed_face.specs.Dots.{IsDot};
ghost use Rattle.fixed_face.specs.Near.{allowed};
ghost use Rattle.fixed_face.specs.Places.{with_as_many};
ghost use Rattle.fixed_face.specs.Calls.{IsResultOf};

use crate::answer::Code;
use fixed_block::dot_of;
use fixed_convert::Castable;
use fixed_word::Outcome;

/// Returns the sum of the products of the numbers at the same index, over `2^frac` and rounded down once. Fails with
/// `FractionPastWidth` if `frac` is greater than the width, with `CountsDiffer` if one array is longer than the other,
/// and with `OutOfRange` only if the sum of some products at the front does not fit in an integer of 128 bits. Arrays
/// of words of up to 32 bits are too short for that.
#[inline]
pub fn dot<T: Castable>(a: &[T], b: &[T], frac: u32) -> Result<Outcome<T>, Code>
    ensures { (found : Result ℤ Code)
        × IsDot T.SIGNED (at_fraction T.BITS frac (with_as_many a.now b.now allowed))
        (map T.value a.now) (map T.value b.now) frac found
        × IsResultOf T.value T.SIGNED T.BITS found result }
{
    if frac > T::BITS {
        return Err(Code::FractionPastWidth);
    }
    if a.len() != b.len() {
        return Err(Code::CountsDiffer);
    }
    match dot_of(a, b, frac) {
        Some(outcome) => Ok(outcome),
        None => Err(Code::OutOfRange),
    }
}
