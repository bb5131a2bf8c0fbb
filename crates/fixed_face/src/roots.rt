//! Square roots. Operands and results are bits, in units of `2^-frac`.
#![tactic(auto, unfolding(crate::specs::Calls::IsResultOf, crate::specs::Answers::at_fraction, crate::specs::Answers::row_or))]

ghost use Rattle.std.specs.Prelude.{◌≡◌};
ghost use Rattle.fixed_kernel.specs.Root.{root_of};
ghost use Rattle.fixed_kernel.specs.Rows.{by_sign};
ghost use Rattle.fixed_face.specs.declared.answer.Code.TheVariants.{NegativeRoot};
ghost use Rattle.fixed_face.specs.Answers.{at_fraction, row_or};
ghost use Rattle.fixed_face.specs.Calls.{IsResultOf};

use crate::answer::Code;
use fixed_kernel::sqrt_of;
use fixed_word::{Outcome, RawWord, Word};

/// Returns the root of `a 2^frac`, rounded down. Fails with `FractionPastWidth` if `frac` is greater than the width,
/// and with `NegativeRoot` if `a` is negative.
#[inline]
pub(crate) fn sqrt<T: Word>(a: T, frac: u32) -> Result<Outcome<T>, Code>
    ensures { IsResultOf T.value T.SIGNED T.BITS
        (at_fraction T.BITS frac (row_or NegativeRoot (by_sign (T.value a) (root_of (T.value a) frac)))) result }
{
    if frac > T::BITS {
        return Err(Code::FractionPastWidth);
    }
    if a.is_below_zero() {
        return Err(Code::NegativeRoot);
    }
    Ok(sqrt_of(a, frac))
}
