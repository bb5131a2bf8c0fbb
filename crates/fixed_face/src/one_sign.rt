//! Operations that only signed words have, or only unsigned ones. Operands and results are bits, in units of `2^-frac`.
#![tactic(auto, unfolding(crate::specs::Calls::IsResultOf, crate::specs::Answers::at_fraction))]

ghost use Rattle.std.specs.Prelude.{◌≡◌, Ok, map};
ghost use Rattle.fixed_kernel.specs.Rows.{exact_abs, exact_next_power_of_two, exact_signum};
ghost use Rattle.fixed_face.specs.Answers.{at_fraction};
ghost use Rattle.fixed_face.specs.Blocks.{BlockAnswers, at_policy};
ghost use Rattle.fixed_face.specs.Calls.{IsResultOf};

use crate::answer::Code;
use crate::blocks::each;
use fixed_block::Abs;
use fixed_kernel::{abs_of, next_power_of_two_of, signum_of};
use fixed_word::{Outcome, SignedWord, UnsignedWord, Word};

/// Returns the magnitude of `a`. Never fails.
#[inline]
pub fn abs<T: SignedWord>(a: T) -> Result<Outcome<T>, Code>
    ensures { IsResultOf T.value T.SIGNED T.BITS
        (Ok (exact_abs (T.value a))) result }
{
    Ok(abs_of(a))
}

/// Writes the magnitude of x over each x of the block. Fails with `NoPolicy` if no policy has the number `policy`, and
/// with `OutOfRange` if the policy is `Checked` and a result does not fit.
#[inline]
pub fn abs_block<T: SignedWord>(block: &mut [T], policy: u32, place: &mut usize) -> i32
    ensures { BlockAnswers T.value T.SIGNED T.BITS
        (at_policy policy (map exact_abs (map T.value block.old)))
        (block.old, place.old) (block.new, place.new) result }
{
    each(&Abs, policy, block, place)
}

/// Returns `2^frac` if `a` is positive, 0 if it is 0, and `-2^frac` if it is negative. Fails with `FractionPastWidth`
/// if `frac` is greater than the width.
#[inline]
pub fn signum<T: SignedWord>(a: T, frac: u32) -> Result<Outcome<T>, Code>
    ensures { IsResultOf T.value T.SIGNED T.BITS
        (at_fraction T.BITS frac (Ok (exact_signum (T.value a) frac))) result }
{
    if frac > T::BITS {
        return Err(Code::FractionPastWidth);
    }
    Ok(signum_of(a, frac))
}

/// Returns the smallest power of two that is at least `a`, both as bits. Never fails.
#[inline]
pub fn next_power_of_two<T: UnsignedWord>(a: T) -> Result<Outcome<T>, Code>
    ensures { IsResultOf T.value T.SIGNED T.BITS
        (Ok (exact_next_power_of_two (T.value a))) result }
{
    Ok(next_power_of_two_of(a))
}
