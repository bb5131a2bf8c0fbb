//! Words multiplied and divided by powers of two.

ghost use Rattle.std.specs.Prelude.{◌≡◌, ◌≤◌, ◌^◌, ◌*ℤ◌, ◌<ℤ◌, ℕ, pos};
ghost use Rattle.fixed_word.specs.declared.outcome.Side.TheVariants.{Above, Below, Fits};
ghost use Rattle.fixed_word.specs.Format.{clamp};
ghost use Rattle.fixed_word.specs.Quotient.{floor_quotient};
ghost use Rattle.fixed_word.specs.Standing.{StandsFor};
ghost use Rattle.fixed_kernel.specs.Rounded.{rounded};

use crate::castable::Castable;
use crate::fitting::{clamped, fitted_by_bits, fitted_by_ends};
use crate::quotients::rounded_at;
use fixed_word::{Integer, Outcome, RawWord, Rounding, Side, Valued};

/// Returns the outcome of `a 2^by`.
#[inline(always)]
pub(crate) fn raised<S: Castable, T: Castable>(a: S, by: u32) -> Outcome<T>
    ensures { StandsFor T.value T.SIGNED T.BITS (S.value a *ℤ pos (2 ^ by)) result }
{
    if by < T::BITS {
        fitted_by_ends(a.to_wide().scaled(by))
    } else {
        moved_out(a)
    }
}

/// Returns the outcome of `a 2^by` if `by` is at least the width, so that no bit of `a` is left.
#[inline]
fn moved_out<S: Castable, T: Castable>(a: S) -> Outcome<T>
    ensures { (by : ℕ) → T.BITS ≤ by
        → StandsFor T.value T.SIGNED T.BITS (S.value a *ℤ pos (2 ^ by)) result }
{
    Outcome {
        wrapped: T::ZERO,
        side: side_of_sign(a),
    }
}

/// Returns the side of every multiple of `a` that is out of range; `Fits` if `a` is 0.
#[inline]
fn side_of_sign<S: Castable>(a: S) -> Side
    ensures zero { S.value a ≡ pos 0 → result ≡ Fits }
    ensures below { S.value a <ℤ pos 0 → result ≡ Below }
    ensures above { pos 0 <ℤ S.value a → result ≡ Above }
{
    if a.magnitude() == 0 {
        Side::Fits
    } else if a.is_below_zero() {
        Side::Below
    } else {
        Side::Above
    }
}

/// Returns the outcome of `a / 2^by`, rounded down.
#[inline]
pub(crate) fn lowered<S: Castable, T: Castable>(a: S, by: u32) -> Outcome<T>
    ensures { StandsFor T.value T.SIGNED T.BITS (floor_quotient (S.value a) (2 ^ by)) result }
{
    fitted_by_bits(a.to_wide().floored(at_most(by)))
}

/// Returns the outcome of `a / 2^by`, rounded as named.
#[inline]
pub(crate) fn lowered_round<S: Castable, T: Castable>(
    a: S,
    by: u32,
    rounding: Rounding,
) -> Outcome<T>
    ensures { StandsFor T.value T.SIGNED T.BITS
        (rounded (S.value a) (pos (2 ^ by)) rounding) result }
{
    fitted_by_bits(rounded_at(a.to_wide(), at_most(by), rounding))
}

/// Returns the word nearest to `a / 2^by`, rounded as named.
#[inline]
pub(crate) fn lowered_clamped<S: Castable, T: Castable>(a: S, by: u32, rounding: Rounding) -> T
    ensures { T.value result
        ≡ clamp T.SIGNED T.BITS (rounded (S.value a) (pos (2 ^ by)) rounding) }
{
    clamped(rounded_at(a.to_wide(), at_most(by), rounding))
}

/// Returns a shift, at most 66, with the same result for every word: a quotient by `2^66` or more is smaller than
/// 1/4.
#[inline]
fn at_most(by: u32) -> u32
    ensures same { by ≤ 66 → result ≡ by }
    ensures most { 66 ≤ by → result ≡ 66 }
{
    if by < 66 { by } else { 66 }
}
