//! What each policy makes of an outcome, as a number of a format or an integer.

ghost use Rattle.std.specs.Prelude.{◌≡◌, ℤ, Some, IsSome, option_map};
ghost use Rattle.fixed_word.specs.declared.outcome.Side.TheVariants.{Fits};
ghost use Rattle.fixed_word.specs.Policies.{checked, overflowing, saturating, wrapping};
ghost use Rattle.fixed_word.specs.Standing.{StandsFor};

use crate::numeric::Numeric;
use fixed_word::{Outcome, RawWord, Side, nearest_of};

/// Returns the number, or `None` if it does not fit.
#[inline]
pub(crate) fn checked_num<N: Numeric>(outcome: Outcome<N::Word>) -> Option<N>
    ensures { (x : ℤ) → StandsFor N.Word.value N.Word.SIGNED N.Word.BITS x outcome
        → option_map N.units result ≡ checked N.Word.SIGNED N.Word.BITS (Some x) }
{
    match outcome.side {
        Side::Fits => Some(N::from_word(outcome.wrapped)),
        Side::Above | Side::Below => None,
    }
}

/// Returns the wrapped number, and whether the exact number does not fit.
#[inline]
pub(crate) fn overflowing_num<N: Numeric>(outcome: Outcome<N::Word>) -> (N, bool)
    ensures { (x : ℤ) → StandsFor N.Word.value N.Word.SIGNED N.Word.BITS x outcome
        → Some (N.units result.0, result.1) ≡ overflowing N.Word.SIGNED N.Word.BITS (Some x) }
{
    (N::from_word(outcome.wrapped), outcome.side != Side::Fits)
}

/// Returns the wrapped number.
#[inline]
pub(crate) fn wrapping_num<N: Numeric>(outcome: Outcome<N::Word>) -> N
    ensures { (x : ℤ) → StandsFor N.Word.value N.Word.SIGNED N.Word.BITS x outcome
        → Some (N.units result) ≡ wrapping N.Word.SIGNED N.Word.BITS (Some x) }
{
    N::from_word(outcome.wrapped)
}

/// Returns the nearest number that fits.
#[inline]
pub(crate) fn saturating_num<N: Numeric>(outcome: Outcome<N::Word>) -> N
    ensures { (x : ℤ) → StandsFor N.Word.value N.Word.SIGNED N.Word.BITS x outcome
        → Some (N.units result) ≡ saturating N.Word.SIGNED N.Word.BITS (Some x) }
{
    N::from_word(nearest_of(outcome))
}

/// Returns the number if it fits.
#[inline]
pub(crate) fn exact_num<N: Numeric>(outcome: Outcome<N::Word>) -> N
    ensures { (x : ℤ) → StandsFor N.Word.value N.Word.SIGNED N.Word.BITS x outcome
        → IsSome (checked N.Word.SIGNED N.Word.BITS (Some x)) → Some (N.units result) ≡ Some x }
{
    N::from_word(exact_word(outcome))
}

/// Returns the word of a number if that fits.
#[inline]
fn exact_word<T: RawWord>(outcome: Outcome<T>) -> T
    ensures { (x : ℤ) → StandsFor T.value T.SIGNED T.BITS x outcome
        → IsSome (checked T.SIGNED T.BITS (Some x)) → T.value result ≡ x }
{
    outcome.wrapped
}

/// Returns the number of an outcome. Precondition: it fits.
#[inline]
pub(crate) fn strict_num<N: Numeric>(outcome: Outcome<N::Word>) -> N
    requires { (x : ℤ) × (StandsFor N.Word.value N.Word.SIGNED N.Word.BITS x outcome
        × IsSome (checked N.Word.SIGNED N.Word.BITS (Some x))) }
    ensures { (x : ℤ) → StandsFor N.Word.value N.Word.SIGNED N.Word.BITS x outcome
        → Some (N.units result) ≡ Some x }
{
    N::from_word(strict_word(outcome))
}

/// Returns the word of a number. Precondition: it fits.
#[inline]
pub(crate) fn strict_word<T: RawWord>(outcome: Outcome<T>) -> T
    requires { outcome.side ≡ Fits }
    ensures { (x : ℤ) → StandsFor T.value T.SIGNED T.BITS x outcome → T.value result ≡ x }
{
    outcome.wrapped
}
