//! What each policy makes of the number that an outcome stands for.

ghost use Rattle.std.specs.Prelude.{◌≡◌, ℤ, Some, option_map, int_lt, if◌then◌else◌};
ghost use Rattle.fixed_word.specs.declared.outcome.Side.TheVariants.{Above, Below};
ghost use Rattle.fixed_word.specs.Format.{clamp, highest, lowest};
ghost use Rattle.fixed_word.specs.Standing.{StandsFor};
ghost use Rattle.fixed_word.specs.Policies.{checked, overflowing, wrapping, saturating};

use crate::arithmetic::Arithmetic;
use crate::integer::Integer;
use crate::outcome::{Outcome, Side};
use crate::word::{RawWord, Word};

/// Returns the number, or `None` if it does not fit.
pub fn checked_of<T: Word>(outcome: Outcome<T>) -> Option<T>
    ensures { (x : ℤ) → StandsFor T.value T.SIGNED T.BITS x outcome
        → option_map T.value result ≡ checked T.SIGNED T.BITS (Some x) }
{
    match outcome.side {
        Side::Fits => Some(outcome.wrapped),
        Side::Above | Side::Below => None,
    }
}

/// Returns the wrapped number, and whether the exact number does not fit.
pub fn overflowing_of<T: Word>(outcome: Outcome<T>) -> (T, bool)
    ensures { (x : ℤ) → StandsFor T.value T.SIGNED T.BITS x outcome
        → Some (T.value result.0, result.1) ≡ overflowing T.SIGNED T.BITS (Some x) }
{
    (outcome.wrapped, outcome.side != Side::Fits)
}

/// Returns the wrapped number: it fits, and differs from the exact number by a multiple of `2^n`, where n is the
/// width.
pub fn wrapping_of<T: Word>(outcome: Outcome<T>) -> T
    ensures { (x : ℤ) → StandsFor T.value T.SIGNED T.BITS x outcome
        → Some (T.value result) ≡ wrapping T.SIGNED T.BITS (Some x) }
{
    overflowing_of(outcome).0
}

/// Returns the nearest number that fits.
pub fn saturating_of<T: Word>(outcome: Outcome<T>) -> T
    ensures { (x : ℤ) → StandsFor T.value T.SIGNED T.BITS x outcome
        → Some (T.value result) ≡ saturating T.SIGNED T.BITS (Some x) }
{
    nearest_of(outcome)
}

/// Returns the word nearest to the number of an outcome: `saturating_of` for every word whose range is known. The end
/// of the range is chosen before the test whether the number fits, so that loops select it without a branch.
#[inline]
pub fn nearest_of<T: RawWord>(outcome: Outcome<T>) -> T
    ensures { (x : ℤ) → StandsFor T.value T.SIGNED T.BITS x outcome
        → T.value result ≡ clamp T.SIGNED T.BITS x }
{
    let end: T = end_on(outcome.side);
    match outcome.side {
        Side::Fits => outcome.wrapped,
        _ => end,
    }
}

/// Returns the end of the range on the side of a number that does not fit.
#[inline]
fn end_on<T: RawWord>(side: Side) -> T
    ensures below { side ≡ Below → T.value result ≡ lowest T.SIGNED T.BITS }
    ensures above { side ≡ Above → T.value result ≡ highest T.SIGNED T.BITS }
{
    match side {
        Side::Below => T::MIN,
        _ => T::MAX,
    }
}

/// Returns the word nearest to an integer.
#[inline]
pub fn nearest_of_whole<T: Word>(whole: T::Whole) -> T
    ensures { T.value result ≡ clamp T.SIGNED T.BITS (T.Whole.value whole) }
{
    T::cut(between(T::MIN.whole(), T::MAX.whole(), whole))
}

/// Returns the number from `least` to `greatest` that is nearest to an integer.
#[inline]
fn between<I: Integer>(least: I, greatest: I, number: I) -> I
    ensures { I.value result ≡ (if int_lt (I.value number) (I.value least) then I.value least
        else (if int_lt (I.value greatest) (I.value number) then I.value greatest else I.value number)) }
{
    if number.is_below(least) {
        least
    } else if greatest.is_below(number) {
        greatest
    } else {
        number
    }
}

/// Returns the nearest number that fits, by a choice at each end, which loops of products do in one instruction.
#[inline]
pub fn clamped_of<T: Word>(outcome: Outcome<T>) -> T
    ensures { (x : ℤ) → StandsFor T.value T.SIGNED T.BITS x outcome
        → Some (T.value result) ≡ saturating T.SIGNED T.BITS (Some x) }
{
    outcome
        .wrapped
        .unless(outcome.side == Side::Above, T::MAX)
        .unless(outcome.side == Side::Below, T::MIN)
}

/// Returns the number. Precondition: it fits.
pub fn strict_of<T: Word>(outcome: Outcome<T>) -> T
    requires { outcome.side ≡ Side.Fits }
    ensures { (x : ℤ) → StandsFor T.value T.SIGNED T.BITS x outcome
        → T.value result ≡ x }
{
    outcome.wrapped
}
