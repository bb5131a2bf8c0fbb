//! The outcome of a number that an integer of 128 bits holds.
//!
//! `fitted_by_ends` and `fitted_by_bits` return the same. In loops the first is faster for numbers that were shifted
//! left, since the compiler compares what was shifted with the shifted ends. The second can become one instruction
//! for numbers that were shifted right.

ghost use Rattle.std.specs.Prelude.{◌≡◌, ℤ, int_lt, if◌then◌else◌};
ghost use Rattle.fixed_word.specs.Format.{clamp, wrap};
ghost use Rattle.fixed_word.specs.Standing.{StandsFor, side_of};

use crate::castable::Castable;
use fixed_word::{Outcome, Side};

/// Returns the outcome, by the ends of the range.
#[inline(always)]
pub(crate) fn fitted_by_ends<T: Castable>(number: i128) -> Outcome<T>
    ensures { StandsFor T.value T.SIGNED T.BITS number result }
{
    Outcome {
        wrapped: T::from_wide(number),
        side: side_by_ends::<T>(number),
    }
}

/// Returns the side of the number, by the ends of the range.
#[inline(always)]
fn side_by_ends<T: Castable>(number: i128) -> Side
    ensures { result ≡ side_of T.SIGNED T.BITS number }
{
    if T::MAX.to_wide() < number {
        Side::Above
    } else if number < T::MIN.to_wide() {
        Side::Below
    } else {
        Side::Fits
    }
}

/// Returns the outcome, by the number wrapped to the word.
#[inline(always)]
pub(crate) fn fitted_by_bits<T: Castable>(number: i128) -> Outcome<T>
    ensures { StandsFor T.value T.SIGNED T.BITS number result }
{
    let wrapped = T::from_wide(number);
    Outcome {
        wrapped,
        side: side_by_bits(number, wrapped),
    }
}

/// Returns the side of the number, by the number wrapped to the word.
#[inline(always)]
fn side_by_bits<T: Castable>(number: i128, wrapped: T) -> Side
    requires { T.value wrapped ≡ wrap T.SIGNED T.BITS number }
    ensures { result ≡ side_of T.SIGNED T.BITS number }
{
    if wrapped.to_wide() == number {
        Side::Fits
    } else if number < 0 {
        Side::Below
    } else {
        Side::Above
    }
}

/// Returns the word nearest to the number. The number is clamped before it is truncated to the word; loops do both in
/// one instruction.
#[inline(always)]
pub(crate) fn clamped<T: Castable>(number: i128) -> T
    ensures { T.value result ≡ clamp T.SIGNED T.BITS number }
{
    T::from_wide(nearest_from(number, T::MIN.to_wide(), T::MAX.to_wide()))
}

/// Returns the nearest number from `least` to `most`.
#[inline(always)]
fn nearest_from(number: i128, least: i128, most: i128) -> i128
    ensures { result ≡ (if int_lt number least then least
        else (if int_lt most number then most else number)) }
{
    if number < least {
        least
    } else if most < number {
        most
    } else {
        number
    }
}
