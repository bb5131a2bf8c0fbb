//! Rounding of a number to whole numbers, in its own format.

ghost use Rattle.std.specs.Prelude.{◌≤◌};
ghost use Rattle.fixed_word.specs.Standing.{StandsFor};
ghost use Rattle.fixed_convert.specs.WholeNumber.{exact_ceil, exact_floor, exact_frac, exact_round, exact_round_ties_even};

use crate::castable::Castable;
use crate::fitting::fitted_by_ends;
use crate::multiples::{ceil_at, floor_at, frac_at, round_at, round_ties_even_at};
use fixed_word::Outcome;

/// Returns the largest whole number that is at most the number. Precondition: `frac` is at most the width.
#[inline]
pub fn floor_of<T: Castable>(a: T, frac: u32) -> Outcome<T>
    requires { frac ≤ T.BITS }
    ensures { StandsFor T.value T.SIGNED T.BITS (exact_floor (T.value a) frac) result }
{
    fitted_by_ends(floor_at(a.to_wide(), frac))
}

/// Returns the number minus its floor. Precondition: `frac` is at most the width.
#[inline]
pub fn frac_of<T: Castable>(a: T, frac: u32) -> Outcome<T>
    requires { frac ≤ T.BITS }
    ensures { StandsFor T.value T.SIGNED T.BITS (exact_frac (T.value a) frac) result }
{
    fitted_by_ends(frac_at(a.to_wide(), frac))
}

/// Returns the smallest whole number that is at least the number. Precondition: `frac` is at most the width.
#[inline]
pub fn ceil_of<T: Castable>(a: T, frac: u32) -> Outcome<T>
    requires { frac ≤ T.BITS }
    ensures { StandsFor T.value T.SIGNED T.BITS (exact_ceil (T.value a) frac) result }
{
    fitted_by_ends(ceil_at(a.to_wide(), frac))
}

/// Returns the nearest whole number, ties away from 0. Precondition: `frac` is at most the width.
#[inline]
pub fn round_of<T: Castable>(a: T, frac: u32) -> Outcome<T>
    requires { frac ≤ T.BITS }
    ensures { StandsFor T.value T.SIGNED T.BITS (exact_round (T.value a) frac) result }
{
    fitted_by_ends(round_at(a.to_wide(), frac))
}

/// Returns the nearest whole number, ties to even. Precondition: `frac` is at most the width.
#[inline]
pub fn round_ties_even_of<T: Castable>(a: T, frac: u32) -> Outcome<T>
    requires { frac ≤ T.BITS }
    ensures { StandsFor T.value T.SIGNED T.BITS (exact_round_ties_even (T.value a) frac) result }
{
    fitted_by_ends(round_ties_even_at(a.to_wide(), frac))
}
