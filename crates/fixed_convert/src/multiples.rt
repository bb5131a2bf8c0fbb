//! Rounding of an integer of 128 bits to multiples of `2^by`.

ghost use Rattle.std.specs.Prelude.{◌≡◌, ◌≤◌, ◌<◌, ◌^◌, nat_abs};
ghost use Rattle.fixed_convert.specs.WholeNumber.{exact_ceil, exact_floor, exact_frac, exact_round, exact_round_ties_even};

use crate::quotients::{nearest_at, rounded_at};
use fixed_word::{Integer, Rounding};

/// Returns the largest multiple of `2^by` that is at most the number.
#[inline]
pub(crate) fn floor_at(number: i128, by: u32) -> i128
    requires by { by ≤ 64 }
    requires small { nat_abs number < 2 ^ 64 }
    ensures { result ≡ exact_floor number by }
{
    number.floored(by).scaled(by)
}

/// Returns the number minus the largest multiple of `2^by` that is at most it.
#[inline]
pub(crate) fn frac_at(number: i128, by: u32) -> i128
    requires by { by ≤ 64 }
    requires small { nat_abs number < 2 ^ 64 }
    ensures { result ≡ exact_frac number by }
{
    number - floor_at(number, by)
}

/// Returns the smallest multiple of `2^by` that is at least the number.
#[inline]
pub(crate) fn ceil_at(number: i128, by: u32) -> i128
    requires by { by ≤ 64 }
    requires small { nat_abs number < 2 ^ 64 }
    ensures { result ≡ exact_ceil number by }
{
    -floor_at(-number, by)
}

/// Returns the nearest multiple of `2^by`, ties away from 0.
#[inline]
pub(crate) fn round_at(number: i128, by: u32) -> i128
    requires by { by ≤ 64 }
    requires small { nat_abs number < 2 ^ 64 }
    ensures { result ≡ exact_round number by }
{
    nearest_at(number, by).scaled(by)
}

/// Returns the nearest multiple of `2^by`, ties to even.
#[inline]
pub(crate) fn round_ties_even_at(number: i128, by: u32) -> i128
    requires by { by ≤ 64 }
    requires small { nat_abs number < 2 ^ 64 }
    ensures { result ≡ exact_round_ties_even number by }
{
    rounded_at(number, by, Rounding::Even).scaled(by)
}
