//! One over the square root.

ghost use Rattle.std.specs.Prelude.{◌≡◌, ◌≤◌, ◌<◌, ◌+◌, ◌*◌, ◌/◌, ◌^◌, ◌<ℤ◌, pos};
ghost use Rattle.fixed_word.specs.Standing.{StandsFor};
ghost use Rattle.fixed_elementary.specs.ElementaryRows.{exact_recip_sqrt};
ghost use Rattle.fixed_elementary.specs.inside.RecipParts.{IsRecipRootOf};

use crate::digits::recip_root_by_digits;
use crate::roots::root_of_whole;
use fixed_word::{Outcome, RawWord, outcome_of_magnitude};

/// Returns a power of two. Precondition: the exponent is below 128.
pub(crate) fn power_of_two(exponent: u32) -> u128
    requires { exponent < 128 }
    ensures { result ≡ 2 ^ exponent }
{
    1 << exponent
}

/// Returns the quotient of `2^exponent` by a number, rounded down. A power that fits into 64 bits is divided there,
/// since a division of 128 bits takes many times as long.
fn power_over(exponent: u32, a: u64) -> u128
    requires exponent { exponent < 128 }
    requires some { 0 < a }
    ensures { result ≡ 2 ^ exponent / a }
{
    if exponent < 64 {
        u128::from(power_of_two(exponent) as u64 / a)
    } else {
        power_of_two(exponent) / u128::from(a)
    }
}

/// Returns the root of `2^exponent / a`, rounded down.
fn recip_root(a: u64, exponent: u32) -> u128
    requires exponent { exponent ≤ 192 }
    requires some { 0 < a }
    ensures { IsRecipRootOf (2 ^ exponent) a result }
{
    if exponent < 128 {
        root_of_whole(power_over(exponent, a))
    } else {
        recip_root_by_digits(a, exponent)
    }
}

/// Returns one over the square root of `a 2^-frac`, in units of `2^-frac`, rounded down: the r from 0 on with
/// `r^2 a <= 2^(3 frac) < (r+1)^2 a`. Preconditions: `a` is above 0, and `frac` is at most the width.
pub fn recip_sqrt_of<T: RawWord>(a: T, frac: u32) -> Outcome<T>
    requires frac { frac ≤ T.BITS }
    requires sign { pos 0 <ℤ T.value a }
    ensures { StandsFor T.value T.SIGNED T.BITS (exact_recip_sqrt (T.value a) frac) result }
{
    outcome_of_magnitude(false, recip_root(a.magnitude(), 3 * frac))
}
