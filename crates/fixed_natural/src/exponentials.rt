//! Powers of e, computed as powers of 2. The exponent of 2 is a product by a constant.

ghost use Rattle.std.specs.Prelude.{◌≡◌, ◌≤◌, ◌<◌, ◌+◌, ◌*◌, ◌^◌, ◌-◌, ℕ, ℤ};
ghost use Rattle.fixed_word.specs.Format.{with_sign};
ghost use Rattle.fixed_elementary.specs.Exp2.{IsExp2Up, StandsUpTo};
ghost use Rattle.fixed_natural.specs.Exps.{IsExp};
ghost use Rattle.fixed_natural.specs.inside.Exponent.{IsExponentTo};
ghost use Rattle.fixed_natural.specs.inside.Scaling.{IsInverse, IsQuotient};

use crate::scaling::{difference, in_places, scaled};
use fixed_elementary::exponentials::power_of;
use fixed_word::{Outcome, RawWord, Valued, outcome_of_magnitude};

/// Half the logarithm of e to the base 2, in units of `2^-128`, rounded down.
const HALF_LOG2_E: u128 = 0xb8aa_3b29_5c17_f0bb_be87_fed0_691d_3e88;

/// How many fraction bits an exponent of 2 has.
const PLACES: u32 = 63;

/// Converts a magnitude from units of `2^-frac` to units of `2^-(places+1)`.
fn moved(magnitude: u64, frac: u32, places: u32) -> u128
    requires frac { frac ≤ places + 1 }
    requires places { places ≤ 63 }
    ensures { result ≡ magnitude * 2 ^ (places + 1 - frac) }
{
    u128::from(magnitude) << (places + 1 - frac)
}

/// Returns the number z such that e to the power of `a 2^-frac` is `2^z` units of `2^-frac`. The result is in units of
/// `2^-places`, and 1 to 4 of them too large. It is `None` only if z is below 0, so that the power is less than a unit.
fn exponent_of<T: RawWord>(a: T, frac: u32, places: u32) -> Option<u128>
    requires frac { frac ≤ places + 1 }
    requires places { places ≤ 63 }
    ensures { (p q : ℕ) → 0 < q → IsInverse 0xb8aa3b295c17f0bbbe87fed0691d3e88 (2 * q) p
        → IsExponentTo p q (T.value a) frac places result }
{
    let offset = in_places(frac, places);
    let units = moved(a.magnitude(), frac, places);
    if a.is_below_zero() {
        difference(offset + 2, scaled(units, HALF_LOG2_E + 1, 0))
    } else {
        Some(offset + scaled(units, HALF_LOG2_E, 0) + 3)
    }
}

/// Returns the number 1 in units of `2^-frac`.
fn one(frac: u32) -> u128
    requires { frac ≤ 64 }
    ensures { result ≡ 2 ^ frac }
{
    1 << frac
}

/// Returns e to the power of `a 2^-frac`, in units of `2^-frac`. For the result r and the exact power p in units,
/// `r <= p 2^(2^-61)` and `p < r + 1`. e to the power of 0 is exactly 1. If the result is above the range, the outcome
/// stands for some number above the range. Precondition: `frac` is at most the width.
pub fn exp_of<T: RawWord>(a: T, frac: u32) -> Outcome<T>
    requires { frac ≤ T.BITS }
    ensures { (r : ℤ) × IsExp (T.value a) frac r
        × StandsUpTo T.value T.SIGNED T.BITS r result }
{
    if a.magnitude() == 0 {
        return outcome_of_magnitude(false, one(frac));
    }
    match exponent_of(a, frac, PLACES) {
        Some(exponent) => outcome_of_magnitude(false, power_of(exponent, PLACES, 64)),
        None => outcome_of_magnitude(false, 0),
    }
}
