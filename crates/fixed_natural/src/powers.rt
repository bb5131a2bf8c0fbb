//! Powers of numbers above 0, computed as powers of 2. The exponent of 2 is a product by a logarithm.

ghost use Rattle.std.specs.Prelude.{◌≡◌, ◌≤◌, ◌<◌, ◌+◌, ◌*◌, ◌^◌, ◌<ℤ◌, ℕ, ℤ, None, Some, min, pos};
ghost use Rattle.fixed_word.specs.Format.{with_sign};
ghost use Rattle.fixed_elementary.specs.Exp2.{IsExp2Up, StandsUpTo};
ghost use Rattle.fixed_natural.specs.Pows.{IsPow};
ghost use Rattle.fixed_natural.specs.inside.PowExponent.{IsPowExponent};

use crate::scaling::{difference, in_places, scaled};
use fixed_elementary::exponentials::power_of;
use fixed_elementary::logarithms::enclosed_log2;
use fixed_word::{Outcome, RawWord, Valued, outcome_of_magnitude};

/// Returns a number times `2^64`.
fn wide(number: u64) -> u128
    ensures { result ≡ number * 2 ^ 64 }
{
    u128::from(number) * (1 << 64)
}

/// Returns the number z such that `a` to the power of `exponent` is `2^z`, where operands and power are in units of
/// `2^-frac`. The result is in units of `2^-57`, and 1 to 4 of them too large. It is `None` only if z is below 0, so
/// that the power is less than a unit.
fn rising(a: u64, frac: u32, exponent: u64) -> Option<u128>
    requires frac { frac ≤ 64 }
    requires some { 0 < a }
    ensures { IsPowExponent a exponent 0 frac result }
{
    let units = enclosed_log2(64, a, 121) + 2;
    let offset = in_places(frac, 121);
    let start = in_places(frac, 57);
    if offset <= units {
        Some(start + scaled(units - offset, wide(exponent), frac) + 2)
    } else {
        difference(start + 1, scaled(offset - units, wide(exponent), frac))
    }
}

/// Returns the same number for the power of `-exponent`, with the same bound.
fn falling(a: u64, frac: u32, exponent: u64) -> Option<u128>
    requires frac { frac ≤ 64 }
    requires some { 0 < a }
    ensures { IsPowExponent a 0 exponent frac result }
{
    let units = enclosed_log2(64, a, 121);
    let offset = in_places(frac, 121);
    let start = in_places(frac, 57);
    if offset <= units {
        difference(start + 1, scaled(units - offset, wide(exponent), frac))
    } else {
        Some(start + scaled(offset - units, wide(exponent), frac) + 2)
    }
}

/// Returns the power with this exponent of 2, at most `2^64`, or 0 if there is no exponent.
fn power_at(exponent: Option<u128>) -> u128
    ensures none { exponent ≡ None → result ≡ 0 }
    ensures some { (z : ℕ) → exponent ≡ Some z → (r : ℕ) × IsExp2Up 117 z 57 r × (result ≡ min r (2 ^ 64)) }
{
    match exponent {
        Some(exponent) => power_of(exponent, 57, 64),
        None => 0,
    }
}

/// Returns `a 2^-frac` to the power of `b 2^-frac`, in units of `2^-frac`. For the result r and the exact power p in
/// units, `r <= p 2^(2^-55)` and `p < r + 1`. A power that is a whole number of up to `2^54` units is exact. If the
/// result is above the range, the outcome stands for some number above the range. Preconditions: `a` is above 0, and
/// `frac` is at most the width.
pub fn pow_of<T: RawWord>(a: T, b: T, frac: u32) -> Outcome<T>
    requires frac { frac ≤ T.BITS }
    requires sign { pos 0 <ℤ T.value a }
    ensures { (r : ℤ) × IsPow (T.value a) (T.value b) frac r
        × StandsUpTo T.value T.SIGNED T.BITS r result }
{
    if b.is_below_zero() {
        outcome_of_magnitude(false, power_at(falling(a.magnitude(), frac, b.magnitude())))
    } else {
        outcome_of_magnitude(false, power_at(rising(a.magnitude(), frac, b.magnitude())))
    }
}
