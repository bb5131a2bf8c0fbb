//! Logarithms to the base 2. They are computed by factors. Where these leave a digit open, they are computed by
//! squaring.

ghost use Rattle.std.specs.Prelude.{◌≡◌, ◌≤◌, ◌<◌, ◌+◌, ◌*◌, ◌^◌, ◌<ℤ◌, ◌-ℤ◌, ℤ, pos};
ghost use Rattle.fixed_word.specs.Format.{with_sign};
ghost use Rattle.fixed_word.specs.Standing.{StandsFor};
ghost use Rattle.fixed_elementary.specs.Enclosed.{IsEnclosed};
ghost use Rattle.fixed_elementary.specs.Log2.{IsLog2Of, log2_room};
ghost use Rattle.fixed_elementary.specs.inside.Digits.{IsFound};

use crate::mantissas::{broad_squarings, narrow_squarings};
use crate::reductions::{
    BROAD_LACK, BroadLog, NARROW_LACK, NarrowLog, broad_log, broad_units, narrow_log, narrow_units,
};
use fixed_word::{Outcome, RawWord, Valued, outcome_of_magnitude};

/// Returns the logarithm in units of `2^-places`, from a mantissa of 64 bits.
fn narrow_log2(a: u64, places: u32) -> u64
    requires some { 0 < a }
    requires places { places ≤ 32 }
    ensures { IsFound 62 a places result }
{
    let log = narrow_log(a);
    let least = narrow_units(log, places);
    let most = NarrowLog {
        digits: log.digits,
        part: log.part + NARROW_LACK,
    };
    if narrow_units(most, places) == least {
        least
    } else {
        narrow_squarings(a, places)
    }
}

/// Returns the logarithm in units of `2^-places`, from a mantissa of 128 bits.
fn broad_log2(a: u64, places: u32) -> u128
    requires some { 0 < a }
    requires places { places ≤ 64 }
    ensures { IsFound 126 a places result }
{
    let log = broad_log(a);
    let least = broad_units(log, places);
    let most = BroadLog {
        digits: log.digits,
        part: log.part + BROAD_LACK,
    };
    if broad_units(most, places) == least {
        least
    } else {
        broad_squarings(a, places)
    }
}

/// Returns the logarithm of `a` to the base 2, in units of `2^-places`, from a mantissa of 64 bits, or where `bits` is
/// above 32 from one of 128. The exact logarithm is at least the result, and less than 2 units above it. Preconditions:
/// `a` is above 0, and `places` is at most 57, or 121 where `bits` is above 32.
pub fn enclosed_log2(bits: u32, a: u64, places: u32) -> u128
    requires some { 0 < a }
    requires places { places ≤ 121 }
    requires narrow { bits ≤ 32 → places ≤ 57 }
    ensures { IsEnclosed a places result }
{
    if bits <= 32 {
        u128::from(narrow_units(narrow_log(a), places))
    } else {
        broad_units(broad_log(a), places)
    }
}

/// Returns the logarithm in units of `2^-places`, from a mantissa of 64 bits, or on words of 64 bits from one of 128.
fn units_of(bits: u32, a: u64, places: u32) -> u128
    requires bits { bits ≤ 64 }
    requires some { 0 < a }
    requires places { places ≤ bits }
    ensures { IsFound (log2_room bits) a places result }
{
    if bits <= 32 {
        u128::from(narrow_log2(a, places))
    } else {
        broad_log2(a, places)
    }
}

/// Returns the number `places` in units of `2^-places`.
pub(crate) fn in_units(places: u32) -> u128
    requires { places ≤ 64 }
    ensures { result ≡ places * 2 ^ places }
{
    u128::from(places) << places
}

/// Returns the outcome of `units - less`.
fn outcome_of_difference<T: RawWord>(units: u128, less: u128) -> Outcome<T>
    ensures { StandsFor T.value T.SIGNED T.BITS (pos units -ℤ pos less) result }
{
    if units < less {
        outcome_of_magnitude(true, less - units)
    } else {
        outcome_of_magnitude(false, units - less)
    }
}

/// Returns the logarithm of `a 2^-frac` to the base 2, in units of `2^-frac`. For the result r and the exact logarithm
/// l in units, `r <= l < r + 1 + 2^-k`, where `frac + k` is 62 on words of up to 32 bits and 126 on words of 64 bits.
/// The logarithm of a power of two is exact. Preconditions: `a` is above 0, and `frac` is at most the width.
pub fn log2_of<T: RawWord>(a: T, frac: u32) -> Outcome<T>
    requires frac { frac ≤ T.BITS }
    requires sign { pos 0 <ℤ T.value a }
    ensures { (r : ℤ) × IsLog2Of (log2_room T.BITS) (T.value a) frac r
        × StandsFor T.value T.SIGNED T.BITS r result }
{
    outcome_of_difference(units_of(T::BITS, a.magnitude(), frac), in_units(frac))
}
