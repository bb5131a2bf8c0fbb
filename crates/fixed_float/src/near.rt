//! Floats near 0, rounded to whole numbers by one sum.

ghost use Rattle.std.specs.Prelude.{◌≡◌, ◌+◌, ◌-◌, ◌*◌, ◌%◌, ◌-ℤ◌, ◌<◌, ◌≤◌, ◌^◌, ℤ, IsTrue, Some, false, pos, suc, unsigned_abs, if◌then◌else◌};
ghost use Rattle.std.specs.Float.Ieee.{lt};
ghost use Rattle.std.specs.Float.Ieee.Exact.{HasValue};
ghost use Rattle.fixed_word.specs.Format.{InRange, highest, lowest};
ghost use Rattle.fixed_word.specs.declared.rounding.Rounding.TheVariants.{Even};
ghost use Rattle.fixed_float.specs.Rows.{units_of_float};
ghost use Rattle.fixed_float.specs.inside.Small.{HasBits, IsMedium, IsSmall};

use crate::nearest::held_f64;
use crate::packed::packed_f64;
use fixed_word::{RawWord, Rounding};

/// Returns the float in units of `2^-frac`, rounded to the nearest, ties to even. `None` decides nothing: the rounding
/// is another one, there are more than `2^50` units, or a word of at most 32 bits does not hold them.
#[inline]
pub(crate) fn whole_near<T: RawWord>(x: f64, frac: u32, rounding: Rounding) -> Option<i64>
    ensures units { (whole : ℤ) → result ≡ Some whole → units_of_float x frac rounding ≡ Some whole }
    ensures held { (whole : ℤ) → result ≡ Some whole → T.BITS ≤ 32 → InRange T.SIGNED T.BITS whole }
{
    match rounding {
        Rounding::Even if frac <= 64 => even_near::<T>(x, frac),
        _ => None,
    }
}

/// `1.5 * 2^52`. The last bit of a float from `2^52` to `2^53` is worth 1, so a sum in that range is rounded to a whole
/// number.
const CENTRE: f64 = 6755399441055744.0;

/// The bits of `CENTRE`.
const CENTRE_BITS: i64 = 0x4338_0000_0000_0000;

/// Does the same for the rounding to the nearest.
#[inline]
fn even_near<T: RawWord>(x: f64, frac: u32) -> Option<i64>
    requires { frac ≤ 64 }
    ensures units { (whole : ℤ) → result ≡ Some whole → units_of_float x frac Even ≡ Some whole }
    ensures held { (whole : ℤ) → result ≡ Some whole → T.BITS ≤ 32 → InRange T.SIGNED T.BITS whole }
{
    if is_near::<T>(x, frac) {
        Some(bits_of_sum(x, frac) as i64 - CENTRE_BITS)
    } else {
        None
    }
}

/// Returns whether there are at most `2^50` units, and whether a word of at most 32 bits holds them. To floats beyond, in
/// range of a word of 64 bits, a branch on each side would be slow.
#[inline]
fn is_near<T: RawWord>(x: f64, frac: u32) -> bool
    requires { frac ≤ 64 }
    ensures small { IsTrue result → IsSmall x frac }
    ensures held { (whole : ℤ) → IsTrue result → T.BITS ≤ 32 → units_of_float x frac Even ≡ Some whole
        → InRange T.SIGNED T.BITS whole }
{
    if T::BITS <= 32 {
        is_between_ends::<T>(x, frac)
    } else {
        larger(x, -x) <= f64::from_bits((1073 - frac as u64) << 52)
    }
}

/// Returns whether the float lies between the least number of a word of at most 32 bits and the greatest one.
#[inline]
fn is_between_ends<T: RawWord>(x: f64, frac: u32) -> bool
    requires narrow { T.BITS ≤ 32 }
    requires frac { frac ≤ 64 }
    ensures small { IsTrue result → IsSmall x frac }
    ensures held { (whole : ℤ) → IsTrue result → units_of_float x frac Even ≡ Some whole
        → InRange T.SIGNED T.BITS whole }
{
    let least = held_f64(0, T::MIN.magnitude(), frac);
    let most = held_f64(T::MAX.magnitude(), 0, frac);
    (least <= x) & (x <= most)
}

/// Returns the larger float.
#[inline]
pub(crate) fn larger(x: f64, y: f64) -> f64
    ensures { result ≡ (if lt x y then y else x) }
{
    if x < y { y } else { x }
}

/// Returns the bits of the sum of `CENTRE` and the float in units of `2^-frac`: they exceed `CENTRE_BITS` by the number
/// of units, rounded to the nearest, ties to even. Precondition: there are at most `2^50` units.
#[inline]
pub(crate) fn bits_of_sum(x: f64, frac: u32) -> u64
    requires frac { frac ≤ 64 }
    requires small { IsSmall x frac }
    ensures units { units_of_float x frac Even ≡ Some (pos result -ℤ pos 0x4338_0000_0000_0000) }
    ensures bound { result < 2 ^ 63 }
{
    let units = x * f64::from_bits((1023 + frac as u64) << 52);
    let sum = units + CENTRE;
    sum.to_bits()
}

/// `2^32` times `CENTRE`.
const UPPER_CENTRE: f64 = 29014219670751100192948224.0;

/// Returns the lowest 64 bits of the float in units of `2^-frac`, rounded to the nearest, ties to even. One sum rounds
/// to units of `2^32`, and another one rounds the rest, which is exact. Precondition: there are at most `2^64` units.
#[inline]
pub(crate) fn bits_of_sums(x: f64, frac: u32) -> u64
    requires frac { frac ≤ 64 }
    requires medium { IsMedium x frac }
    ensures { HasBits x frac result }
{
    let units = x * f64::from_bits((1023 + frac as u64) << 52);
    let upper = units + UPPER_CENTRE;
    let rest = units - (upper - UPPER_CENTRE);
    let lower = rest + CENTRE;
    joined(upper.to_bits(), lower.to_bits())
}

/// Returns `upper * 2^32`, and by how much `lower` exceeds the bits of `CENTRE`, wrapped.
#[inline]
fn joined(upper: u64, lower: u64) -> u64
    ensures { result ≡ (upper * 2 ^ 32 + lower + (2 ^ 64 - 0x4338_0000_0000_0000)) % 2 ^ 64 }
{
    (upper << 32)
        .wrapping_add(lower)
        .wrapping_sub(0x4338_0000_0000_0000)
}

/// Returns whether a word of 64 bits holds the number of units.
#[inline]
pub(crate) fn is_within<T: RawWord>(x: f64, frac: u32) -> bool
    requires long { 32 < T.BITS }
    requires frac { frac ≤ 64 }
    ensures medium { IsTrue result → IsMedium x frac }
    ensures held { (whole : ℤ) → IsTrue result → units_of_float x frac Even ≡ Some whole
        → InRange T.SIGNED T.BITS whole }
{
    let (least, beyond) = (least_of::<T>(frac), beyond_of::<T>(frac));
    (least <= x) & (x < beyond)
}

/// Returns the least number of a word of 64 bits over `2^frac`.
#[inline]
pub(crate) fn least_of<T: RawWord>(frac: u32) -> f64
    requires long { 32 < T.BITS }
    requires frac { frac ≤ 64 }
    ensures { HasValue result T.SIGNED (unsigned_abs (lowest T.SIGNED T.BITS)) (2 ^ frac) }
{
    if T::SIGNED {
        -packed_f64(0, 11, frac)
    } else {
        0.0
    }
}

/// Returns the number beyond the greatest one of a word of 64 bits, over `2^frac`.
#[inline]
pub(crate) fn beyond_of<T: RawWord>(frac: u32) -> f64
    requires long { 32 < T.BITS }
    requires frac { frac ≤ 64 }
    ensures { HasValue result false (suc (unsigned_abs (highest T.SIGNED T.BITS))) (2 ^ frac) }
{
    packed_f64(0, if T::SIGNED { 11 } else { 12 }, frac)
}
