//! The floats nearest to words.
//!
//! A word is the number above the least one, less the magnitude of the least one. Each half of such a number is packed
//! into a float, whose lowest bits it becomes, and only a sum rounds. Loops do this without a branch.

ghost use Rattle.std.specs.Prelude.{◌≡◌, ◌-ℤ◌, ◌%◌, ◌≤◌, ◌<◌, ◌^◌, pos, true, unsigned_abs};
ghost use Rattle.std.specs.Float.{binary32, binary64};
ghost use Rattle.std.specs.Float.Ieee.{of_int};
ghost use Rattle.fixed_word.specs.Format.{InRange, lowest};
ghost use Rattle.fixed_float.specs.Rows.{nearest_float};

use crate::packed::{packed_f32, packed_f64};
use fixed_convert::Castable;
use fixed_word::{RawWord, Valued};
use std::num::{nearest_i64_to_f32, nearest_u64_to_f32};

/// Returns the `f64` nearest to `a / 2^frac`, ties to even.
#[inline]
pub(crate) fn nearest_f64<T: Castable>(a: T, frac: u32) -> f64
    requires { frac ≤ T.BITS }
    ensures { result ≡ nearest_float binary64 (T.value a) frac }
{
    let (number, least) = (above_least(a), T::MIN.magnitude());
    if T::BITS <= 32 {
        held_f64(number, least, frac)
    } else {
        halves_f64(number, least, frac)
    }
}

/// Returns `number - least` over `2^frac`, which an `f64` holds.
#[inline]
pub(crate) fn held_f64(number: u64, least: u64, frac: u32) -> f64
    requires number { number < 2 ^ 32 }
    requires least { least < 2 ^ 32 }
    requires frac { frac ≤ 64 }
    ensures { result ≡ nearest_float binary64 (pos number -ℤ pos least) frac }
{
    packed_f64(number, 0, frac) - packed_f64(least, 0, frac)
}

/// Returns the `f64` nearest to `number - least` over `2^frac`, ties to even. The upper half's difference is exact.
#[inline]
fn halves_f64(number: u64, least: u64, frac: u32) -> f64
    requires least { least ≤ 2 ^ 63 }
    requires halved { least % 2 ^ 32 ≡ 0 }
    requires frac { frac ≤ 64 }
    ensures { result ≡ nearest_float binary64 (pos number -ℤ pos least) frac }
{
    // The lower half is packed above 2^52, which is 2^20 times 2^32.
    let upper = packed_f64(number >> 32, 32, frac);
    let centre = packed_f64((least >> 32) + (1 << 20), 32, frac);
    let lower = packed_f64(number % (1 << 32), 0, frac);
    upper - centre + lower
}

/// Returns the `f32` nearest to `a / 2^frac`, ties to even.
#[inline]
pub(crate) fn nearest_f32<T: Castable>(a: T, frac: u32) -> f32
    requires { frac ≤ T.BITS }
    ensures { result ≡ nearest_float binary32 (T.value a) frac }
{
    let (number, least) = (above_least(a), T::MIN.magnitude());
    if T::BITS <= 16 {
        held_f32(number as u32, least as u32, frac)
    } else if T::BITS <= 32 {
        halves_f32(number as u32, least as u32, frac)
    } else {
        long_f32(a, frac)
    }
}

/// Returns `number - least` over `2^frac`, which an `f32` holds.
#[inline]
fn held_f32(number: u32, least: u32, frac: u32) -> f32
    requires number { number < 2 ^ 16 }
    requires least { least < 2 ^ 16 }
    requires frac { frac ≤ 64 }
    ensures { result ≡ nearest_float binary32 (pos number -ℤ pos least) frac }
{
    packed_f32(number, 0, frac) - packed_f32(least, 0, frac)
}

/// Returns the `f32` nearest to `number - least` over `2^frac`, ties to even. The upper half's difference is exact.
#[inline]
fn halves_f32(number: u32, least: u32, frac: u32) -> f32
    requires least { least ≤ 2 ^ 31 }
    requires halved { least % 2 ^ 16 ≡ 0 }
    requires frac { frac ≤ 64 }
    ensures { result ≡ nearest_float binary32 (pos number -ℤ pos least) frac }
{
    // The lower half is packed above 2^23, which is 2^7 times 2^16.
    let upper = packed_f32(number >> 16, 16, frac);
    let centre = packed_f32((least >> 16) + (1 << 7), 16, frac);
    let lower = packed_f32(number % (1 << 16), 0, frac);
    upper - centre + lower
}

/// Does the same as `nearest_f32` for every word. Only the conversion rounds: the product by a power of two is exact,
/// since no number is as small as the least floats.
#[inline]
fn long_f32<T: Castable>(a: T, frac: u32) -> f32
    requires { frac ≤ T.BITS }
    ensures { result ≡ nearest_float binary32 (T.value a) frac }
{
    whole_f32(a) * f32::from_bits((127 - frac) << 23)
}

/// Returns the `f32` nearest to the value.
#[inline]
fn whole_f32<T: Castable>(a: T) -> f32
    ensures value { result ≡ of_int binary32 (T.value a) }
    ensures in_range { InRange T.SIGNED T.BITS (T.value a) }
{
    if T::SIGNED {
        nearest_i64_to_f32(signed_of(a))
    } else {
        nearest_u64_to_f32(a.magnitude())
    }
}

/// Returns the value of a signed word.
#[inline]
fn signed_of<T: Castable>(a: T) -> i64
    requires { T.SIGNED ≡ true }
    ensures value { result ≡ T.value a }
    ensures in_range { InRange T.SIGNED T.BITS (T.value a) }
{
    a.to_wide() as i64
}

/// Returns by how much the value exceeds the least one of the word.
#[inline]
fn above_least<T: Castable>(a: T) -> u64
    ensures value { pos result ≡ T.value a -ℤ lowest T.SIGNED T.BITS }
    ensures size { result < 2 ^ T.BITS }
{
    (a.to_wide() - T::MIN.to_wide()) as u64
}
