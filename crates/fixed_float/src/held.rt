//! Conversions of floats to the nearest word.

ghost use Rattle.std.specs.Prelude.{◌≡◌, ◌<◌, ◌≤◌, Bool, Some, false, if◌then◌else◌};
ghost use Rattle.std.specs.Float.{NotNan, inf};
ghost use Rattle.std.specs.Float.Ieee.{lt};
ghost use Rattle.fixed_word.specs.Format.{clamp, highest, lowest, with_sign};
ghost use Rattle.fixed_word.specs.declared.rounding.Rounding.TheVariants.{Even};
ghost use Rattle.fixed_float.specs.Rows.{saturated_float};

use crate::binary::Binary;
use crate::incoming::magnitude_of_parts;
use crate::near::{beyond_of, bits_of_sum, bits_of_sums, larger, least_of};
use crate::nearest::held_f64;
use crate::parts::parts_of;
use fixed_word::{RawWord, Rounding};

/// Returns the float in units of `2^-frac`, rounded as named, or the nearest word if that does not fit. An infinity
/// returns the end of the range on its side. Precondition: the float is not a NaN.
#[inline]
pub fn saturating_float_of<X: Binary, T: RawWord>(x: X, frac: u32, rounding: Rounding) -> T
    requires { NotNan (X.float x) }
    ensures { Some (T.value result)
        ≡ saturated_float T.SIGNED T.BITS (X.float x) frac rounding }
{
    let wide = x.widened();
    match rounding {
        Rounding::Even if frac <= 64 && T::BITS <= 32 => even_held(wide, frac),
        _ => wide_held(wide, frac, rounding),
    }
}

/// Does the same for every `f64`: of words of 64 bits by two sums. Precondition: it is not a NaN.
#[inline]
fn wide_held<T: RawWord>(x: f64, frac: u32, rounding: Rounding) -> T
    requires { NotNan x }
    ensures { Some (T.value result) ≡ saturated_float T.SIGNED T.BITS x frac rounding }
{
    match rounding {
        Rounding::Even if frac <= 64 && T::BITS > 32 => long_held(x, frac),
        _ => held_by_parts(x, frac, rounding),
    }
}

/// Does the same for every `f64`, of words of at most 32 bits, by a sum. Loops do this without a branch. Preconditions:
/// it is not a NaN, and `frac` is at most 64.
#[inline]
fn even_held<T: RawWord>(x: f64, frac: u32) -> T
    requires number { NotNan x }
    requires narrow { T.BITS ≤ 32 }
    requires frac { frac ≤ 64 }
    ensures { Some (T.value result) ≡ saturated_float T.SIGNED T.BITS x frac Even }
{
    let least = held_f64(0, T::MIN.magnitude(), frac);
    let most = held_f64(T::MAX.magnitude(), 0, frac);
    let held = clamped(x, least, most);
    // The lowest 32 bits of the centre's are 0.
    T::residue(false, bits_of_sum(held, frac) as u128)
}

/// Returns the number nearest to `x` from `least` to `most`. Precondition: `most` is not below `least`.
#[inline]
fn clamped(x: f64, least: f64, most: f64) -> f64
    requires { lt most least ≡ false }
    ensures { result ≡ (if lt x least then least else (if lt most x then most else x)) }
{
    smaller(larger(x, least), most)
}

/// Returns the smaller float.
#[inline]
fn smaller(x: f64, y: f64) -> f64
    ensures { result ≡ (if lt y x then y else x) }
{
    if y < x { y } else { x }
}

/// Does the same for every `f64`, of words of 64 bits, by two sums. Preconditions: it is not a NaN, and `frac` is at
/// most 64.
#[inline]
fn long_held<T: RawWord>(x: f64, frac: u32) -> T
    requires number { NotNan x }
    requires long { 32 < T.BITS }
    requires frac { frac ≤ 64 }
    ensures { Some (T.value result) ≡ saturated_float T.SIGNED T.BITS x frac Even }
{
    let (least, beyond) = (least_of::<T>(frac), beyond_of::<T>(frac));
    if (least <= x) & (x < beyond) {
        T::residue(false, bits_of_sums(x, frac) as u128)
    } else {
        end_on(x < least)
    }
}

/// Does the same for every `f64`, by its bits. Precondition: it is not a NaN.
#[inline]
fn held_by_parts<T: RawWord>(x: f64, frac: u32, rounding: Rounding) -> T
    requires { NotNan x }
    ensures { Some (T.value result) ≡ saturated_float T.SIGNED T.BITS x frac rounding }
{
    match parts_of(x) {
        Some(parts) => magnitude_held(parts.below_zero, magnitude_of_parts(parts, frac, rounding)),
        None => end_beside(x),
    }
}

/// Returns the number of the word that is nearest to the magnitude with that sign. A branch on the sign would be slow.
#[inline]
fn magnitude_held<T: RawWord>(below_zero: bool, magnitude: u128) -> T
    ensures { T.value result ≡ clamp T.SIGNED T.BITS (with_sign below_zero magnitude) }
{
    let end: T = end_on(below_zero);
    let past = magnitude > end.magnitude() as u128;
    T::residue(below_zero, magnitude).unless(past, end)
}

/// Returns the end of the range on the side of an infinity.
#[inline]
fn end_beside<T: RawWord>(x: f64) -> T
    ensures { (s : Bool) → x ≡ inf s → T.value result
        ≡ (if s then lowest T.SIGNED T.BITS else highest T.SIGNED T.BITS) }
{
    end_on(x < 0.0)
}

/// Returns the lower end of the range if `below_zero`, and otherwise the upper end.
#[inline]
pub(crate) fn end_on<T: RawWord>(below_zero: bool) -> T
    ensures { T.value result
        ≡ (if below_zero then lowest T.SIGNED T.BITS else highest T.SIGNED T.BITS) }
{
    if below_zero { T::MIN } else { T::MAX }
}
