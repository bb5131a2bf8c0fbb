//! Writing a number with a given number of digits after the point.

ghost use Rattle.std.specs.Prelude.{◌≡◌, ◌+◌, ◌-◌, ◌*◌, ◌/◌, ◌^◌, ◌<◌, ◌≤◌, ◌++◌, drop, length};
ghost use Rattle.fixed_decimal.specs.Text.{magnitude_text, places_text, text_of};
ghost use Rattle.fixed_decimal.specs.inside.Stepped.{stepped};

use crate::halves::{low_bits, rounded_halves};
use crate::numeral::PART;
use crate::tens::ten_to;
use fixed_digits::decimal_before;
use fixed_word::{RawWord, Rounding};

/// Writes the text of a number in units of `2^-frac`, rounded as named to `places` digits after the point, at the end
/// of the buffer, and returns where it begins. The text of a number below 0 begins with a minus, even if the number is
/// rounded to 0. No text is longer than a minus, 20 digits, a point and 64 digits. Preconditions: `frac` is at most the
/// width, and `places` is at most 64.
pub fn write_decimal<T: RawWord>(
    number: T,
    frac: u32,
    places: usize,
    rounding: Rounding,
    buffer: &mut [u8; 86],
) -> usize
    requires frac { frac ≤ T.BITS }
    requires places { places ≤ 64 }
    ensures within { result ≤ 86 }
    ensures text { drop result buffer.new ≡ text_of (T.value number) frac places rounding }
{
    let below_zero = number.is_below_zero();
    let start = write_magnitude(
        number.magnitude(),
        frac,
        places,
        below_zero,
        rounding,
        buffer,
    );
    if below_zero {
        buffer[start - 1] = b'-';
        start - 1
    } else {
        start
    }
}

/// Writes the text of a magnitude, rounded as named, and returns where it begins. The number is negative if
/// `below_zero`.
fn write_magnitude(
    magnitude: u64,
    frac: u32,
    places: usize,
    below_zero: bool,
    rounding: Rounding,
    buffer: &mut [u8; 86],
) -> usize
    requires frac { frac ≤ 64 }
    requires places { places ≤ 64 }
    ensures within { (1 ≤ result) × (result ≤ 86) }
    ensures text { drop result buffer.new
        ≡ magnitude_text (stepped rounding below_zero (magnitude * 10 ^ places) (2 ^ frac)) places }
{
    let units = u128::from(magnitude);
    if places == 0 {
        let rest = low_bits(2 * units, frac) != 0;
        let number = rounded_halves((2 * units) >> frac, rest, below_zero, rounding);
        return decimal_before(number as u64, buffer, 86);
    }
    let part = low_bits(units, frac);
    let carry = put_part(part, frac, places, below_zero, rounding, buffer, 86);
    let point = 86 - places - 1;
    buffer[point] = b'.';
    decimal_before((units >> frac) as u64 + carry, buffer, point)
}

/// Writes `places` digits of a number below 1, in units of `2^-frac`, rounded as named, so that they end before `end`.
/// Returns the carry: 1 if the number is rounded to 1, and otherwise 0. The byte before the digits is overwritten.
fn put_part(
    part: u128,
    frac: u32,
    places: usize,
    below_zero: bool,
    rounding: Rounding,
    buffer: &mut [u8],
    end: usize,
) -> u64
    requires part { part < 2 ^ frac }
    requires frac { frac ≤ 64 }
    requires places { (1 ≤ places) × (places + 21 ≤ end) }
    requires within { end ≤ length buffer.old }
    ensures carry { result ≡ stepped rounding below_zero (part * 10 ^ places) (2 ^ frac) / 10 ^ places }
    ensures digits { drop (end - places) buffer.new
        ≡ places_text (stepped rounding below_zero (part * 10 ^ places) (2 ^ frac)) places ++ drop end buffer.old }
{
    if places <= PART {
        let scaled = part * u128::from(ten_to(places));
        let rest = low_bits(2 * scaled, frac) != 0;
        let number = rounded_halves((2 * scaled) >> frac, rest, below_zero, rounding);
        return put_digits(number as u64, places, buffer, end);
    }
    let scaled = part * u128::from(ten_to(PART));
    let part = low_bits(scaled, frac);
    let more = put_part(part, frac, places - PART, below_zero, rounding, buffer, end);
    put_digits(
        (scaled >> frac) as u64 + more,
        PART,
        buffer,
        end - (places - PART),
    )
}

/// Writes the last `count` digits of a number so that they end before `end`, and returns the number that the digits
/// before these write. The byte before the digits is overwritten.
#[inline]
fn put_digits(number: u64, count: usize, buffer: &mut [u8], end: usize) -> u64
    requires count { count ≤ 18 }
    requires room { 20 ≤ end }
    requires within { end ≤ length buffer.old }
    ensures front { result ≡ number / 10 ^ count }
    ensures digits { drop (end - count) buffer.new ≡ places_text number count ++ drop end buffer.old }
{
    let tens = ten_to(count);
    decimal_before(tens + number % tens, buffer, end);
    number / tens
}
