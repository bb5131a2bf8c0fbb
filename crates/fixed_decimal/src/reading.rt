//! Reading the number of a decimal, in units of a format.

ghost use Rattle.std.specs.Prelude.{◌≡◌, ◌==◌, ◌+◌, ◌*◌, ◌/◌, ◌%◌, ◌^◌, ◌<◌, ◌≤◌, drop, length, min, not, take, true, None};
ghost use Rattle.std.specs.Char.{is_ascii_digit};
ghost use Rattle.std.specs.List.{list_all};
ghost use Rattle.std.specs.Str.Parse.{digits_value, without_leading_sign};
ghost use Rattle.fixed_decimal.specs.Decimal.{decimal_row, exact_row, fault_in, is_exact_in};
ghost use Rattle.fixed_decimal.specs.Rows.{IsOutcomeOf};
ghost use Rattle.fixed_decimal.specs.inside.Reading.{IsReadAs, held};
ghost use Rattle.fixed_decimal.specs.inside.Stepped.{stepped};

use crate::error::DecimalError;
use crate::halves::rounded_halves;
use crate::numeral::{PART, point_of, short_decimal, sign_of, value_of};
use crate::tens::ten_to;
use fixed_word::{Outcome, RawWord, Rounding, outcome_of_magnitude};

/// Returns the outcome of the number of a decimal in units of `2^-frac`, rounded as named. Fails if the text is not a
/// decimal. Precondition: `frac` is at most the width.
pub fn decimal_of<T: RawWord>(
    text: &[u8],
    frac: u32,
    rounding: Rounding,
) -> Result<Outcome<T>, DecimalError>
    requires { frac ≤ T.BITS }
    ensures { IsOutcomeOf T.value T.SIGNED T.BITS (decimal_row text.now frac rounding) result }
{
    match magnitude_of(text, frac, rounding) {
        Ok((below_zero, magnitude)) => Ok(outcome_of_magnitude(below_zero, magnitude)),
        Err(error) => Err(error),
    }
}

/// Returns the sign and the magnitude of the number of a decimal in units of `2^-frac`, rounded as named. A magnitude
/// of `2^64` or more may be another such number with the same lowest 64 bits.
#[inline(always)]
pub(crate) const fn magnitude_of(
    text: &[u8],
    frac: u32,
    rounding: Rounding,
) -> Result<(bool, u128), DecimalError>
    requires { frac ≤ 64 }
    ensures { IsReadAs (decimal_row text.now frac rounding) result }
{
    let (below_zero, bytes) = sign_of(text);
    if let Some((value, places)) = short_decimal(bytes) {
        let magnitude = rounded_quotient(value, ten_to(places), frac, below_zero, rounding);
        return Ok((below_zero, magnitude));
    }
    match point_of(bytes, text.len() - bytes.len()) {
        Ok(point) => {
            let whole = units_of(bytes, point, frac);
            let (halves, rest) = halves_of(bytes, smaller(point + 1, bytes.len()), frac);
            let magnitude = rounded_halves(2 * whole + halves, rest, below_zero, rounding);
            Ok((below_zero, magnitude))
        }
        Err(error) => Err(error),
    }
}

/// Returns `value / by` in units of `2^-frac`, rounded as named. The quotient is negative if `below_zero`. Numbers of at
/// most 64 bits stay in 64 bits up to the end, which is faster.
#[inline(always)]
const fn rounded_quotient(
    value: u64,
    by: u64,
    frac: u32,
    below_zero: bool,
    rounding: Rounding,
) -> u128
    requires value { value < 2 ^ 60 }
    requires by { 0 < by }
    requires frac { frac ≤ 64 }
    ensures { result ≡ stepped rounding below_zero (value * 2 ^ frac) by }
{
    if frac < 63 && value < 1 << (63 - frac) {
        let twice = value << (frac + 1);
        rounded_halves((twice / by) as u128, twice % by != 0, below_zero, rounding)
    } else {
        let (halves, rest) = divided((value as u128) << (frac + 1), by);
        rounded_halves(halves, rest, below_zero, rounding)
    }
}

/// Returns the outcome of the number of a decimal in units of `2^-frac`. Fails if the text is not a decimal, or if its
/// number is not a whole number of units. Precondition: `frac` is at most the width.
pub fn exact_decimal_of<T: RawWord>(text: &[u8], frac: u32) -> Result<Outcome<T>, DecimalError>
    requires { frac ≤ T.BITS }
    ensures { IsOutcomeOf T.value T.SIGNED T.BITS (exact_row text.now frac) result }
{
    match decimal_of(text, frac, Rounding::Zero) {
        Ok(outcome) => {
            if is_exact(text, frac) {
                Ok(outcome)
            } else {
                Err(DecimalError::Inexact)
            }
        }
        Err(error) => Err(error),
    }
}

/// Returns whether the number of a decimal is a whole number of units of `2^-frac`. Of other texts, the result says
/// nothing.
#[inline]
const fn is_exact(text: &[u8], frac: u32) -> bool
    requires { frac ≤ 64 }
    ensures { fault_in text.now ≡ None → result ≡ is_exact_in (without_leading_sign text.now) frac }
{
    let bytes = sign_of(text).1;
    match point_of(bytes, text.len() - bytes.len()) {
        Ok(point) => {
            let (halves, rest) = halves_of(bytes, smaller(point + 1, bytes.len()), frac);
            halves % 2 == 0 && !rest
        }
        Err(_) => false,
    }
}

/// Returns the number if it is below `2^64`, and otherwise a number of at least `2^64` with the same lowest 64 bits.
#[inline]
const fn fold(number: u128) -> u128
    ensures { result ≡ held number }
{
    if number < 1 << 64 {
        number
    } else {
        (1 << 64) + number % (1 << 64)
    }
}

/// Returns the smaller of two counts.
#[inline]
const fn smaller(a: usize, b: usize) -> usize
    ensures { result ≡ min a b }
{
    if a < b { a } else { b }
}

/// Returns the number that the digits before the point write, times `2^frac`. If that is `2^64` or more, returns a
/// number of at least `2^64` with the same lowest 64 bits.
#[inline]
const fn units_of(bytes: &[u8], point: usize, frac: u32) -> u128
    requires within { point ≤ length bytes.now }
    requires digits { list_all is_ascii_digit (take point bytes.now) ≡ true }
    requires frac { frac ≤ 64 }
    ensures { result ≡ held (digits_value 10 (take point bytes.now) * 2 ^ frac) }
{
    let mut units = 0;
    let mut start = 0;
    while start < point {
        let count = smaller(point - start, PART);
        let more = (value_of(bytes, start, count) as u128) << frac;
        units = fold(units * ten_to(count) as u128 + more);
        start += count;
    }
    units
}

/// Returns twice the fraction that the digits from `from` on write after the point, times `2^frac`, rounded down, and
/// whether that leaves a rest. The digits are read from the last one on, so that each one counts.
#[inline]
const fn halves_of(bytes: &[u8], from: usize, frac: u32) -> (u128, bool)
    requires within { from ≤ length bytes.now }
    requires digits { list_all is_ascii_digit (drop from bytes.now) ≡ true }
    requires frac { frac ≤ 64 }
    ensures halves { result.0 ≡ 2 * (digits_value 10 (drop from bytes.now) * 2 ^ frac) / 10 ^ length (drop from bytes.now) }
    ensures rest { result.1 ≡ not (2 * (digits_value 10 (drop from bytes.now) * 2 ^ frac) % 10 ^ length (drop from bytes.now) == 0) }
    ensures small { result.0 ≤ 2 ^ 65 }
{
    let mut halves = 0;
    let mut rest = false;
    let mut end = bytes.len() - from;
    while end > 0 {
        let count = smaller(end, PART);
        end -= count;
        let number = ((value_of(bytes, from + end, count) as u128) << (frac + 1)) + halves;
        let (quotient, left) = divided(number, ten_to(count));
        halves = quotient;
        rest = rest || left;
    }
    (halves, rest)
}

/// Returns the quotient, rounded down, and whether there is a remainder. A number of at most 64 bits is divided in 64
/// bits, since a division of 128 bits takes many times as long.
#[inline]
const fn divided(number: u128, by: u64) -> (u128, bool)
    requires { 0 < by }
    ensures quotient { result.0 ≡ number / by }
    ensures rest { result.1 ≡ not (number % by == 0) }
{
    if number < 1 << 64 {
        let number = number as u64;
        ((number / by) as u128, number % by != 0)
    } else {
        let by = by as u128;
        let quotient = number / by;
        (quotient, number - quotient * by != 0)
    }
}
