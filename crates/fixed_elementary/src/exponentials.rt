//! Powers of 2 with a fractional exponent: one product for each eight binary digits of the exponent, or on words of 64
//! bits for each four.

ghost use Rattle.std.specs.Prelude.{◌≡◌, ◌≤◌, ◌<◌, ◌+◌, ◌-◌, ◌*◌, ◌/◌, ◌%◌, ◌^◌, ◌+ℤ◌, ℕ, ℤ, IsTrue, pos, min};
ghost use Rattle.fixed_word.specs.Format.{with_sign};
ghost use Rattle.fixed_elementary.specs.Exp2.{IsExp2Of, IsExp2Up, StandsUpTo, exp2_room};
ghost use Rattle.fixed_elementary.specs.inside.Power.{IsExponent, IsFloored, IsPart, IsWithin};

use crate::logarithms::in_units;
use crate::powers_of_two::{broad_factor, narrow_factor};
use crate::reciprocals::power_of_two;
use crate::wide::{high, product};
use fixed_word::{Outcome, RawWord, Valued, outcome_of_magnitude};

/// Half the natural logarithm of 2, in units of `2^-64`, rounded down.
const HALF_LOG_2: u64 = 0x58b9_0bfb_e8e7_bcd5;

/// How many units of `2^-62` a power may lack that is computed in 64 bits.
const NEAR_LACK: u64 = 24;

/// Returns the product in units of `2^-62`, rounded down.
#[inline(always)]
fn narrow_product(a: u64, b: u64) -> u64
    requires a { 2 ^ 62 ≤ a }
    requires a_most { a < 2 ^ 63 }
    requires b { 2 ^ 62 ≤ b }
    requires b_most { b ≤ 2 ^ 63 }
    ensures { IsFloored (2 ^ 62) a b result }
{
    ((u128::from(a) * u128::from(b)) >> 62) as u64
}

/// Returns the product in units of `2^-126`, rounded down.
#[inline]
fn broad_product(a: u128, b: u128) -> u128
    requires a { 2 ^ 126 ≤ a }
    requires a_most { a < 2 ^ 127 }
    requires b { 2 ^ 126 ≤ b }
    requires b_most { b ≤ 2 ^ 127 }
    ensures { IsFloored (2 ^ 126) a b result }
{
    let double = product(a, b);
    4 * double.high + double.low / (1 << 126)
}

/// Returns a group of eight binary digits of a number. Group 0 is the last eight.
#[inline(always)]
fn narrow_digits(number: u64, group: u32) -> u64
    requires { group < 8 }
    ensures { result ≡ number / 2 ^ (8 * group) % 256 }
{
    (number >> (8 * group)) % 256
}

/// Returns a group of four binary digits of a number. Group 0 is the last four.
#[inline]
fn broad_digits(number: u64, group: u32) -> u64
    requires { group < 16 }
    ensures { result ≡ number / 2 ^ (4 * group) % 16 }
{
    (number >> (4 * group)) % 16
}

/// Returns the power after eight more digits of the exponent, in units of `2^-62`.
#[inline(always)]
fn narrow_turn(power: u64, digits: u64, group: u32) -> u64
    requires group { group < 4 }
    requires digits { digits < 256 }
    requires least { 2 ^ 62 ≤ power }
    requires most { power < 2 ^ 63 }
    ensures { (n z : ℕ) → IsPart (2 ^ 62) (8 * group) n z power
        → IsPart (2 ^ 62) (8 * group + 8) (n + 2) (256 * z + digits) result }
{
    narrow_product(power, narrow_factor(digits, group))
}

/// Returns the power after four more digits of the exponent, in units of `2^-126`.
#[inline]
fn broad_turn(power: u128, digits: u64, group: u32) -> u128
    requires group { group < 16 }
    requires digits { digits < 16 }
    requires least { 2 ^ 126 ≤ power }
    requires most { power < 2 ^ 127 }
    ensures { (n z : ℕ) → IsPart (2 ^ 126) (4 * group) n z power
        → IsPart (2 ^ 126) (4 * group + 4) (n + 13) (16 * z + digits) result }
{
    broad_product(power, broad_factor(digits, group))
}

/// Returns `2^(part / 256^groups)` in units of `2^-62`, or slightly less.
#[inline(always)]
fn narrow_exp2(part: u64, groups: u32) -> u64
    requires groups { groups ≤ 4 }
    requires part { part < 2 ^ (8 * groups) }
    ensures { IsPart (2 ^ 62) (8 * groups) (2 * groups) part result }
{
    let mut power = 1 << 62;
    for i in 0..groups {
        power = narrow_turn(power, narrow_digits(part, groups - 1 - i), i);
    }
    power
}

/// Returns `2^(part / 16^groups)` in units of `2^-126`, or slightly less.
fn broad_exp2(part: u64, groups: u32) -> u128
    requires groups { groups ≤ 16 }
    requires part { part < 2 ^ (4 * groups) }
    ensures { IsPart (2 ^ 126) (4 * groups) (13 * groups) part result }
{
    let mut power = 1 << 126;
    for i in 0..groups {
        power = broad_turn(power, broad_digits(part, groups - 1 - i), i);
    }
    power
}

/// Returns `mantissa * 2^whole / 2^62`, rounded down, or `2^bits` if that is less.
#[inline(always)]
fn narrow_in_bits(mantissa: u64, whole: u128, bits: u32) -> u64
    requires bits { bits ≤ 32 }
    requires least { 2 ^ 62 ≤ mantissa }
    requires most { mantissa < 2 * 2 ^ 62 }
    ensures { result ≡ min (mantissa * 2 ^ whole / 2 ^ 62) (2 ^ bits) }
{
    if whole < u128::from(bits) {
        mantissa >> (62 - whole as u32)
    } else {
        1 << bits
    }
}

/// Returns `mantissa * 2^whole / 2^126`, rounded down, or `2^bits` if that is less.
fn broad_in_bits(mantissa: u128, whole: u128, bits: u32) -> u128
    requires bits { bits ≤ 64 }
    requires least { 2 ^ 126 ≤ mantissa }
    requires most { mantissa < 2 * 2 ^ 126 }
    ensures { result ≡ min (mantissa * 2 ^ whole / 2 ^ 126) (2 ^ bits) }
{
    if whole < u128::from(bits) {
        mantissa >> (126 - whole as u32)
    } else {
        power_of_two(bits)
    }
}

/// Returns how many groups of eight digits have these digits.
#[inline(always)]
fn narrow_groups(places: u32) -> u32
    requires { places ≤ 64 }
    ensures least { places ≤ 8 * result }
    ensures most { 8 * result < places + 8 }
{
    places.div_ceil(8)
}

/// Returns how many groups of four digits have these digits.
fn broad_groups(places: u32) -> u32
    requires { places ≤ 64 }
    ensures least { places ≤ 4 * result }
    ensures most { 4 * result < places + 4 }
{
    places.div_ceil(4)
}

/// Returns the fraction of an exponent, converted from units of `2^-places` to units of `2^-digits`.
#[inline(always)]
fn part_of(exponent: u128, places: u32, digits: u32) -> u64
    requires places { places ≤ digits }
    requires digits { digits ≤ 64 }
    ensures digits { result < 2 ^ digits }
    ensures value { result ≡ exponent % 2 ^ places * 2 ^ (digits - places) }
{
    ((exponent % (1 << places)) << (digits - places)) as u64
}

/// Returns `2^(exponent / 2^places)`, rounded down from a mantissa of 63 bits, at most `2^bits`.
#[inline(always)]
fn narrow_power(exponent: u128, places: u32, bits: u32) -> u64
    requires bits { bits ≤ 32 }
    requires places { places ≤ bits }
    ensures { (r : ℕ) × IsExp2Up 54 exponent places r × (result ≡ min r (2 ^ bits)) }
{
    let groups = narrow_groups(places);
    let mantissa = narrow_exp2(part_of(exponent, places, 8 * groups), groups);
    narrow_in_bits(mantissa, exponent >> places, bits)
}

/// Does the same from a mantissa of 127 bits.
#[inline(never)]
fn broad_power(exponent: u128, places: u32, bits: u32) -> u128
    requires bits { bits ≤ 64 }
    requires places { places ≤ bits }
    ensures { (r : ℕ) × IsExp2Up 117 exponent places r × (result ≡ min r (2 ^ bits)) }
{
    let groups = broad_groups(places);
    let mantissa = broad_exp2(part_of(exponent, places, 4 * groups), groups);
    broad_in_bits(mantissa, exponent >> places, bits)
}

/// Returns `2^(part / 2^64)` in units of `2^-62`, or at most 24 units less. The last 32 digits need one product, since
/// their power is little above 1.
#[inline(always)]
fn near_exp2(part: u64) -> u64
    ensures near { IsWithin (2 ^ 62) 64 24 part result }
    ensures most { result < 3 * 2 ^ 62 }
{
    let power = narrow_exp2(part >> 32, 4);
    let rest = high(part % (1 << 32), HALF_LOG_2);
    power + high(2 * power, rest)
}

/// Returns whether all numbers from `low` to 24 more have the same digits before the last `shift`.
#[inline(always)]
fn is_closed(low: u64, shift: u32) -> bool
    requires low { low < 3 * 2 ^ 62 }
    requires shift { shift < 64 }
    ensures { IsTrue result → low + 24 < (low / 2 ^ shift + 1) * 2 ^ shift }
{
    (low + NEAR_LACK) >> shift == low >> shift
}

/// Returns `2^(exponent / 2^places)`, rounded as by `broad_power`, at most `2^bits`. It is computed from a mantissa of 63
/// bits, and from one of 127 bits where that leaves a digit open.
#[inline(always)]
fn either_power(exponent: u128, places: u32, bits: u32) -> u128
    requires bits { bits ≤ 64 }
    requires places { places ≤ bits }
    ensures { (r : ℕ) × IsExp2Up 117 exponent places r × (result ≡ min r (2 ^ bits)) }
{
    let whole = exponent >> places;
    if whole >= u128::from(bits) {
        return power_of_two(bits);
    }
    let low = near_exp2(part_of(exponent, places, 64));
    if whole < 62 {
        let shift = 62 - whole as u32;
        if is_closed(low, shift) {
            return u128::from(low >> shift);
        }
    }
    broad_power(exponent, places, bits)
}

/// Returns `2^(exponent / 2^places)`, rounded as by `exp2_of`, at most `2^bits`. Precondition: `places <= bits <= 64`.
#[inline(always)]
pub fn power_of(exponent: u128, places: u32, bits: u32) -> u128
    requires bits { bits ≤ 64 }
    requires places { places ≤ bits }
    ensures { (r : ℕ) × IsExp2Up (exp2_room bits) exponent places r × (result ≡ min r (2 ^ bits)) }
{
    if bits <= 32 {
        u128::from(narrow_power(exponent, places, bits))
    } else {
        either_power(exponent, places, bits)
    }
}

/// Returns the exponent of a power in units of `2^-frac`, or `None` if it is below 0, so that the power is less than a
/// unit. Each branch asks for the magnitude anew: where the sign is known, it compiles to a sum with no branch on it.
#[inline(always)]
fn exponent_of<T: RawWord>(a: T, frac: u32) -> Option<u128>
    requires { frac ≤ 64 }
    ensures { IsExponent (T.value a +ℤ pos (frac * 2 ^ frac)) result }
{
    let units = in_units(frac);
    if !a.is_below_zero() {
        Some(units + u128::from(a.magnitude()))
    } else if units < u128::from(a.magnitude()) {
        None
    } else {
        Some(units - u128::from(a.magnitude()))
    }
}

/// Returns 2 to the power of `a 2^-frac`, in units of `2^-frac`. For the result r and the exact power p in units,
/// `r <= p < (r + 1) 2^(2^-k)`, where k is 54 on words of up to 32 bits and 117 on words of 64 bits. 2 to the power of
/// a whole number of at least `-frac` is exact. If the result is above the range, the outcome stands for some number
/// above the range. Precondition: `frac` is at most the width.
#[inline(always)]
pub fn exp2_of<T: RawWord>(a: T, frac: u32) -> Outcome<T>
    requires { frac ≤ T.BITS }
    ensures { (r : ℤ) × IsExp2Of (exp2_room T.BITS) (T.value a) frac r
        × StandsUpTo T.value T.SIGNED T.BITS r result }
{
    match exponent_of(a, frac) {
        Some(exponent) => outcome_of_magnitude(false, power_of(exponent, frac, T::BITS)),
        None => outcome_of_magnitude(false, 0),
    }
}
