//! The form of decimals, and the numbers that their digits write.

ghost use Rattle.std.specs.Prelude.{◌≡◌, ◌≤◌, ◌<◌, ◌+◌, ◌-◌, ◌^◌, IfSome, length, drop, take, true};
ghost use Rattle.std.specs.Char.{is_ascii_digit};
ghost use Rattle.std.specs.List.{list_all, prefix_len};
ghost use Rattle.std.specs.Str.Parse.{digits_value, digits_value_after, starts_with_minus, without_leading_sign};
ghost use Rattle.fixed_decimal.specs.inside.Reading.{IsPoint, IsShort, part_end};

use crate::error::DecimalError;

/// Digits are read and written in parts of at most this length, each as one number.
pub const PART: usize = 18;

/// Returns whether the text begins with a minus, and the bytes after its sign, if it has one.
#[inline]
pub const fn sign_of(text: &[u8]) -> (bool, &[u8])
    ensures minus { result.0 ≡ starts_with_minus text.now }
    ensures rest { result.1.now ≡ without_leading_sign text.now }
    ensures length { length result.1.now ≤ length text.now }
{
    match text {
        [b'-', rest @ ..] => (true, rest),
        [b'+', rest @ ..] => (false, rest),
        _ => (false, text),
    }
}

/// Returns where the run of digits from `from` on ends.
#[inline]
const fn digits_end(bytes: &[u8], from: usize) -> usize
    requires { from ≤ length bytes.now }
    ensures end { result ≡ from + prefix_len is_ascii_digit (drop from bytes.now) }
    ensures within { result ≤ length bytes.now }
{
    let mut at = from;
    while at < bytes.len() && bytes[at].is_ascii_digit() {
        at += 1;
    }
    at
}

/// Returns where the digits after a point at `at` end, or `at` if no point is there.
#[inline]
const fn part_end(bytes: &[u8], at: usize) -> usize
    requires { at ≤ length bytes.now }
    ensures end { result ≡ part_end bytes.now at }
    ensures from { at ≤ result }
    ensures within { result ≤ length bytes.now }
{
    if at < bytes.len() && bytes[at] == b'.' {
        digits_end(bytes, at + 1)
    } else {
        at
    }
}

/// Returns where the point is, or where the digits end if there is no point. Fails if the bytes are not an unsigned
/// decimal. An invalid digit is reported by its index, counted with the `before` bytes that precede these.
#[inline]
pub const fn point_of(bytes: &[u8], before: usize) -> Result<usize, DecimalError>
    requires { before + length bytes.now < 2 ^ 64 }
    ensures { IsPoint before bytes.now result }
{
    let point = digits_end(bytes, 0);
    let end = part_end(bytes, point);
    if end < bytes.len() {
        if bytes[end] == b'.' {
            Err(DecimalError::TooManyPoints)
        } else {
            Err(DecimalError::InvalidDigit(before + end))
        }
    } else if end == (end > point) as usize {
        Err(DecimalError::NoDigits)
    } else {
        Ok(point)
    }
}

/// Reads the digits from `from` on, which continue the number `before`. Returns the number of all digits, and where
/// they end.
#[inline]
const fn run_from(bytes: &[u8], from: usize, before: u64) -> (u64, usize)
    requires from { from ≤ length bytes.now }
    requires room { length bytes.now ≤ 18 }
    requires before { before < 10 ^ from }
    ensures end { result.1 ≡ from + prefix_len is_ascii_digit (drop from bytes.now) }
    ensures within { result.1 ≤ length bytes.now }
    ensures small { result.0 < 10 ^ result.1 }
    ensures value { result.0 ≡ digits_value_after 10 before (take (result.1 - from) (drop from bytes.now)) }
{
    let mut value = before;
    let mut at = from;
    while at < bytes.len() && bytes[at].is_ascii_digit() {
        value = value * 10 + (bytes[at] - b'0') as u64;
        at += 1;
    }
    (value, at)
}

/// Reads an unsigned decimal of at most 18 bytes in one pass. Returns the number that all its digits write, and how
/// many of them follow the point. `None` decides nothing: the general path reads the bytes.
#[inline]
pub const fn short_decimal(bytes: &[u8]) -> Option<(u64, usize)>
    ensures { IfSome result (λ found. IsShort bytes.now found.0 found.1) }
{
    if bytes.len() > PART {
        return None;
    }
    let (whole, point) = run_from(bytes, 0, 0);
    if point == bytes.len() {
        return if point > 0 { Some((whole, 0)) } else { None };
    }
    if bytes[point] != b'.' {
        return None;
    }
    let (value, end) = run_from(bytes, point + 1, whole);
    if end < bytes.len() || end < 2 {
        return None;
    }
    Some((value, end - point - 1))
}

/// Returns the number that the `count` digits from `from` on write. Precondition: these are digits, and at most 18.
#[inline]
pub const fn value_of(bytes: &[u8], from: usize, count: usize) -> u64
    requires within { from + count ≤ length bytes.now }
    requires digits { list_all is_ascii_digit (take count (drop from bytes.now)) ≡ true }
    requires room { count ≤ 18 }
    ensures { result ≡ digits_value 10 (take count (drop from bytes.now)) }
{
    let mut value = 0;
    let mut at = 0;
    while at < count {
        value = value * 10 + (bytes[from + at] - b'0') as u64;
        at += 1;
    }
    value
}
