//! Writing the digits of a number in a base of `2^bits`, from the last one on.

ghost use Rattle.std.specs.Prelude.{◌≡◌, ◌+◌, ◌-◌, ◌*◌, ◌/◌, ◌%◌, ◌^◌, ◌<◌, ◌≤◌, ◌++◌, drop, length};
ghost use Rattle.std.specs.Fmt.{digits};
ghost use Rattle.fixed_radix.specs.Bases.{base_text, last_digits};

use crate::bases::glyph;

/// Returns the remainder of a number by `2^bits`.
#[inline]
fn last_digit(number: u128, bits: u32) -> u8
    requires { bits ≤ 4 }
    ensures value { result ≡ number % 2 ^ bits }
    ensures small { result < 16 }
{
    (number % (1 << bits)) as u8
}

/// Writes the last `count` digits of a number so that they end before `end`.
fn put_places(number: u128, bits: u32, upper: bool, count: usize, buffer: &mut [u8], end: usize)
    requires bits { bits ≤ 4 }
    requires room { count ≤ end }
    requires within { end ≤ length buffer.old }
    ensures { drop (end - count) buffer.new ≡ last_digits (2 ^ bits) upper number count ++ drop end buffer.old }
{
    let start = end - count;
    let mut rest = number;
    let mut at = end;
    while at > start {
        at -= 1;
        buffer[at] = glyph(last_digit(rest, bits), upper);
        rest >>= bits;
    }
}

/// Writes the digits of a number, without leading zeros, so that they end before `end`, and returns where they begin.
fn put_whole(number: u64, bits: u32, upper: bool, buffer: &mut [u8], end: usize) -> usize
    requires bits { (1 ≤ bits) × (bits ≤ 4) }
    requires room { 64 ≤ end }
    requires within { end ≤ length buffer.old }
    ensures within { result ≤ end }
    ensures digits { drop result buffer.new ≡ digits (2 ^ bits) upper number ++ drop end buffer.old }
{
    let mut at = end - 1;
    buffer[at] = glyph(last_digit(u128::from(number), bits), upper);
    let mut rest = number >> bits;
    while rest > 0 {
        at -= 1;
        buffer[at] = glyph(last_digit(u128::from(rest), bits), upper);
        rest >>= bits;
    }
    at
}

/// Writes the text of a number in units of `2^-(bits * places)` at the end of the buffer, and returns where it begins.
pub(crate) fn put_number(
    number: u128,
    bits: u32,
    upper: bool,
    places: usize,
    buffer: &mut [u8; 130],
) -> usize
    requires bits { (1 ≤ bits) × (bits ≤ 4) }
    requires places { places ≤ 64 }
    requires whole { number / 2 ^ (bits * places) < 2 ^ 64 }
    requires shift { bits * places < 128 }
    ensures within { result ≤ 130 }
    ensures text { drop result buffer.new ≡ base_text (2 ^ bits) upper number places }
{
    if places == 0 {
        return put_whole(number as u64, bits, upper, buffer, 130);
    }
    put_places(number, bits, upper, places, buffer, 130);
    let point = 129 - places;
    buffer[point] = b'.';
    let whole = number >> (bits * places as u32);
    put_whole(whole as u64, bits, upper, buffer, point)
}
