//! Computations by sign and magnitude, and by magnitude alone.

ghost use Rattle.std.specs.Prelude.{◌≡◌, ◌+◌, ◌<◌, ◌≤◌, ◌*◌, ◌^◌, ◌-ℤ◌, unsigned_abs};
ghost use Rattle.fixed_word.specs.Format.{InRange};
ghost use Rattle.fixed_num.specs.inside.Powers.{IsHighestPower};

use fixed_word::RawWord;

/// Returns the distance between two words.
pub(crate) fn distance<T: RawWord>(a: T, b: T) -> u64
    ensures value { result ≡ unsigned_abs (T.value a -ℤ T.value b) }
    ensures a_in_range { InRange T.SIGNED T.BITS (T.value a) }
    ensures b_in_range { InRange T.SIGNED T.BITS (T.value b) }
{
    if a.is_below_zero() == b.is_below_zero() {
        a.magnitude().abs_diff(b.magnitude())
    } else {
        a.magnitude() + b.magnitude()
    }
}

/// Returns the smallest m with `magnitude < 2^m`.
pub(crate) fn bit_length(magnitude: u64) -> u32
    ensures below { magnitude < 2 ^ result }
    ensures least { 2 ^ result ≤ 2 * magnitude + 1 }
    ensures at_most { result ≤ 64 }
{
    64 - magnitude.leading_zeros()
}

/// Returns the largest power of 2 that is at most the magnitude.
pub(crate) fn highest_power(magnitude: u64) -> u64
    requires { 0 < magnitude }
    ensures { IsHighestPower magnitude result }
{
    1 << (bit_length(magnitude) - 1)
}
