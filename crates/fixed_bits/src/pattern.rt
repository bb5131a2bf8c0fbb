//! The bit pattern of a word as an unsigned integer, and back.

ghost use Rattle.std.specs.Prelude.{◌≡◌, ◌+◌, ◌-◌, ◌*◌, ◌/◌, ◌^◌, ◌<◌, ◌≤◌};
ghost use Rattle.fixed_bits.specs.Digits.{bit_list, lowest_digits};

use fixed_word::{RawWord, Word};

/// Returns the number from 0 to `2^n - 1` with the bit pattern of the word.
pub(crate) fn pattern_of<T: Word>(word: T) -> u64
    ensures digits { bit_list T.BITS (T.value word) ≡ lowest_digits 2 T.BITS result }
    ensures small { result < 2 ^ T.BITS }
{
    word.to_unsigned().magnitude()
}

/// Returns the word with the n least significant bits of a number.
pub(crate) fn word_of<T: Word>(pattern: u128) -> T
    ensures { bit_list T.BITS (T.value result) ≡ lowest_digits 2 T.BITS pattern }
{
    T::residue(false, pattern)
}

/// Returns the pattern rotated left by `by`.
pub(crate) fn rotated(pattern: u64, by: u32, width: u32) -> u128
    requires width { width ≤ 64 }
    requires by { by ≤ width }
    requires small { pattern < 2 ^ width }
    ensures { result ≡ pattern * 2 ^ by + pattern / 2 ^ (width - by) }
{
    (pattern as u128) << by | (pattern as u128) >> (width - by)
}
