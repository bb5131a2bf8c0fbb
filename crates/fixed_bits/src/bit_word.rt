//! Calls on the bits and bytes of a word.

ghost use Rattle.std.specs.Prelude.{◌≡◌, ◌==◌, ◌^◌, ◌<◌, ◌*ℤ◌, ℕ, List, pos, reverse, min, max, count_by};
ghost use Rattle.std.specs.List.{prefix_len, suffix_len};
ghost use Rattle.fixed_word.specs.Format.{InRange, wrap};
ghost use Rattle.fixed_word.specs.Quotient.{floor_quotient};
ghost use Rattle.fixed_bits.specs.Digits.{IsRotated, bit_list, byte_list, complement, differ, zip_with};

use crate::pattern::{pattern_of, rotated, word_of};
use fixed_word::{Arithmetic, Integer, RawWord, Valued, Word};

/// A word of n bits, seen as its bit list of n digits 0 or 1, and as its byte list of n/8 digits from 0 to 255. Both
/// lists have the least significant digit first. The calls are those of std with the same names; `and`, `or`, `xor`,
/// `shift_left` and `shift_right` are the operators of std. (The crate `fixed` does not have this trait.)
pub trait BitWord: Word {
    /// The array of n/8 bytes.
    type Bytes: Copy;

    // the bytes, in the order in which they stand
    ghost as_list: { Self.Bytes → List ℕ };

    /// Returns the word with each bit inverted.
    fn not(self) -> Self
        ensures { bit_list Self.BITS (Self.value result)
            ≡ complement (bit_list Self.BITS (Self.value self)) }
    {
        word_of(!pattern_of(self) as u128)
    }

    /// Returns the bitwise AND: a bit is 1 if it is 1 in both words.
    fn and(self, other: Self) -> Self
        ensures { bit_list Self.BITS (Self.value result)
            ≡ zip_with min (bit_list Self.BITS (Self.value self)) (bit_list Self.BITS (Self.value other)) }
    {
        word_of(pattern_of(self) as u128 & pattern_of(other) as u128)
    }

    /// Returns the bitwise OR: a bit is 1 if it is 1 in either word.
    fn or(self, other: Self) -> Self
        ensures { bit_list Self.BITS (Self.value result)
            ≡ zip_with max (bit_list Self.BITS (Self.value self)) (bit_list Self.BITS (Self.value other)) }
    {
        word_of(pattern_of(self) as u128 | pattern_of(other) as u128)
    }

    /// Returns the bitwise XOR: a bit is 1 if it differs between the words.
    fn xor(self, other: Self) -> Self
        ensures { bit_list Self.BITS (Self.value result)
            ≡ zip_with differ (bit_list Self.BITS (Self.value self))
            (bit_list Self.BITS (Self.value other)) }
    {
        word_of(pattern_of(self) as u128 ^ pattern_of(other) as u128)
    }

    /// Returns the bits shifted left by `by`; bits shifted out are lost. Precondition: `by` is below n.
    fn shift_left(self, by: u32) -> Self
        requires { by < Self.BITS }
        ensures { Self.value result ≡ wrap Self.SIGNED Self.BITS (Self.value self *ℤ pos (2 ^ by)) }
    {
        Self::cut(self.whole().scaled(by))
    }

    /// Returns the value over `2^by`, rounded down. Precondition: `by` is below n.
    fn shift_right(self, by: u32) -> Self
        requires { by < Self.BITS }
        ensures { Self.value result ≡ floor_quotient (Self.value self) (2 ^ by) }
    {
        Self::cut(self.whole().floored(by))
    }

    /// Returns the bits rotated left: bit i moves to position `i + by` modulo n.
    fn rotate_left(self, by: u32) -> Self
        ensures { IsRotated by (bit_list Self.BITS (Self.value self))
            (bit_list Self.BITS (Self.value result)) }
    {
        let width = Self::BITS;
        word_of(rotated(pattern_of(self), by % width, width))
    }

    /// Returns the bits rotated right: bit i moves to position `i - by` modulo n. A rotation to the left by `by`
    /// restores the word.
    fn rotate_right(self, by: u32) -> Self
        ensures { IsRotated by (bit_list Self.BITS (Self.value result))
            (bit_list Self.BITS (Self.value self)) }
    {
        let width = Self::BITS;
        word_of(rotated(pattern_of(self), width - by % width, width))
    }

    /// Returns how many bits are 1.
    fn count_ones(self) -> u32
        ensures { result ≡ count_by (λ d. d == 1) (bit_list Self.BITS (Self.value self)) }
    {
        pattern_of(self).count_ones()
    }

    /// Returns how many of the most significant bits are 0, before the first that is 1.
    fn leading_zeros(self) -> u32
        ensures { result ≡ suffix_len (λ d. d == 0) (bit_list Self.BITS (Self.value self)) }
    {
        pattern_of(self).leading_zeros() - (64 - Self::BITS)
    }

    /// Returns how many of the least significant bits are 0, before the first that is 1.
    fn trailing_zeros(self) -> u32
        ensures { result ≡ prefix_len (λ d. d == 0) (bit_list Self.BITS (Self.value self)) }
    {
        pattern_of(self).trailing_zeros().min(Self::BITS)
    }

    /// Returns the word with its bytes in the opposite order.
    fn swap_bytes(self) -> Self
        ensures { byte_list Self.BITS (Self.value result)
            ≡ reverse (byte_list Self.BITS (Self.value self)) }
    {
        Self::from_be_bytes(self.to_le_bytes())
    }

    /// Returns the word with its bits in the opposite order.
    fn reverse_bits(self) -> Self
        ensures { bit_list Self.BITS (Self.value result)
            ≡ reverse (bit_list Self.BITS (Self.value self)) }
    {
        word_of((pattern_of(self).reverse_bits() >> (64 - Self::BITS)) as u128)
    }

    /// Returns the bytes, the most significant first.
    fn to_be_bytes(self) -> Self::Bytes
        ensures { as_list result ≡ reverse (byte_list Self.BITS (Self.value self)) };

    /// Returns the bytes, the least significant first.
    fn to_le_bytes(self) -> Self::Bytes
        ensures { as_list result ≡ byte_list Self.BITS (Self.value self) };

    /// Returns the word with these bytes, the most significant first. It is the inverse of `to_be_bytes`.
    fn from_be_bytes(bytes: Self::Bytes) -> Self
        ensures { reverse (byte_list Self.BITS (Self.value result)) ≡ as_list bytes };

    /// Returns the word with these bytes, the least significant first. It is the inverse of `to_le_bytes`.
    fn from_le_bytes(bytes: Self::Bytes) -> Self
        ensures { byte_list Self.BITS (Self.value result) ≡ as_list bytes };
}
