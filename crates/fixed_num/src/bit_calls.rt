//! Calls on the bits and bytes of a number. They are the bits and bytes of its word.

ghost use Rattle.std.specs.Prelude.{◌≡◌, ◌==◌, false, true, reverse, min, max, count_by};
ghost use Rattle.std.specs.List.{prefix_len, suffix_len};
ghost use Rattle.fixed_word.specs.Format.{wrap};
ghost use Rattle.fixed_bits.specs.Digits.{IsRotated, bit_list, byte_list, complement, differ, zip_with};

use crate::format::Fixed;
use fixed_bits::BitWord;
use fixed_word::{RawWord, SignedWord, UnsignedWord, Word};

impl<T: BitWord, const F: u32> Fixed<T, F> {
    /// Returns the number with each bit inverted.
    pub fn const_not(self) -> Self
        ensures { bit_list T.BITS (T.value result.bits)
            ≡ complement (bit_list T.BITS (T.value self.bits)) }
    {
        Fixed {
            bits: self.bits.not(),
        }
    }

    /// Returns the bitwise AND: a bit is 1 if it is 1 in both numbers.
    pub fn const_bitand(self, rhs: Self) -> Self
        ensures { bit_list T.BITS (T.value result.bits)
            ≡ zip_with min (bit_list T.BITS (T.value self.bits)) (bit_list T.BITS (T.value rhs.bits)) }
    {
        Fixed {
            bits: self.bits.and(rhs.bits),
        }
    }

    /// Returns the bitwise OR: a bit is 1 if it is 1 in either number.
    pub fn const_bitor(self, rhs: Self) -> Self
        ensures { bit_list T.BITS (T.value result.bits)
            ≡ zip_with max (bit_list T.BITS (T.value self.bits)) (bit_list T.BITS (T.value rhs.bits)) }
    {
        Fixed {
            bits: self.bits.or(rhs.bits),
        }
    }

    /// Returns the bitwise XOR: a bit is 1 if it differs between the numbers.
    pub fn const_bitxor(self, rhs: Self) -> Self
        ensures { bit_list T.BITS (T.value result.bits)
            ≡ zip_with differ (bit_list T.BITS (T.value self.bits)) (bit_list T.BITS (T.value rhs.bits)) }
    {
        Fixed {
            bits: self.bits.xor(rhs.bits),
        }
    }

    /// Returns the number with its bytes in the opposite order.
    pub fn swap_bytes(self) -> Self
        ensures { byte_list T.BITS (T.value result.bits)
            ≡ reverse (byte_list T.BITS (T.value self.bits)) }
    {
        Fixed {
            bits: self.bits.swap_bytes(),
        }
    }

    /// Returns the number with its bits in the opposite order.
    pub fn reverse_bits(self) -> Self
        ensures { bit_list T.BITS (T.value result.bits)
            ≡ reverse (bit_list T.BITS (T.value self.bits)) }
    {
        Fixed {
            bits: self.bits.reverse_bits(),
        }
    }

    /// Returns the bytes, the most significant first.
    pub fn to_be_bytes(self) -> T::Bytes
        ensures { T.as_list result ≡ reverse (byte_list T.BITS (T.value self.bits)) }
    {
        self.bits.to_be_bytes()
    }

    /// Returns the bytes, the least significant first.
    pub fn to_le_bytes(self) -> T::Bytes
        ensures { T.as_list result ≡ byte_list T.BITS (T.value self.bits) }
    {
        self.bits.to_le_bytes()
    }

    /// Returns the number with these bytes, the most significant first.
    pub fn from_be_bytes(bytes: T::Bytes) -> Self
        ensures { reverse (byte_list T.BITS (T.value result.bits)) ≡ T.as_list bytes }
    {
        Fixed {
            bits: T::from_be_bytes(bytes),
        }
    }

    /// Returns the number with these bytes, the least significant first.
    pub fn from_le_bytes(bytes: T::Bytes) -> Self
        ensures { byte_list T.BITS (T.value result.bits) ≡ T.as_list bytes }
    {
        Fixed {
            bits: T::from_le_bytes(bytes),
        }
    }

    /// Returns how many bits are 1.
    pub fn count_ones(self) -> u32
        ensures { result ≡ count_by (λ d. d == 1) (bit_list T.BITS (T.value self.bits)) }
    {
        self.bits.count_ones()
    }

    /// Returns how many bits are 0.
    pub fn count_zeros(self) -> u32
        ensures { result ≡ count_by (λ d. d == 0) (bit_list T.BITS (T.value self.bits)) }
    {
        self.bits.not().count_ones()
    }

    /// Returns how many of the most significant bits are 1, before the first that is 0.
    pub fn leading_ones(self) -> u32
        ensures { result ≡ suffix_len (λ d. d == 1) (bit_list T.BITS (T.value self.bits)) }
    {
        self.bits.not().leading_zeros()
    }

    /// Returns how many of the most significant bits are 0, before the first that is 1.
    pub fn leading_zeros(self) -> u32
        ensures { result ≡ suffix_len (λ d. d == 0) (bit_list T.BITS (T.value self.bits)) }
    {
        self.bits.leading_zeros()
    }

    /// Returns how many of the least significant bits are 1, before the first that is 0.
    pub fn trailing_ones(self) -> u32
        ensures { result ≡ prefix_len (λ d. d == 1) (bit_list T.BITS (T.value self.bits)) }
    {
        self.bits.not().trailing_zeros()
    }

    /// Returns how many of the least significant bits are 0, before the first that is 1.
    pub fn trailing_zeros(self) -> u32
        ensures { result ≡ prefix_len (λ d. d == 0) (bit_list T.BITS (T.value self.bits)) }
    {
        self.bits.trailing_zeros()
    }

    /// Returns the bits rotated left by `n`: bit i moves to position `i + n` modulo the width.
    pub fn rotate_left(self, n: u32) -> Self
        ensures { IsRotated n (bit_list T.BITS (T.value self.bits))
            (bit_list T.BITS (T.value result.bits)) }
    {
        Fixed {
            bits: self.bits.rotate_left(n),
        }
    }

    /// Returns the bits rotated right by `n`: bit i moves to position `i - n` modulo the width. A rotation to the
    /// left by `n` restores the number.
    pub fn rotate_right(self, n: u32) -> Self
        ensures { IsRotated n (bit_list T.BITS (T.value result.bits))
            (bit_list T.BITS (T.value self.bits)) }
    {
        Fixed {
            bits: self.bits.rotate_right(n),
        }
    }
}

impl<T: SignedWord, const F: u32> Fixed<T, F> {
    /// Returns the unsigned number with the same bit pattern.
    pub fn cast_unsigned(self) -> Fixed<T::Unsigned, F>
        ensures value { T.Unsigned.value result.bits ≡ wrap false T.BITS (T.value self.bits) }
        ensures bits { bit_list T.BITS (T.Unsigned.value result.bits)
            ≡ bit_list T.BITS (T.value self.bits) }
    {
        Fixed {
            bits: self.bits.to_unsigned(),
        }
    }
}

impl<T: UnsignedWord, const F: u32> Fixed<T, F> {
    /// Returns the signed number with the same bit pattern.
    pub fn cast_signed(self) -> Fixed<T::Signed, F>
        ensures value { T.Signed.value result.bits ≡ wrap true T.BITS (T.value self.bits) }
        ensures bits { bit_list T.BITS (T.Signed.value result.bits)
            ≡ bit_list T.BITS (T.value self.bits) }
    {
        Fixed {
            bits: self.bits.to_signed(),
        }
    }
}
