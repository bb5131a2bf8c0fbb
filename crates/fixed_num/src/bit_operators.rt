//! The bitwise operators and shifts.
//!
//! The assigning forms store the same result.

ghost use Rattle.std.specs.Prelude.{◌≡◌, ◌<◌, ◌^◌, ◌*ℤ◌, max, min, pos};
ghost use Rattle.fixed_word.specs.Format.{wrap};
ghost use Rattle.fixed_word.specs.Quotient.{floor_quotient};
ghost use Rattle.fixed_bits.specs.Digits.{bit_list, complement, differ, zip_with};

use crate::format::Fixed;
use fixed_bits::BitWord;
use fixed_word::RawWord;
use std::ops::{
    BitAnd, BitAndAssign, BitOr, BitOrAssign, BitXor, BitXorAssign, Not, Shl, ShlAssign, Shr,
    ShrAssign,
};

impl<T: BitWord, const F: u32> Not for Fixed<T, F> {
    type Output = Self;

    ghost not_gives = { λ a r. bit_list T.BITS (T.value r.bits) ≡ complement (bit_list T.BITS (T.value a.bits)) };

    /// Returns the number with each bit inverted.
    fn not(self) -> Self {
        self.const_not()
    }
}

impl<T: BitWord, const F: u32> BitAnd for Fixed<T, F> {
    type Output = Self;

    ghost bitand_gives = { λ a b r. bit_list T.BITS (T.value r.bits)
        ≡ zip_with min (bit_list T.BITS (T.value a.bits)) (bit_list T.BITS (T.value b.bits)) };

    /// Returns the bitwise AND: a bit is 1 if it is 1 in both numbers.
    fn bitand(self, rhs: Self) -> Self {
        self.const_bitand(rhs)
    }
}

impl<T: BitWord, const F: u32> BitAndAssign for Fixed<T, F> {
    ghost bitand_assign_gives = { λ a b r. bit_list T.BITS (T.value r.bits)
        ≡ zip_with min (bit_list T.BITS (T.value a.bits)) (bit_list T.BITS (T.value b.bits)) };

    /// Stores the result of `&`.
    fn bitand_assign(&mut self, rhs: Self) {
        *self = self.const_bitand(rhs);
    }
}

impl<T: BitWord, const F: u32> BitOr for Fixed<T, F> {
    type Output = Self;

    ghost bitor_gives = { λ a b r. bit_list T.BITS (T.value r.bits)
        ≡ zip_with max (bit_list T.BITS (T.value a.bits)) (bit_list T.BITS (T.value b.bits)) };

    /// Returns the bitwise OR: a bit is 1 if it is 1 in either number.
    fn bitor(self, rhs: Self) -> Self {
        self.const_bitor(rhs)
    }
}

impl<T: BitWord, const F: u32> BitOrAssign for Fixed<T, F> {
    ghost bitor_assign_gives = { λ a b r. bit_list T.BITS (T.value r.bits)
        ≡ zip_with max (bit_list T.BITS (T.value a.bits)) (bit_list T.BITS (T.value b.bits)) };

    /// Stores the result of `|`.
    fn bitor_assign(&mut self, rhs: Self) {
        *self = self.const_bitor(rhs);
    }
}

impl<T: BitWord, const F: u32> BitXor for Fixed<T, F> {
    type Output = Self;

    ghost bitxor_gives = { λ a b r. bit_list T.BITS (T.value r.bits)
        ≡ zip_with differ (bit_list T.BITS (T.value a.bits)) (bit_list T.BITS (T.value b.bits)) };

    /// Returns the bitwise XOR: a bit is 1 if it differs between the numbers.
    fn bitxor(self, rhs: Self) -> Self {
        self.const_bitxor(rhs)
    }
}

impl<T: BitWord, const F: u32> BitXorAssign for Fixed<T, F> {
    ghost bitxor_assign_gives = { λ a b r. bit_list T.BITS (T.value r.bits)
        ≡ zip_with differ (bit_list T.BITS (T.value a.bits)) (bit_list T.BITS (T.value b.bits)) };

    /// Stores the result of `^`.
    fn bitxor_assign(&mut self, rhs: Self) {
        *self = self.const_bitxor(rhs);
    }
}

impl<T: BitWord, const F: u32> Shl<u32> for Fixed<T, F> {
    type Output = Self;

    ghost can_shl = { λ a by. by < T.BITS };

    ghost shl_gives = { λ a by r. T.value r.bits ≡ wrap T.SIGNED T.BITS (T.value a.bits *ℤ pos (2 ^ by)) };

    /// Returns the bits shifted left by `rhs`; bits shifted out are lost. Precondition: `rhs` is below the width.
    fn shl(self, rhs: u32) -> Self {
        Fixed {
            bits: self.bits.shift_left(rhs),
        }
    }
}

impl<T: BitWord, const F: u32> ShlAssign<u32> for Fixed<T, F> {
    ghost can_shl_assign = { λ a by. by < T.BITS };

    ghost shl_assign_gives = { λ a by r. T.value r.bits ≡ wrap T.SIGNED T.BITS (T.value a.bits *ℤ pos (2 ^ by)) };

    /// Stores the result of `<<`. Precondition: `rhs` is below the width.
    fn shl_assign(&mut self, rhs: u32) {
        *self = *self << rhs;
    }
}

impl<T: BitWord, const F: u32> Shr<u32> for Fixed<T, F> {
    type Output = Self;

    ghost can_shr = { λ a by. by < T.BITS };

    ghost shr_gives = { λ a by r. T.value r.bits ≡ floor_quotient (T.value a.bits) (2 ^ by) };

    /// Returns the bits shifted right by `rhs`, rounded down. Precondition: `rhs` is below the width.
    fn shr(self, rhs: u32) -> Self {
        Fixed {
            bits: self.bits.shift_right(rhs),
        }
    }
}

impl<T: BitWord, const F: u32> ShrAssign<u32> for Fixed<T, F> {
    ghost can_shr_assign = { λ a by. by < T.BITS };

    ghost shr_assign_gives = { λ a by r. T.value r.bits ≡ floor_quotient (T.value a.bits) (2 ^ by) };

    /// Stores the result of `>>`. Precondition: `rhs` is below the width.
    fn shr_assign(&mut self, rhs: u32) {
        *self = *self >> rhs;
    }
}
