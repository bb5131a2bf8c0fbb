//! Calls on the magnitude, the sign, the mean and the shifts of numbers.

ghost use Rattle.std.specs.Prelude.{◌≡◌, ◌≤◌, ◌^◌, ◌↔◌, ◌<ℤ◌, ◌+ℤ◌, ◌-ℤ◌, ◌*ℤ◌, ℕ, IsTrue, pos, unsigned_abs};
ghost use Rattle.fixed_word.specs.Format.{wrap};
ghost use Rattle.fixed_word.specs.Quotient.{floor_quotient, truncated_quotient};
ghost use Rattle.fixed_decimal.specs.Text.{IsLeast};
ghost use Rattle.fixed_num.specs.Sizes.{HasSignedSize, HasSize, IsHighestOne, IsPower, mean_of};

use crate::format::Fixed;
use crate::sign_magnitude::{bit_length, distance, highest_power};
use fixed_kernel::round_to_zero_of;
use fixed_word::{Arithmetic, Integer, RawWord, SignedWord, UnsignedWord, Word};

impl<T: Word, const F: u32> Fixed<T, F> {
    /// Returns the magnitude of the difference, as an unsigned number. It always fits.
    pub fn abs_diff(self, other: Self) -> Fixed<T::Unsigned, F>
        ensures { T.Unsigned.value result.bits
            ≡ pos (unsigned_abs (T.value self.bits -ℤ T.value other.bits)) }
    {
        Fixed {
            bits: <T::Unsigned as RawWord>::residue(false, distance(self.bits, other.bits) as u128),
        }
    }

    /// Returns half the sum, rounded down. It always fits.
    pub fn mean(self, other: Self) -> Self
        ensures { T.value result.bits ≡ mean_of (T.value self.bits) (T.value other.bits) }
    {
        let sum = self.bits.whole().plus(other.bits.whole());
        Fixed {
            bits: T::cut(sum.floored(1)),
        }
    }

    /// Returns the bits shifted left by `rhs`; bits shifted out are lost. The result is 0 if `rhs` is the width or
    /// more.
    pub fn unbounded_shl(self, rhs: u32) -> Self
        ensures { T.value result.bits ≡ wrap T.SIGNED T.BITS (T.value self.bits *ℤ pos (2 ^ rhs)) }
    {
        if rhs >= T::BITS {
            return Fixed { bits: T::ZERO };
        }
        Fixed {
            bits: T::cut(self.bits.whole().scaled(rhs)),
        }
    }

    /// Returns the bits shifted right by `rhs`, rounded down. If `rhs` is the width or more, the bits are 0, or -1 if
    /// the number is negative.
    pub fn unbounded_shr(self, rhs: u32) -> Self
        ensures { T.value result.bits ≡ floor_quotient (T.value self.bits) (2 ^ rhs) }
    {
        let by = rhs.min(T::BITS);
        Fixed {
            bits: T::cut(self.bits.whole().floored(by)),
        }
    }

    /// Returns the number, rounded toward zero to a whole number. Precondition: F is at most the width.
    pub fn round_to_zero(self) -> Self
        requires { F ≤ T.BITS }
        ensures { T.value result.bits
            ≡ pos (2 ^ F) *ℤ truncated_quotient (T.value self.bits) (pos (2 ^ F)) }
    {
        Fixed {
            bits: round_to_zero_of(self.bits, F),
        }
    }
}

impl<T: SignedWord, const F: u32> Fixed<T, F> {
    /// Returns whether the number is positive.
    pub fn is_positive(self) -> bool
        ensures { IsTrue result ↔ (pos 0 <ℤ T.value self.bits) }
    {
        !self.bits.is_below_zero() && self.bits.magnitude() > 0
    }

    /// Returns whether the number is negative.
    pub fn is_negative(self) -> bool
        ensures { IsTrue result ↔ (T.value self.bits <ℤ pos 0) }
    {
        self.bits.is_below_zero()
    }

    /// Returns how many bits the number needs as a signed integer: the smallest m of at least 1 with
    /// `-2^(m-1) <= bits < 2^(m-1)`.
    pub fn signed_bits(self) -> u32
        ensures { IsLeast (HasSignedSize (T.value self.bits)) result }
    {
        if self.bits.is_below_zero() {
            bit_length(self.bits.magnitude() - 1) + 1
        } else {
            bit_length(self.bits.magnitude()) + 1
        }
    }

    /// Returns the magnitude, as an unsigned number. It always fits.
    pub fn unsigned_abs(self) -> Fixed<T::Unsigned, F>
        ensures { T.Unsigned.value result.bits ≡ pos (unsigned_abs (T.value self.bits)) }
    {
        Fixed {
            bits: <T::Unsigned as RawWord>::residue(false, self.bits.magnitude() as u128),
        }
    }

    /// Returns the magnitude of the difference, as an unsigned number. It always fits.
    pub fn unsigned_dist(self, other: Self) -> Fixed<T::Unsigned, F>
        ensures { T.Unsigned.value result.bits
            ≡ pos (unsigned_abs (T.value self.bits -ℤ T.value other.bits)) }
    {
        self.abs_diff(other)
    }
}

impl<T: UnsignedWord, const F: u32> Fixed<T, F> {
    /// Returns how many bits the number needs: the smallest m with `bits < 2^m`.
    pub fn significant_bits(self) -> u32
        ensures { IsLeast (HasSize (T.value self.bits)) result }
    {
        bit_length(self.bits.magnitude())
    }

    /// Returns whether the bits are a power of 2.
    pub fn is_power_of_two(self) -> bool
        ensures { IsTrue result ↔ IsPower (T.value self.bits) }
    {
        let magnitude = self.bits.magnitude();
        magnitude > 0 && magnitude == highest_power(magnitude)
    }

    /// Returns the number with only the highest bit that is 1, or 0 for 0.
    pub fn highest_one(self) -> Self
        ensures { IsHighestOne (T.value self.bits) (T.value result.bits) }
    {
        let magnitude = self.bits.magnitude();
        if magnitude == 0 {
            return self;
        }
        Fixed {
            bits: T::residue(false, highest_power(magnitude) as u128),
        }
    }
}
