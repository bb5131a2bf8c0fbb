//! Operations that return the nearest number that fits.

ghost use Rattle.std.specs.Prelude.{◌≡◌, ◌≤◌, ◌≢◌, ◌≤ℤ◌, pos, Some, neg_ℤ, ◌*ℤ◌, ◌+ℤ◌, ◌-ℤ◌};
ghost use Rattle.fixed_word.specs.Policies.{saturating};
ghost use Rattle.fixed_word.specs.Quotient.{euclidean_remainder, truncated_quotient};
ghost use Rattle.fixed_kernel.specs.Root.{root_of};
ghost use Rattle.fixed_kernel.specs.Rows.{exact_abs, exact_div, exact_div_euclid, exact_mul, exact_next_multiple_of, exact_recip, exact_signum, units};

use crate::numbers::{capped_number, clamped_number, held_number};
use fixed_kernel::{
    abs_of, add_of, dist_of, div_euclid_int_of, div_euclid_of, div_int_of, div_nearest_of,
    mixed_add_of, mixed_sub_of, mul_int_of, mul_nearest_of, mul_of, neg_of, next_multiple_of_of,
    recip_of, rem_euclid_int_of, signum_of, sqrt_of, sub_of,
};
use fixed_num::{Fixed, Held, Number, saturating_number};
use fixed_word::{RawWord, SignedWord, UnsignedWord, Word};

/// The `saturating_` forms of all numbers. If the exact result does not fit, they return the nearest number that
/// fits. Results are in units of `2^-F`, and integer operands are whole numbers. Precondition of each call that uses
/// F: F is at most the width.
pub trait Saturating: Number {
    /// Returns the negated number, saturated.
    fn saturating_neg(self) -> Self
        ensures { Some (Self.number result)
            ≡ saturating Self.SIGNED Self.BITS (Some (neg_ℤ (Self.number self))) };

    /// Returns the sum, saturated.
    fn saturating_add(self, rhs: Self) -> Self
        ensures { Some (Self.number result) ≡ saturating Self.SIGNED Self.BITS
            (Some (Self.number self +ℤ Self.number rhs)) };

    /// Returns the difference, saturated.
    fn saturating_sub(self, rhs: Self) -> Self
        ensures { Some (Self.number result) ≡ saturating Self.SIGNED Self.BITS
            (Some (Self.number self -ℤ Self.number rhs)) };

    /// Returns the product, rounded down and saturated.
    fn saturating_mul(self, rhs: Self) -> Self
        requires { Self.FRACTION ≤ Self.BITS }
        ensures { Some (Self.number result) ≡ saturating Self.SIGNED Self.BITS
            (Some (exact_mul (Self.number self) (Self.number rhs) Self.FRACTION)) };

    /// Returns the quotient, rounded toward zero and saturated. Precondition: the divisor is not 0.
    fn saturating_div(self, rhs: Self) -> Self
        requires fraction { Self.FRACTION ≤ Self.BITS }
        requires divisor { Self.number rhs ≢ pos 0 }
        ensures { Some (Self.number result) ≡ saturating Self.SIGNED Self.BITS
            (Some (exact_div (Self.number self) (Self.number rhs) Self.FRACTION)) };

    /// Returns 1 over the number, rounded toward zero and saturated. Precondition: the number is not 0.
    fn saturating_recip(self) -> Self
        requires fraction { Self.FRACTION ≤ Self.BITS }
        requires divisor { Self.number self ≢ pos 0 }
        ensures { Some (Self.number result) ≡ saturating Self.SIGNED Self.BITS
            (Some (exact_recip (Self.number self) Self.FRACTION)) };

    /// Returns the Euclidean quotient, which is a whole number, saturated. Precondition: the divisor is not 0.
    fn saturating_div_euclid(self, rhs: Self) -> Self
        requires fraction { Self.FRACTION ≤ Self.BITS }
        requires divisor { Self.number rhs ≢ pos 0 }
        ensures { Some (Self.number result) ≡ saturating Self.SIGNED Self.BITS
            (Some (exact_div_euclid (Self.number self) (Self.number rhs) Self.FRACTION)) };

    /// Returns the distance between the numbers, saturated.
    fn saturating_dist(self, other: Self) -> Self
        ensures { Some (Self.number result) ≡ saturating Self.SIGNED Self.BITS
            (Some (exact_abs (Self.number self -ℤ Self.number other))) };

    /// Returns the next multiple of `other`, upward if `other` is positive and downward if it is negative, saturated.
    /// Precondition: `other` is not 0.
    fn saturating_next_multiple_of(self, other: Self) -> Self
        requires { Self.number other ≢ pos 0 }
        ensures { Some (Self.number result) ≡ saturating Self.SIGNED Self.BITS
            (Some (exact_next_multiple_of (Self.number self) (Self.number other))) };

    /// Returns the product by an integer, saturated.
    fn saturating_mul_int(self, rhs: Self::Bits) -> Self
        ensures { Some (Self.number result) ≡ saturating Self.SIGNED Self.BITS
            (Some (Self.number self *ℤ Self.Bits.value rhs)) };

    /// Returns the quotient by an integer, rounded toward zero and saturated. Precondition: the divisor is not 0.
    fn saturating_div_int(self, rhs: Self::Bits) -> Self
        requires { Self.Bits.value rhs ≢ pos 0 }
        ensures { Some (Self.number result) ≡ saturating Self.SIGNED Self.BITS
            (Some (truncated_quotient (Self.number self) (Self.Bits.value rhs))) };

    /// Returns the Euclidean remainder by an integer, saturated. Precondition: the divisor is not 0.
    fn saturating_rem_euclid_int(self, rhs: Self::Bits) -> Self
        requires fraction { Self.FRACTION ≤ Self.BITS }
        requires divisor { Self.Bits.value rhs ≢ pos 0 }
        ensures { Some (Self.number result) ≡ saturating Self.SIGNED Self.BITS
            (Some (euclidean_remainder (Self.number self) (units (Self.Bits.value rhs) Self.FRACTION))) };

    /// Returns the Euclidean quotient by an integer, which is a whole number, saturated. Precondition: the divisor is
    /// not 0.
    fn saturating_div_euclid_int(self, rhs: Self::Bits) -> Self
        requires fraction { Self.FRACTION ≤ Self.BITS }
        requires divisor { Self.Bits.value rhs ≢ pos 0 }
        ensures { Some (Self.number result) ≡ saturating Self.SIGNED Self.BITS
            (Some (exact_div_euclid (Self.number self) (units (Self.Bits.value rhs) Self.FRACTION) Self.FRACTION)) };

    /// Returns the square root, rounded down and saturated. Precondition: the number is not negative.
    fn saturating_sqrt(self) -> Self
        requires fraction { Self.FRACTION ≤ Self.BITS }
        requires sign { pos 0 ≤ℤ Self.number self }
        ensures { Some (Self.number result) ≡ saturating Self.SIGNED Self.BITS
            (Some (root_of (Self.number self) Self.FRACTION)) };
}

impl<T: Word, const F: u32> Saturating for Fixed<T, F> {
    fn saturating_neg(self) -> Self {
        saturating_number(neg_of(self.bits))
    }

    fn saturating_add(self, rhs: Self) -> Self {
        saturating_number(add_of(self.bits, rhs.bits))
    }

    fn saturating_sub(self, rhs: Self) -> Self {
        saturating_number(sub_of(self.bits, rhs.bits))
    }

    fn saturating_mul(self, rhs: Self) -> Self {
        if T::BITS == 8 {
            return Fixed {
                bits: mul_nearest_of(self.bits, rhs.bits, F),
            };
        }
        held_number(mul_of(self.bits, rhs.bits, F))
    }

    fn saturating_div(self, rhs: Self) -> Self {
        Fixed {
            bits: div_nearest_of(self.bits, rhs.bits, F),
        }
    }

    fn saturating_recip(self) -> Self {
        saturating_number(recip_of(self.bits, F))
    }

    fn saturating_div_euclid(self, rhs: Self) -> Self {
        saturating_number(div_euclid_of(self.bits, rhs.bits, F))
    }

    fn saturating_dist(self, other: Self) -> Self {
        // That both are in range bounds their distance.
        let _signs = (self.bits.is_below_zero(), other.bits.is_below_zero());
        capped_number(dist_of(self.bits, other.bits))
    }

    fn saturating_next_multiple_of(self, other: Self) -> Self {
        saturating_number(next_multiple_of_of(self.bits, other.bits))
    }

    fn saturating_mul_int(self, rhs: T) -> Self {
        held_number(mul_int_of(self.bits, rhs))
    }

    fn saturating_div_int(self, rhs: T) -> Self {
        saturating_number(div_int_of(self.bits, rhs))
    }

    fn saturating_rem_euclid_int(self, rhs: T) -> Self {
        saturating_number(rem_euclid_int_of(self.bits, rhs, F))
    }

    fn saturating_div_euclid_int(self, rhs: T) -> Self {
        saturating_number(div_euclid_int_of(self.bits, rhs, F))
    }

    fn saturating_sqrt(self) -> Self {
        saturating_number(sqrt_of(self.bits, F))
    }
}

/// The `saturating_` forms of signed numbers.
pub trait SaturatingSigned: Saturating {
    /// Returns the magnitude, saturated.
    fn saturating_abs(self) -> Self
        ensures { Some (Self.number result)
            ≡ saturating Self.SIGNED Self.BITS (Some (exact_abs (Self.number self))) };

    /// Returns the sign as a number: 1, 0 or -1, saturated.
    fn saturating_signum(self) -> Self
        requires { Self.FRACTION ≤ Self.BITS }
        ensures { Some (Self.number result) ≡ saturating Self.SIGNED Self.BITS
            (Some (exact_signum (Self.number self) Self.FRACTION)) };

    /// Returns the sum with an unsigned number, saturated.
    fn saturating_add_unsigned(self, rhs: Self::Unsigned) -> Self
        ensures { Some (Self.number result) ≡ saturating Self.SIGNED Self.BITS
            (Some (Self.number self +ℤ Self.Unsigned.number rhs)) };

    /// Returns the number minus an unsigned number, saturated.
    fn saturating_sub_unsigned(self, rhs: Self::Unsigned) -> Self
        ensures { Some (Self.number result) ≡ saturating Self.SIGNED Self.BITS
            (Some (Self.number self -ℤ Self.Unsigned.number rhs)) };
}

impl<T: SignedWord, const F: u32> SaturatingSigned for Fixed<T, F> {
    fn saturating_abs(self) -> Self {
        // That it is in range bounds its magnitude.
        let _sign = self.bits.is_below_zero();
        capped_number(abs_of(self.bits))
    }

    fn saturating_signum(self) -> Self {
        saturating_number(signum_of(self.bits, F))
    }

    fn saturating_add_unsigned(self, rhs: Fixed<T::Unsigned, F>) -> Self {
        clamped_number(mixed_add_of(self.bits, rhs.bits))
    }

    fn saturating_sub_unsigned(self, rhs: Fixed<T::Unsigned, F>) -> Self {
        clamped_number(mixed_sub_of(self.bits, rhs.bits))
    }
}

/// The `saturating_` forms of unsigned numbers.
pub trait SaturatingUnsigned: Saturating {
    /// Returns the sum with a signed number, saturated.
    fn saturating_add_signed(self, rhs: Self::Signed) -> Self
        ensures { Some (Self.number result) ≡ saturating Self.SIGNED Self.BITS
            (Some (Self.number self +ℤ Self.Signed.number rhs)) };

    /// Returns the number minus a signed number, saturated.
    fn saturating_sub_signed(self, rhs: Self::Signed) -> Self
        ensures { Some (Self.number result) ≡ saturating Self.SIGNED Self.BITS
            (Some (Self.number self -ℤ Self.Signed.number rhs)) };
}

impl<T: UnsignedWord, const F: u32> SaturatingUnsigned for Fixed<T, F> {
    fn saturating_add_signed(self, rhs: Fixed<T::Signed, F>) -> Self {
        clamped_number(mixed_add_of(self.bits, rhs.bits))
    }

    fn saturating_sub_signed(self, rhs: Fixed<T::Signed, F>) -> Self {
        clamped_number(mixed_sub_of(self.bits, rhs.bits))
    }
}
