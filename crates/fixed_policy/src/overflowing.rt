//! Operations that return the wrapped result, and whether the exact result does not fit.

ghost use Rattle.std.specs.Prelude.{◌<◌, ◌%◌, ◌^◌, ◌*ℤ◌, ◌↔◌, IsTrue, ◌≡◌, ◌≤◌, ◌≢◌, ◌≤ℤ◌, pos, Some, neg_ℤ, ◌+ℤ◌, ◌-ℤ◌};
ghost use Rattle.fixed_word.specs.Format.{wrap};
ghost use Rattle.fixed_word.specs.Policies.{overflowing};
ghost use Rattle.fixed_word.specs.Quotient.{euclidean_remainder, floor_quotient, truncated_quotient};
ghost use Rattle.fixed_kernel.specs.Root.{root_of};
ghost use Rattle.fixed_kernel.specs.Rows.{exact_abs, exact_div, exact_div_euclid, exact_mul, exact_next_multiple_of, exact_recip, exact_signum, units};

use fixed_kernel::{
    abs_of, add_of, dist_of, div_euclid_int_of, div_euclid_of, div_int_of, div_of, mixed_add_of,
    mixed_sub_of, mul_int_of, mul_of, neg_of, next_multiple_of_of, recip_of, rem_euclid_int_of,
    signum_of, sqrt_of, sub_of,
};
use fixed_num::{Fixed, Held, Number, overflowing_number};
use fixed_word::{RawWord, SignedWord, UnsignedWord, Word};

/// The `overflowing_` forms of all numbers. They return the wrapped result, and whether the exact result does not
/// fit. Results are in units of `2^-F`, and integer operands are whole numbers. Precondition of each call that uses
/// F: F is at most the width.
pub trait Overflowing: Number {
    /// Returns the negated number, wrapped, and whether the exact result does not fit.
    fn overflowing_neg(self) -> (Self, bool)
        ensures { Some (Self.number result.0, result.1)
            ≡ overflowing Self.SIGNED Self.BITS (Some (neg_ℤ (Self.number self))) };

    /// Returns the sum, wrapped, and whether the exact result does not fit.
    fn overflowing_add(self, rhs: Self) -> (Self, bool)
        ensures { Some (Self.number result.0, result.1) ≡ overflowing Self.SIGNED Self.BITS
            (Some (Self.number self +ℤ Self.number rhs)) };

    /// Returns the difference, wrapped, and whether the exact result does not fit.
    fn overflowing_sub(self, rhs: Self) -> (Self, bool)
        ensures { Some (Self.number result.0, result.1) ≡ overflowing Self.SIGNED Self.BITS
            (Some (Self.number self -ℤ Self.number rhs)) };

    /// Returns the product, rounded down and wrapped, and whether the exact result does not fit.
    fn overflowing_mul(self, rhs: Self) -> (Self, bool)
        requires { Self.FRACTION ≤ Self.BITS }
        ensures { Some (Self.number result.0, result.1) ≡ overflowing Self.SIGNED Self.BITS
            (Some (exact_mul (Self.number self) (Self.number rhs) Self.FRACTION)) };

    /// Returns the quotient, rounded toward zero and wrapped, and whether the exact result does not fit.
    /// Precondition: the divisor is not 0.
    fn overflowing_div(self, rhs: Self) -> (Self, bool)
        requires fraction { Self.FRACTION ≤ Self.BITS }
        requires divisor { Self.number rhs ≢ pos 0 }
        ensures { Some (Self.number result.0, result.1) ≡ overflowing Self.SIGNED Self.BITS
            (Some (exact_div (Self.number self) (Self.number rhs) Self.FRACTION)) };

    /// Returns 1 over the number, rounded toward zero and wrapped, and whether the exact result does not fit.
    /// Precondition: the number is not 0.
    fn overflowing_recip(self) -> (Self, bool)
        requires fraction { Self.FRACTION ≤ Self.BITS }
        requires divisor { Self.number self ≢ pos 0 }
        ensures { Some (Self.number result.0, result.1) ≡ overflowing Self.SIGNED Self.BITS
            (Some (exact_recip (Self.number self) Self.FRACTION)) };

    /// Returns the Euclidean quotient, which is a whole number, wrapped, and whether the exact result does not fit.
    /// Precondition: the divisor is not 0.
    fn overflowing_div_euclid(self, rhs: Self) -> (Self, bool)
        requires fraction { Self.FRACTION ≤ Self.BITS }
        requires divisor { Self.number rhs ≢ pos 0 }
        ensures { Some (Self.number result.0, result.1) ≡ overflowing Self.SIGNED Self.BITS
            (Some (exact_div_euclid (Self.number self) (Self.number rhs) Self.FRACTION)) };

    /// Returns the distance between the numbers, wrapped, and whether the exact result does not fit.
    fn overflowing_dist(self, other: Self) -> (Self, bool)
        ensures { Some (Self.number result.0, result.1) ≡ overflowing Self.SIGNED Self.BITS
            (Some (exact_abs (Self.number self -ℤ Self.number other))) };

    /// Returns the next multiple of `other`, upward if `other` is positive and downward if it is negative, wrapped,
    /// and whether the exact result does not fit. Precondition: `other` is not 0.
    fn overflowing_next_multiple_of(self, other: Self) -> (Self, bool)
        requires { Self.number other ≢ pos 0 }
        ensures { Some (Self.number result.0, result.1) ≡ overflowing Self.SIGNED Self.BITS
            (Some (exact_next_multiple_of (Self.number self) (Self.number other))) };

    /// Returns the product by an integer, wrapped, and whether the exact result does not fit.
    fn overflowing_mul_int(self, rhs: Self::Bits) -> (Self, bool)
        ensures { Some (Self.number result.0, result.1) ≡ overflowing Self.SIGNED Self.BITS
            (Some (Self.number self *ℤ Self.Bits.value rhs)) };

    /// Returns the quotient by an integer, rounded toward zero and wrapped, and whether the exact result does not
    /// fit. Precondition: the divisor is not 0.
    fn overflowing_div_int(self, rhs: Self::Bits) -> (Self, bool)
        requires { Self.Bits.value rhs ≢ pos 0 }
        ensures { Some (Self.number result.0, result.1) ≡ overflowing Self.SIGNED Self.BITS
            (Some (truncated_quotient (Self.number self) (Self.Bits.value rhs))) };

    /// Returns the Euclidean remainder by an integer, wrapped, and whether the exact result does not fit.
    /// Precondition: the divisor is not 0.
    fn overflowing_rem_euclid_int(self, rhs: Self::Bits) -> (Self, bool)
        requires fraction { Self.FRACTION ≤ Self.BITS }
        requires divisor { Self.Bits.value rhs ≢ pos 0 }
        ensures { Some (Self.number result.0, result.1) ≡ overflowing Self.SIGNED Self.BITS
            (Some (euclidean_remainder (Self.number self) (units (Self.Bits.value rhs) Self.FRACTION))) };

    /// Returns the Euclidean quotient by an integer, which is a whole number, wrapped, and whether the exact result
    /// does not fit. Precondition: the divisor is not 0.
    fn overflowing_div_euclid_int(self, rhs: Self::Bits) -> (Self, bool)
        requires fraction { Self.FRACTION ≤ Self.BITS }
        requires divisor { Self.Bits.value rhs ≢ pos 0 }
        ensures { Some (Self.number result.0, result.1) ≡ overflowing Self.SIGNED Self.BITS
            (Some (exact_div_euclid (Self.number self) (units (Self.Bits.value rhs) Self.FRACTION) Self.FRACTION)) };

    /// Returns the square root, rounded down and wrapped, and whether the exact result does not fit. Precondition:
    /// the number is not negative.
    fn overflowing_sqrt(self) -> (Self, bool)
        requires fraction { Self.FRACTION ≤ Self.BITS }
        requires sign { pos 0 ≤ℤ Self.number self }
        ensures { Some (Self.number result.0, result.1) ≡ overflowing Self.SIGNED Self.BITS
            (Some (root_of (Self.number self) Self.FRACTION)) };

    /// Returns the bits shifted left by `rhs` modulo the width; bits shifted out are lost. Also returns whether `rhs`
    /// is the width or more.
    fn overflowing_shl(self, rhs: u32) -> (Self, bool)
        ensures value { Self.number result.0
            ≡ wrap Self.SIGNED Self.BITS (Self.number self *ℤ pos (2 ^ (rhs % Self.BITS))) }
        ensures verdict { IsTrue result.1 ↔ (Self.BITS ≤ rhs) };

    /// Returns the bits shifted right by `rhs` modulo the width, rounded down. Also returns whether `rhs` is the
    /// width or more.
    fn overflowing_shr(self, rhs: u32) -> (Self, bool)
        ensures value { Self.number result.0
            ≡ floor_quotient (Self.number self) (2 ^ (rhs % Self.BITS)) }
        ensures verdict { IsTrue result.1 ↔ (Self.BITS ≤ rhs) };
}

impl<T: Word, const F: u32> Overflowing for Fixed<T, F> {
    fn overflowing_neg(self) -> (Self, bool) {
        overflowing_number(neg_of(self.bits))
    }

    fn overflowing_add(self, rhs: Self) -> (Self, bool) {
        overflowing_number(add_of(self.bits, rhs.bits))
    }

    fn overflowing_sub(self, rhs: Self) -> (Self, bool) {
        overflowing_number(sub_of(self.bits, rhs.bits))
    }

    fn overflowing_mul(self, rhs: Self) -> (Self, bool) {
        overflowing_number(mul_of(self.bits, rhs.bits, F))
    }

    fn overflowing_div(self, rhs: Self) -> (Self, bool) {
        overflowing_number(div_of(self.bits, rhs.bits, F))
    }

    fn overflowing_recip(self) -> (Self, bool) {
        overflowing_number(recip_of(self.bits, F))
    }

    fn overflowing_div_euclid(self, rhs: Self) -> (Self, bool) {
        overflowing_number(div_euclid_of(self.bits, rhs.bits, F))
    }

    fn overflowing_dist(self, other: Self) -> (Self, bool) {
        overflowing_number(dist_of(self.bits, other.bits))
    }

    fn overflowing_next_multiple_of(self, other: Self) -> (Self, bool) {
        overflowing_number(next_multiple_of_of(self.bits, other.bits))
    }

    fn overflowing_mul_int(self, rhs: T) -> (Self, bool) {
        overflowing_number(mul_int_of(self.bits, rhs))
    }

    fn overflowing_div_int(self, rhs: T) -> (Self, bool) {
        overflowing_number(div_int_of(self.bits, rhs))
    }

    fn overflowing_rem_euclid_int(self, rhs: T) -> (Self, bool) {
        overflowing_number(rem_euclid_int_of(self.bits, rhs, F))
    }

    fn overflowing_div_euclid_int(self, rhs: T) -> (Self, bool) {
        overflowing_number(div_euclid_int_of(self.bits, rhs, F))
    }

    fn overflowing_sqrt(self) -> (Self, bool) {
        overflowing_number(sqrt_of(self.bits, F))
    }

    fn overflowing_shl(self, rhs: u32) -> (Self, bool) {
        (self.unbounded_shl(rhs % T::BITS), rhs >= T::BITS)
    }

    fn overflowing_shr(self, rhs: u32) -> (Self, bool) {
        (self.unbounded_shr(rhs % T::BITS), rhs >= T::BITS)
    }
}

/// The `overflowing_` forms of signed numbers.
pub trait OverflowingSigned: Overflowing {
    /// Returns the magnitude, wrapped, and whether the exact result does not fit.
    fn overflowing_abs(self) -> (Self, bool)
        ensures { Some (Self.number result.0, result.1)
            ≡ overflowing Self.SIGNED Self.BITS (Some (exact_abs (Self.number self))) };

    /// Returns the sign as a number: 1, 0 or -1, wrapped, and whether the exact result does not fit.
    fn overflowing_signum(self) -> (Self, bool)
        requires { Self.FRACTION ≤ Self.BITS }
        ensures { Some (Self.number result.0, result.1) ≡ overflowing Self.SIGNED Self.BITS
            (Some (exact_signum (Self.number self) Self.FRACTION)) };

    /// Returns the sum with an unsigned number, wrapped, and whether the exact result does not fit.
    fn overflowing_add_unsigned(self, rhs: Self::Unsigned) -> (Self, bool)
        ensures { Some (Self.number result.0, result.1) ≡ overflowing Self.SIGNED Self.BITS
            (Some (Self.number self +ℤ Self.Unsigned.number rhs)) };

    /// Returns the number minus an unsigned number, wrapped, and whether the exact result does not fit.
    fn overflowing_sub_unsigned(self, rhs: Self::Unsigned) -> (Self, bool)
        ensures { Some (Self.number result.0, result.1) ≡ overflowing Self.SIGNED Self.BITS
            (Some (Self.number self -ℤ Self.Unsigned.number rhs)) };
}

impl<T: SignedWord, const F: u32> OverflowingSigned for Fixed<T, F> {
    fn overflowing_abs(self) -> (Self, bool) {
        overflowing_number(abs_of(self.bits))
    }

    fn overflowing_signum(self) -> (Self, bool) {
        overflowing_number(signum_of(self.bits, F))
    }

    fn overflowing_add_unsigned(self, rhs: Fixed<T::Unsigned, F>) -> (Self, bool) {
        overflowing_number(mixed_add_of(self.bits, rhs.bits))
    }

    fn overflowing_sub_unsigned(self, rhs: Fixed<T::Unsigned, F>) -> (Self, bool) {
        overflowing_number(mixed_sub_of(self.bits, rhs.bits))
    }
}

/// The `overflowing_` forms of unsigned numbers.
pub trait OverflowingUnsigned: Overflowing {
    /// Returns the sum with a signed number, wrapped, and whether the exact result does not fit.
    fn overflowing_add_signed(self, rhs: Self::Signed) -> (Self, bool)
        ensures { Some (Self.number result.0, result.1) ≡ overflowing Self.SIGNED Self.BITS
            (Some (Self.number self +ℤ Self.Signed.number rhs)) };

    /// Returns the number minus a signed number, wrapped, and whether the exact result does not fit.
    fn overflowing_sub_signed(self, rhs: Self::Signed) -> (Self, bool)
        ensures { Some (Self.number result.0, result.1) ≡ overflowing Self.SIGNED Self.BITS
            (Some (Self.number self -ℤ Self.Signed.number rhs)) };
}

impl<T: UnsignedWord, const F: u32> OverflowingUnsigned for Fixed<T, F> {
    fn overflowing_add_signed(self, rhs: Fixed<T::Signed, F>) -> (Self, bool) {
        overflowing_number(mixed_add_of(self.bits, rhs.bits))
    }

    fn overflowing_sub_signed(self, rhs: Fixed<T::Signed, F>) -> (Self, bool) {
        overflowing_number(mixed_sub_of(self.bits, rhs.bits))
    }
}
