//! Operations that return the wrapped result.

ghost use Rattle.std.specs.Prelude.{◌<◌, ◌%◌, ◌^◌, ◌*ℤ◌, ◌≡◌, ◌≤◌, ◌≢◌, ◌≤ℤ◌, pos, Some, neg_ℤ, ◌+ℤ◌, ◌-ℤ◌};
ghost use Rattle.fixed_word.specs.Format.{wrap};
ghost use Rattle.fixed_word.specs.Policies.{wrapping};
ghost use Rattle.fixed_word.specs.Quotient.{euclidean_remainder, floor_quotient, truncated_quotient};
ghost use Rattle.fixed_kernel.specs.Root.{root_of};
ghost use Rattle.fixed_kernel.specs.Rows.{exact_abs, exact_div, exact_div_euclid, exact_mul, exact_next_multiple_of, exact_next_power_of_two, exact_recip, exact_signum, units};

use fixed_kernel::{
    abs_of, add_of, dist_of, div_euclid_int_of, div_euclid_of, div_int_of, div_of, mixed_add_of,
    mixed_sub_of, mul_int_of, mul_of, neg_of, next_multiple_of_of, next_power_of_two_of, recip_of,
    rem_euclid_int_of, signum_of, sqrt_of, sub_of,
};
use fixed_num::{Fixed, Held, Number, wrapping_number};
use fixed_word::{RawWord, SignedWord, UnsignedWord, Word};

/// The `wrapping_` forms of all numbers. If the exact result does not fit, they return the number that fits and
/// differs from it by a multiple of `2^n` units, where n is the width. Results are in units of `2^-F`, and integer
/// operands are whole numbers. Precondition of each call that uses F: F is at most the width.
pub trait Wrapping: Number {
    /// Returns the negated number, wrapped.
    fn wrapping_neg(self) -> Self
        ensures { Some (Self.number result)
            ≡ wrapping Self.SIGNED Self.BITS (Some (neg_ℤ (Self.number self))) };

    /// Returns the sum, wrapped.
    fn wrapping_add(self, rhs: Self) -> Self
        ensures { Some (Self.number result) ≡ wrapping Self.SIGNED Self.BITS
            (Some (Self.number self +ℤ Self.number rhs)) };

    /// Returns the difference, wrapped.
    fn wrapping_sub(self, rhs: Self) -> Self
        ensures { Some (Self.number result) ≡ wrapping Self.SIGNED Self.BITS
            (Some (Self.number self -ℤ Self.number rhs)) };

    /// Returns the product, rounded down and wrapped.
    fn wrapping_mul(self, rhs: Self) -> Self
        requires { Self.FRACTION ≤ Self.BITS }
        ensures { Some (Self.number result) ≡ wrapping Self.SIGNED Self.BITS
            (Some (exact_mul (Self.number self) (Self.number rhs) Self.FRACTION)) };

    /// Returns the quotient, rounded toward zero and wrapped. Precondition: the divisor is not 0.
    fn wrapping_div(self, rhs: Self) -> Self
        requires fraction { Self.FRACTION ≤ Self.BITS }
        requires divisor { Self.number rhs ≢ pos 0 }
        ensures { Some (Self.number result) ≡ wrapping Self.SIGNED Self.BITS
            (Some (exact_div (Self.number self) (Self.number rhs) Self.FRACTION)) };

    /// Returns 1 over the number, rounded toward zero and wrapped. Precondition: the number is not 0.
    fn wrapping_recip(self) -> Self
        requires fraction { Self.FRACTION ≤ Self.BITS }
        requires divisor { Self.number self ≢ pos 0 }
        ensures { Some (Self.number result) ≡ wrapping Self.SIGNED Self.BITS
            (Some (exact_recip (Self.number self) Self.FRACTION)) };

    /// Returns the Euclidean quotient, which is a whole number, wrapped. Precondition: the divisor is not 0.
    fn wrapping_div_euclid(self, rhs: Self) -> Self
        requires fraction { Self.FRACTION ≤ Self.BITS }
        requires divisor { Self.number rhs ≢ pos 0 }
        ensures { Some (Self.number result) ≡ wrapping Self.SIGNED Self.BITS
            (Some (exact_div_euclid (Self.number self) (Self.number rhs) Self.FRACTION)) };

    /// Returns the distance between the numbers, wrapped.
    fn wrapping_dist(self, other: Self) -> Self
        ensures { Some (Self.number result) ≡ wrapping Self.SIGNED Self.BITS
            (Some (exact_abs (Self.number self -ℤ Self.number other))) };

    /// Returns the next multiple of `other`, upward if `other` is positive and downward if it is negative, wrapped.
    /// Precondition: `other` is not 0.
    fn wrapping_next_multiple_of(self, other: Self) -> Self
        requires { Self.number other ≢ pos 0 }
        ensures { Some (Self.number result) ≡ wrapping Self.SIGNED Self.BITS
            (Some (exact_next_multiple_of (Self.number self) (Self.number other))) };

    /// Returns the product by an integer, wrapped.
    fn wrapping_mul_int(self, rhs: Self::Bits) -> Self
        ensures { Some (Self.number result) ≡ wrapping Self.SIGNED Self.BITS
            (Some (Self.number self *ℤ Self.Bits.value rhs)) };

    /// Returns the quotient by an integer, rounded toward zero and wrapped. Precondition: the divisor is not 0.
    fn wrapping_div_int(self, rhs: Self::Bits) -> Self
        requires { Self.Bits.value rhs ≢ pos 0 }
        ensures { Some (Self.number result) ≡ wrapping Self.SIGNED Self.BITS
            (Some (truncated_quotient (Self.number self) (Self.Bits.value rhs))) };

    /// Returns the Euclidean remainder by an integer, wrapped. Precondition: the divisor is not 0.
    fn wrapping_rem_euclid_int(self, rhs: Self::Bits) -> Self
        requires fraction { Self.FRACTION ≤ Self.BITS }
        requires divisor { Self.Bits.value rhs ≢ pos 0 }
        ensures { Some (Self.number result) ≡ wrapping Self.SIGNED Self.BITS
            (Some (euclidean_remainder (Self.number self) (units (Self.Bits.value rhs) Self.FRACTION))) };

    /// Returns the Euclidean quotient by an integer, which is a whole number, wrapped. Precondition: the divisor is
    /// not 0.
    fn wrapping_div_euclid_int(self, rhs: Self::Bits) -> Self
        requires fraction { Self.FRACTION ≤ Self.BITS }
        requires divisor { Self.Bits.value rhs ≢ pos 0 }
        ensures { Some (Self.number result) ≡ wrapping Self.SIGNED Self.BITS
            (Some (exact_div_euclid (Self.number self) (units (Self.Bits.value rhs) Self.FRACTION) Self.FRACTION)) };

    /// Returns the square root, rounded down and wrapped. Precondition: the number is not negative.
    fn wrapping_sqrt(self) -> Self
        requires fraction { Self.FRACTION ≤ Self.BITS }
        requires sign { pos 0 ≤ℤ Self.number self }
        ensures { Some (Self.number result)
            ≡ wrapping Self.SIGNED Self.BITS (Some (root_of (Self.number self) Self.FRACTION)) };

    /// Returns the bits shifted left by `rhs` modulo the width; bits shifted out are lost.
    fn wrapping_shl(self, rhs: u32) -> Self
        ensures { Self.number result
            ≡ wrap Self.SIGNED Self.BITS (Self.number self *ℤ pos (2 ^ (rhs % Self.BITS))) };

    /// Returns the bits shifted right by `rhs` modulo the width, rounded down.
    fn wrapping_shr(self, rhs: u32) -> Self
        ensures { Self.number result ≡ floor_quotient (Self.number self) (2 ^ (rhs % Self.BITS)) };
}

impl<T: Word, const F: u32> Wrapping for Fixed<T, F> {
    fn wrapping_neg(self) -> Self {
        wrapping_number(neg_of(self.bits))
    }

    fn wrapping_add(self, rhs: Self) -> Self {
        wrapping_number(add_of(self.bits, rhs.bits))
    }

    fn wrapping_sub(self, rhs: Self) -> Self {
        wrapping_number(sub_of(self.bits, rhs.bits))
    }

    fn wrapping_mul(self, rhs: Self) -> Self {
        wrapping_number(mul_of(self.bits, rhs.bits, F))
    }

    fn wrapping_div(self, rhs: Self) -> Self {
        wrapping_number(div_of(self.bits, rhs.bits, F))
    }

    fn wrapping_recip(self) -> Self {
        wrapping_number(recip_of(self.bits, F))
    }

    fn wrapping_div_euclid(self, rhs: Self) -> Self {
        wrapping_number(div_euclid_of(self.bits, rhs.bits, F))
    }

    fn wrapping_dist(self, other: Self) -> Self {
        wrapping_number(dist_of(self.bits, other.bits))
    }

    fn wrapping_next_multiple_of(self, other: Self) -> Self {
        wrapping_number(next_multiple_of_of(self.bits, other.bits))
    }

    fn wrapping_mul_int(self, rhs: T) -> Self {
        wrapping_number(mul_int_of(self.bits, rhs))
    }

    fn wrapping_div_int(self, rhs: T) -> Self {
        wrapping_number(div_int_of(self.bits, rhs))
    }

    fn wrapping_rem_euclid_int(self, rhs: T) -> Self {
        wrapping_number(rem_euclid_int_of(self.bits, rhs, F))
    }

    fn wrapping_div_euclid_int(self, rhs: T) -> Self {
        wrapping_number(div_euclid_int_of(self.bits, rhs, F))
    }

    fn wrapping_sqrt(self) -> Self {
        wrapping_number(sqrt_of(self.bits, F))
    }

    fn wrapping_shl(self, rhs: u32) -> Self {
        self.unbounded_shl(rhs % T::BITS)
    }

    fn wrapping_shr(self, rhs: u32) -> Self {
        self.unbounded_shr(rhs % T::BITS)
    }
}

/// The `wrapping_` forms of signed numbers.
pub trait WrappingSigned: Wrapping {
    /// Returns the magnitude, wrapped.
    fn wrapping_abs(self) -> Self
        ensures { Some (Self.number result)
            ≡ wrapping Self.SIGNED Self.BITS (Some (exact_abs (Self.number self))) };

    /// Returns the sign as a number: 1, 0 or -1, wrapped.
    fn wrapping_signum(self) -> Self
        requires { Self.FRACTION ≤ Self.BITS }
        ensures { Some (Self.number result) ≡ wrapping Self.SIGNED Self.BITS
            (Some (exact_signum (Self.number self) Self.FRACTION)) };

    /// Returns the sum with an unsigned number, wrapped.
    fn wrapping_add_unsigned(self, rhs: Self::Unsigned) -> Self
        ensures { Some (Self.number result) ≡ wrapping Self.SIGNED Self.BITS
            (Some (Self.number self +ℤ Self.Unsigned.number rhs)) };

    /// Returns the number minus an unsigned number, wrapped.
    fn wrapping_sub_unsigned(self, rhs: Self::Unsigned) -> Self
        ensures { Some (Self.number result) ≡ wrapping Self.SIGNED Self.BITS
            (Some (Self.number self -ℤ Self.Unsigned.number rhs)) };
}

impl<T: SignedWord, const F: u32> WrappingSigned for Fixed<T, F> {
    fn wrapping_abs(self) -> Self {
        wrapping_number(abs_of(self.bits))
    }

    fn wrapping_signum(self) -> Self {
        wrapping_number(signum_of(self.bits, F))
    }

    fn wrapping_add_unsigned(self, rhs: Fixed<T::Unsigned, F>) -> Self {
        wrapping_number(mixed_add_of(self.bits, rhs.bits))
    }

    fn wrapping_sub_unsigned(self, rhs: Fixed<T::Unsigned, F>) -> Self {
        wrapping_number(mixed_sub_of(self.bits, rhs.bits))
    }
}

/// The `wrapping_` forms of unsigned numbers.
pub trait WrappingUnsigned: Wrapping {
    /// Returns the least number, not below this one, whose bits are a power of two, wrapped.
    fn wrapping_next_power_of_two(self) -> Self
        ensures { Some (Self.number result)
            ≡ wrapping Self.SIGNED Self.BITS (Some (exact_next_power_of_two (Self.number self))) };

    /// Returns the sum with a signed number, wrapped.
    fn wrapping_add_signed(self, rhs: Self::Signed) -> Self
        ensures { Some (Self.number result) ≡ wrapping Self.SIGNED Self.BITS
            (Some (Self.number self +ℤ Self.Signed.number rhs)) };

    /// Returns the number minus a signed number, wrapped.
    fn wrapping_sub_signed(self, rhs: Self::Signed) -> Self
        ensures { Some (Self.number result) ≡ wrapping Self.SIGNED Self.BITS
            (Some (Self.number self -ℤ Self.Signed.number rhs)) };
}

impl<T: UnsignedWord, const F: u32> WrappingUnsigned for Fixed<T, F> {
    fn wrapping_next_power_of_two(self) -> Self {
        wrapping_number(next_power_of_two_of(self.bits))
    }

    fn wrapping_add_signed(self, rhs: Fixed<T::Signed, F>) -> Self {
        wrapping_number(mixed_add_of(self.bits, rhs.bits))
    }

    fn wrapping_sub_signed(self, rhs: Fixed<T::Signed, F>) -> Self {
        wrapping_number(mixed_sub_of(self.bits, rhs.bits))
    }
}
