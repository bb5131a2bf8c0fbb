//! Operations whose precondition is that the exact result fits.

ghost use Rattle.std.specs.Prelude.{◌<◌, ◌%◌, ◌^◌, ◌*ℤ◌, ◌≡◌, ◌≤◌, ◌≢◌, ◌≤ℤ◌, pos, neg_ℤ, ◌+ℤ◌, ◌-ℤ◌};
ghost use Rattle.fixed_word.specs.Format.{InRange, wrap};
ghost use Rattle.fixed_word.specs.Quotient.{euclidean_remainder, floor_quotient, truncated_quotient};
ghost use Rattle.fixed_kernel.specs.Root.{root_of};
ghost use Rattle.fixed_kernel.specs.Rows.{exact_abs, exact_div, exact_div_euclid, exact_mul, exact_next_multiple_of, exact_next_power_of_two, exact_recip, exact_rem, exact_signum, units};

use fixed_kernel::{
    abs_of, add_of, dist_of, div_euclid_int_of, div_euclid_of, div_int_of, div_of, mixed_add_of,
    mixed_sub_of, mul_int_of, mul_of, neg_of, next_multiple_of_of, next_power_of_two_of, recip_of,
    rem_euclid_int_of, rem_euclid_of, rem_int_of, rem_of, signum_of, sqrt_of, sub_of,
};
use fixed_num::{Fixed, Held, Number, exact_number};
use fixed_word::{RawWord, SignedWord, UnsignedWord, Word};

/// The `strict_` forms of all numbers. Precondition of each call: the exact result fits. Results are in units of
/// `2^-F`, and integer operands are whole numbers. Precondition of each call that uses F: F is at most the width.
pub trait Strict: Number {
    /// Returns the negated number. Precondition: it fits.
    fn strict_neg(self) -> Self
        requires { InRange Self.SIGNED Self.BITS (neg_ℤ (Self.number self)) }
        ensures { Self.number result ≡ neg_ℤ (Self.number self) };

    /// Returns the sum. Precondition: it fits.
    fn strict_add(self, rhs: Self) -> Self
        requires { InRange Self.SIGNED Self.BITS (Self.number self +ℤ Self.number rhs) }
        ensures { Self.number result ≡ Self.number self +ℤ Self.number rhs };

    /// Returns the difference. Precondition: it fits.
    fn strict_sub(self, rhs: Self) -> Self
        requires { InRange Self.SIGNED Self.BITS (Self.number self -ℤ Self.number rhs) }
        ensures { Self.number result ≡ Self.number self -ℤ Self.number rhs };

    /// Returns the product, rounded down. Precondition: it fits.
    fn strict_mul(self, rhs: Self) -> Self
        requires fraction { Self.FRACTION ≤ Self.BITS }
        requires fits { InRange Self.SIGNED Self.BITS
            (exact_mul (Self.number self) (Self.number rhs) Self.FRACTION) }
        ensures { Self.number result
            ≡ exact_mul (Self.number self) (Self.number rhs) Self.FRACTION };

    /// Returns the quotient, rounded toward zero. Preconditions: the divisor is not 0, and the result fits.
    fn strict_div(self, rhs: Self) -> Self
        requires fraction { Self.FRACTION ≤ Self.BITS }
        requires divisor { Self.number rhs ≢ pos 0 }
        requires fits { InRange Self.SIGNED Self.BITS
            (exact_div (Self.number self) (Self.number rhs) Self.FRACTION) }
        ensures { Self.number result
            ≡ exact_div (Self.number self) (Self.number rhs) Self.FRACTION };

    /// Returns 1 over the number, rounded toward zero. Preconditions: the number is not 0, and the result fits.
    fn strict_recip(self) -> Self
        requires fraction { Self.FRACTION ≤ Self.BITS }
        requires divisor { Self.number self ≢ pos 0 }
        requires fits { InRange Self.SIGNED Self.BITS
            (exact_recip (Self.number self) Self.FRACTION) }
        ensures { Self.number result ≡ exact_recip (Self.number self) Self.FRACTION };

    /// Returns the remainder of the quotient that is rounded toward zero. It always fits. Precondition: the divisor
    /// is not 0.
    fn strict_rem(self, rhs: Self) -> Self
        requires divisor { Self.number rhs ≢ pos 0 }
        requires fits { InRange Self.SIGNED Self.BITS
            (exact_rem (Self.number self) (Self.number rhs)) }
        ensures { Self.number result ≡ exact_rem (Self.number self) (Self.number rhs) };

    /// Returns the Euclidean remainder, which is at least 0. It always fits. Precondition: the divisor is not 0.
    fn strict_rem_euclid(self, rhs: Self) -> Self
        requires divisor { Self.number rhs ≢ pos 0 }
        requires fits { InRange Self.SIGNED Self.BITS
            (euclidean_remainder (Self.number self) (Self.number rhs)) }
        ensures { Self.number result ≡ euclidean_remainder (Self.number self) (Self.number rhs) };

    /// Returns the Euclidean quotient, which is a whole number. Preconditions: the divisor is not 0, and the result
    /// fits.
    fn strict_div_euclid(self, rhs: Self) -> Self
        requires fraction { Self.FRACTION ≤ Self.BITS }
        requires divisor { Self.number rhs ≢ pos 0 }
        requires fits { InRange Self.SIGNED Self.BITS
            (exact_div_euclid (Self.number self) (Self.number rhs) Self.FRACTION) }
        ensures { Self.number result
            ≡ exact_div_euclid (Self.number self) (Self.number rhs) Self.FRACTION };

    /// Returns the distance between the numbers. Precondition: it fits.
    fn strict_dist(self, other: Self) -> Self
        requires { InRange Self.SIGNED Self.BITS
            (exact_abs (Self.number self -ℤ Self.number other)) }
        ensures { Self.number result ≡ exact_abs (Self.number self -ℤ Self.number other) };

    /// Returns the next multiple of `other`, upward if `other` is positive and downward if it is negative.
    /// Preconditions: `other` is not 0, and the result fits.
    fn strict_next_multiple_of(self, other: Self) -> Self
        requires divisor { Self.number other ≢ pos 0 }
        requires fits { InRange Self.SIGNED Self.BITS
            (exact_next_multiple_of (Self.number self) (Self.number other)) }
        ensures { Self.number result
            ≡ exact_next_multiple_of (Self.number self) (Self.number other) };

    /// Returns the product by an integer. Precondition: it fits.
    fn strict_mul_int(self, rhs: Self::Bits) -> Self
        requires { InRange Self.SIGNED Self.BITS
            (Self.number self *ℤ Self.Bits.value rhs) }
        ensures { Self.number result ≡ Self.number self *ℤ Self.Bits.value rhs };

    /// Returns the quotient by an integer, rounded toward zero. Preconditions: the divisor is not 0, and the result
    /// fits.
    fn strict_div_int(self, rhs: Self::Bits) -> Self
        requires divisor { Self.Bits.value rhs ≢ pos 0 }
        requires fits { InRange Self.SIGNED Self.BITS
            (truncated_quotient (Self.number self) (Self.Bits.value rhs)) }
        ensures { Self.number result ≡ truncated_quotient (Self.number self) (Self.Bits.value rhs) };

    /// Returns the remainder by an integer, of the quotient that is rounded toward zero. It always fits.
    /// Precondition: the divisor is not 0.
    fn strict_rem_int(self, rhs: Self::Bits) -> Self
        requires fraction { Self.FRACTION ≤ Self.BITS }
        requires divisor { Self.Bits.value rhs ≢ pos 0 }
        requires fits { InRange Self.SIGNED Self.BITS
            (exact_rem (Self.number self) (units (Self.Bits.value rhs) Self.FRACTION)) }
        ensures { Self.number result
            ≡ exact_rem (Self.number self) (units (Self.Bits.value rhs) Self.FRACTION) };

    /// Returns the Euclidean remainder by an integer. Preconditions: the divisor is not 0, and the result fits.
    fn strict_rem_euclid_int(self, rhs: Self::Bits) -> Self
        requires fraction { Self.FRACTION ≤ Self.BITS }
        requires divisor { Self.Bits.value rhs ≢ pos 0 }
        requires fits { InRange Self.SIGNED Self.BITS
            (euclidean_remainder (Self.number self) (units (Self.Bits.value rhs) Self.FRACTION)) }
        ensures { Self.number result
            ≡ euclidean_remainder (Self.number self) (units (Self.Bits.value rhs) Self.FRACTION) };

    /// Returns the Euclidean quotient by an integer, which is a whole number. Preconditions: the divisor is not 0,
    /// and the result fits.
    fn strict_div_euclid_int(self, rhs: Self::Bits) -> Self
        requires fraction { Self.FRACTION ≤ Self.BITS }
        requires divisor { Self.Bits.value rhs ≢ pos 0 }
        requires fits { InRange Self.SIGNED Self.BITS
            (exact_div_euclid (Self.number self) (units (Self.Bits.value rhs) Self.FRACTION) Self.FRACTION) }
        ensures { Self.number result
            ≡ exact_div_euclid (Self.number self) (units (Self.Bits.value rhs) Self.FRACTION) Self.FRACTION };

    /// Returns the square root, rounded down. Preconditions: the number is not negative, and the root fits.
    fn strict_sqrt(self) -> Self
        requires fraction { Self.FRACTION ≤ Self.BITS }
        requires sign { pos 0 ≤ℤ Self.number self }
        requires fits { InRange Self.SIGNED Self.BITS
            (root_of (Self.number self) Self.FRACTION) }
        ensures { Self.number result ≡ root_of (Self.number self) Self.FRACTION };

    /// Returns the bits shifted left by `rhs`; bits shifted out are lost. Precondition: `rhs` is below the width.
    fn strict_shl(self, rhs: u32) -> Self
        requires { rhs < Self.BITS }
        ensures { Self.number result
            ≡ wrap Self.SIGNED Self.BITS (Self.number self *ℤ pos (2 ^ rhs)) };

    /// Returns the bits shifted right by `rhs`, rounded down. Precondition: `rhs` is below the width.
    fn strict_shr(self, rhs: u32) -> Self
        requires { rhs < Self.BITS }
        ensures { Self.number result ≡ floor_quotient (Self.number self) (2 ^ rhs) };
}

impl<T: Word, const F: u32> Strict for Fixed<T, F> {
    fn strict_neg(self) -> Self {
        exact_number(neg_of(self.bits))
    }

    fn strict_add(self, rhs: Self) -> Self {
        exact_number(add_of(self.bits, rhs.bits))
    }

    fn strict_sub(self, rhs: Self) -> Self {
        exact_number(sub_of(self.bits, rhs.bits))
    }

    fn strict_mul(self, rhs: Self) -> Self {
        exact_number(mul_of(self.bits, rhs.bits, F))
    }

    fn strict_div(self, rhs: Self) -> Self {
        exact_number(div_of(self.bits, rhs.bits, F))
    }

    fn strict_recip(self) -> Self {
        exact_number(recip_of(self.bits, F))
    }

    fn strict_rem(self, rhs: Self) -> Self {
        exact_number(rem_of(self.bits, rhs.bits))
    }

    fn strict_rem_euclid(self, rhs: Self) -> Self {
        exact_number(rem_euclid_of(self.bits, rhs.bits))
    }

    fn strict_div_euclid(self, rhs: Self) -> Self {
        exact_number(div_euclid_of(self.bits, rhs.bits, F))
    }

    fn strict_dist(self, other: Self) -> Self {
        exact_number(dist_of(self.bits, other.bits))
    }

    fn strict_next_multiple_of(self, other: Self) -> Self {
        exact_number(next_multiple_of_of(self.bits, other.bits))
    }

    fn strict_mul_int(self, rhs: T) -> Self {
        exact_number(mul_int_of(self.bits, rhs))
    }

    fn strict_div_int(self, rhs: T) -> Self {
        exact_number(div_int_of(self.bits, rhs))
    }

    fn strict_rem_int(self, rhs: T) -> Self {
        exact_number(rem_int_of(self.bits, rhs, F))
    }

    fn strict_rem_euclid_int(self, rhs: T) -> Self {
        exact_number(rem_euclid_int_of(self.bits, rhs, F))
    }

    fn strict_div_euclid_int(self, rhs: T) -> Self {
        exact_number(div_euclid_int_of(self.bits, rhs, F))
    }

    fn strict_sqrt(self) -> Self {
        exact_number(sqrt_of(self.bits, F))
    }

    fn strict_shl(self, rhs: u32) -> Self {
        self.unbounded_shl(rhs)
    }

    fn strict_shr(self, rhs: u32) -> Self {
        self.unbounded_shr(rhs)
    }
}

/// The `strict_` forms of signed numbers.
pub trait StrictSigned: Strict {
    /// Returns the magnitude. Precondition: it fits.
    fn strict_abs(self) -> Self
        requires { InRange Self.SIGNED Self.BITS (exact_abs (Self.number self)) }
        ensures { Self.number result ≡ exact_abs (Self.number self) };

    /// Returns the sign as a number: 1, 0 or -1. Precondition: it fits.
    fn strict_signum(self) -> Self
        requires fraction { Self.FRACTION ≤ Self.BITS }
        requires fits { InRange Self.SIGNED Self.BITS
            (exact_signum (Self.number self) Self.FRACTION) }
        ensures { Self.number result ≡ exact_signum (Self.number self) Self.FRACTION };

    /// Returns the sum with an unsigned number. Precondition: it fits.
    fn strict_add_unsigned(self, rhs: Self::Unsigned) -> Self
        requires { InRange Self.SIGNED Self.BITS
            (Self.number self +ℤ Self.Unsigned.number rhs) }
        ensures { Self.number result ≡ Self.number self +ℤ Self.Unsigned.number rhs };

    /// Returns the number minus an unsigned number. Precondition: it fits.
    fn strict_sub_unsigned(self, rhs: Self::Unsigned) -> Self
        requires { InRange Self.SIGNED Self.BITS
            (Self.number self -ℤ Self.Unsigned.number rhs) }
        ensures { Self.number result ≡ Self.number self -ℤ Self.Unsigned.number rhs };
}

impl<T: SignedWord, const F: u32> StrictSigned for Fixed<T, F> {
    fn strict_abs(self) -> Self {
        exact_number(abs_of(self.bits))
    }

    fn strict_signum(self) -> Self {
        exact_number(signum_of(self.bits, F))
    }

    fn strict_add_unsigned(self, rhs: Fixed<T::Unsigned, F>) -> Self {
        exact_number(mixed_add_of(self.bits, rhs.bits))
    }

    fn strict_sub_unsigned(self, rhs: Fixed<T::Unsigned, F>) -> Self {
        exact_number(mixed_sub_of(self.bits, rhs.bits))
    }
}

/// The `strict_` forms of unsigned numbers.
pub trait StrictUnsigned: Strict {
    /// Returns the least number, not below this one, whose bits are a power of two. Precondition: it fits.
    fn strict_next_power_of_two(self) -> Self
        requires { InRange Self.SIGNED Self.BITS (exact_next_power_of_two (Self.number self)) }
        ensures { Self.number result ≡ exact_next_power_of_two (Self.number self) };

    /// Returns the sum with a signed number. Precondition: it fits.
    fn strict_add_signed(self, rhs: Self::Signed) -> Self
        requires { InRange Self.SIGNED Self.BITS
            (Self.number self +ℤ Self.Signed.number rhs) }
        ensures { Self.number result ≡ Self.number self +ℤ Self.Signed.number rhs };

    /// Returns the number minus a signed number. Precondition: it fits.
    fn strict_sub_signed(self, rhs: Self::Signed) -> Self
        requires { InRange Self.SIGNED Self.BITS
            (Self.number self -ℤ Self.Signed.number rhs) }
        ensures { Self.number result ≡ Self.number self -ℤ Self.Signed.number rhs };
}

impl<T: UnsignedWord, const F: u32> StrictUnsigned for Fixed<T, F> {
    fn strict_next_power_of_two(self) -> Self {
        exact_number(next_power_of_two_of(self.bits))
    }

    fn strict_add_signed(self, rhs: Fixed<T::Signed, F>) -> Self {
        exact_number(mixed_add_of(self.bits, rhs.bits))
    }

    fn strict_sub_signed(self, rhs: Fixed<T::Signed, F>) -> Self {
        exact_number(mixed_sub_of(self.bits, rhs.bits))
    }
}
