//! Operations that return `None` if the exact result does not fit.

ghost use Rattle.std.specs.Prelude.{◌<◌, ◌%◌, ◌^◌, ◌*ℤ◌, ◌↔◌, IsNone, ◌≡◌, ◌≤◌, ◌≢◌, ◌≤ℤ◌, pos, Some, option_map, neg_ℤ, ◌+ℤ◌, ◌-ℤ◌};
ghost use Rattle.fixed_word.specs.Format.{wrap};
ghost use Rattle.fixed_word.specs.Policies.{checked};
ghost use Rattle.fixed_word.specs.Quotient.{euclidean_remainder, floor_quotient, truncated_quotient};
ghost use Rattle.fixed_kernel.specs.Root.{root_of};
ghost use Rattle.fixed_kernel.specs.Rows.{by_divisor, by_sign, exact_abs, exact_div, exact_div_euclid, exact_mul, exact_next_multiple_of, exact_next_power_of_two, exact_recip, exact_rem, exact_signum, units};

use fixed_kernel::{
    abs_of, add_of, dist_of, div_euclid_int_of, div_euclid_of, div_int_of, div_of, mixed_add_of,
    mixed_sub_of, mul_int_of, mul_of, neg_of, next_multiple_of_of, next_power_of_two_of, recip_of,
    rem_euclid_int_of, rem_euclid_of, rem_int_of, rem_of, signum_of, sqrt_of, sub_of,
};
use fixed_num::{Fixed, Held, Number, checked_number};
use fixed_word::{RawWord, SignedWord, UnsignedWord, Word};

/// The `checked_` forms of all numbers. If the exact result does not fit, they return `None`. Results are in units of
/// `2^-F`, and integer operands are whole numbers. Precondition of each call that uses F: F is at most the width.
pub trait Checked: Number {
    /// Returns the negated number, or `None` if it does not fit.
    fn checked_neg(self) -> Option<Self>
        ensures { option_map Self.number result
            ≡ checked Self.SIGNED Self.BITS (Some (neg_ℤ (Self.number self))) };

    /// Returns the sum, or `None` if it does not fit.
    fn checked_add(self, rhs: Self) -> Option<Self>
        ensures { option_map Self.number result ≡ checked Self.SIGNED Self.BITS
            (Some (Self.number self +ℤ Self.number rhs)) };

    /// Returns the difference, or `None` if it does not fit.
    fn checked_sub(self, rhs: Self) -> Option<Self>
        ensures { option_map Self.number result ≡ checked Self.SIGNED Self.BITS
            (Some (Self.number self -ℤ Self.number rhs)) };

    /// Returns the product, rounded down, or `None` if it does not fit.
    fn checked_mul(self, rhs: Self) -> Option<Self>
        requires { Self.FRACTION ≤ Self.BITS }
        ensures { option_map Self.number result ≡ checked Self.SIGNED Self.BITS
            (Some (exact_mul (Self.number self) (Self.number rhs) Self.FRACTION)) };

    /// Returns the quotient, rounded toward zero, or `None` if the divisor is 0 or the result does not fit.
    fn checked_div(self, rhs: Self) -> Option<Self>
        requires { Self.FRACTION ≤ Self.BITS }
        ensures { option_map Self.number result ≡ checked Self.SIGNED Self.BITS
            (by_divisor (Self.number rhs) (exact_div (Self.number self) (Self.number rhs) Self.FRACTION)) };

    /// Returns 1 over the number, rounded toward zero, or `None` if the number is 0 or the result does not fit.
    fn checked_recip(self) -> Option<Self>
        requires { Self.FRACTION ≤ Self.BITS }
        ensures { option_map Self.number result ≡ checked Self.SIGNED Self.BITS
            (by_divisor (Self.number self) (exact_recip (Self.number self) Self.FRACTION)) };

    /// Returns the remainder of the quotient that is rounded toward zero, or `None` if the divisor is 0. The
    /// remainder always fits.
    fn checked_rem(self, rhs: Self) -> Option<Self>
        ensures { option_map Self.number result ≡ checked Self.SIGNED Self.BITS
            (by_divisor (Self.number rhs) (exact_rem (Self.number self) (Self.number rhs))) };

    /// Returns the Euclidean remainder, which is at least 0, or `None` if the divisor is 0. The remainder always
    /// fits.
    fn checked_rem_euclid(self, rhs: Self) -> Option<Self>
        ensures { option_map Self.number result ≡ checked Self.SIGNED Self.BITS
            (by_divisor (Self.number rhs) (euclidean_remainder (Self.number self) (Self.number rhs))) };

    /// Returns the Euclidean quotient, which is a whole number, or `None` if the divisor is 0 or the result does not
    /// fit.
    fn checked_div_euclid(self, rhs: Self) -> Option<Self>
        requires { Self.FRACTION ≤ Self.BITS }
        ensures { option_map Self.number result ≡ checked Self.SIGNED Self.BITS
            (by_divisor (Self.number rhs)
            (exact_div_euclid (Self.number self) (Self.number rhs) Self.FRACTION)) };

    /// Returns the distance between the numbers, or `None` if it does not fit.
    fn checked_dist(self, other: Self) -> Option<Self>
        ensures { option_map Self.number result ≡ checked Self.SIGNED Self.BITS
            (Some (exact_abs (Self.number self -ℤ Self.number other))) };

    /// Returns the next multiple of `other`, upward if `other` is positive and downward if it is negative, or `None`
    /// if `other` is 0 or the result does not fit.
    fn checked_next_multiple_of(self, other: Self) -> Option<Self>
        ensures { option_map Self.number result ≡ checked Self.SIGNED Self.BITS
            (by_divisor (Self.number other) (exact_next_multiple_of (Self.number self) (Self.number other))) };

    /// Returns the product by an integer, or `None` if it does not fit.
    fn checked_mul_int(self, rhs: Self::Bits) -> Option<Self>
        ensures { option_map Self.number result ≡ checked Self.SIGNED Self.BITS
            (Some (Self.number self *ℤ Self.Bits.value rhs)) };

    /// Returns the quotient by an integer, rounded toward zero, or `None` if the divisor is 0 or the result does not
    /// fit.
    fn checked_div_int(self, rhs: Self::Bits) -> Option<Self>
        ensures { option_map Self.number result ≡ checked Self.SIGNED Self.BITS
            (by_divisor (Self.Bits.value rhs) (truncated_quotient (Self.number self) (Self.Bits.value rhs))) };

    /// Returns the remainder by an integer, of the quotient that is rounded toward zero, or `None` if the divisor is
    /// 0. The remainder always fits.
    fn checked_rem_int(self, rhs: Self::Bits) -> Option<Self>
        requires { Self.FRACTION ≤ Self.BITS }
        ensures { option_map Self.number result ≡ checked Self.SIGNED Self.BITS
            (by_divisor (Self.Bits.value rhs)
            (exact_rem (Self.number self) (units (Self.Bits.value rhs) Self.FRACTION))) };

    /// Returns the Euclidean remainder by an integer, or `None` if the divisor is 0 or the result does not fit.
    fn checked_rem_euclid_int(self, rhs: Self::Bits) -> Option<Self>
        requires { Self.FRACTION ≤ Self.BITS }
        ensures { option_map Self.number result ≡ checked Self.SIGNED Self.BITS
            (by_divisor (Self.Bits.value rhs)
            (euclidean_remainder (Self.number self) (units (Self.Bits.value rhs) Self.FRACTION))) };

    /// Returns the Euclidean quotient by an integer, which is a whole number, or `None` if the divisor is 0 or the
    /// result does not fit.
    fn checked_div_euclid_int(self, rhs: Self::Bits) -> Option<Self>
        requires { Self.FRACTION ≤ Self.BITS }
        ensures { option_map Self.number result ≡ checked Self.SIGNED Self.BITS
            (by_divisor (Self.Bits.value rhs)
            (exact_div_euclid (Self.number self) (units (Self.Bits.value rhs) Self.FRACTION) Self.FRACTION)) };

    /// Returns the square root, rounded down, or `None` if the number is negative or the root does not fit.
    fn checked_sqrt(self) -> Option<Self>
        requires { Self.FRACTION ≤ Self.BITS }
        ensures { option_map Self.number result ≡ checked Self.SIGNED Self.BITS
            (by_sign (Self.number self) (root_of (Self.number self) Self.FRACTION)) };

    /// Returns the bits shifted left by `rhs`; bits shifted out are lost. Returns `None` if `rhs` is the width or
    /// more.
    fn checked_shl(self, rhs: u32) -> Option<Self>
        ensures some { rhs < Self.BITS → option_map Self.number result ≡ Some
            (wrap Self.SIGNED Self.BITS (Self.number self *ℤ pos (2 ^ rhs))) }
        ensures none { IsNone result ↔ (Self.BITS ≤ rhs) };

    /// Returns the bits shifted right by `rhs`, rounded down. Returns `None` if `rhs` is the width or more.
    fn checked_shr(self, rhs: u32) -> Option<Self>
        ensures some { rhs < Self.BITS
            → option_map Self.number result ≡ Some (floor_quotient (Self.number self) (2 ^ rhs)) }
        ensures none { IsNone result ↔ (Self.BITS ≤ rhs) };
}

impl<T: Word, const F: u32> Checked for Fixed<T, F> {
    fn checked_neg(self) -> Option<Self> {
        checked_number(neg_of(self.bits))
    }

    fn checked_add(self, rhs: Self) -> Option<Self> {
        checked_number(add_of(self.bits, rhs.bits))
    }

    fn checked_sub(self, rhs: Self) -> Option<Self> {
        checked_number(sub_of(self.bits, rhs.bits))
    }

    fn checked_mul(self, rhs: Self) -> Option<Self> {
        checked_number(mul_of(self.bits, rhs.bits, F))
    }

    fn checked_div(self, rhs: Self) -> Option<Self> {
        if rhs.bits == T::ZERO {
            return None;
        }
        checked_number(div_of(self.bits, rhs.bits, F))
    }

    fn checked_recip(self) -> Option<Self> {
        if self.bits == T::ZERO {
            return None;
        }
        checked_number(recip_of(self.bits, F))
    }

    fn checked_rem(self, rhs: Self) -> Option<Self> {
        if rhs.bits == T::ZERO {
            return None;
        }
        checked_number(rem_of(self.bits, rhs.bits))
    }

    fn checked_rem_euclid(self, rhs: Self) -> Option<Self> {
        if rhs.bits == T::ZERO {
            return None;
        }
        checked_number(rem_euclid_of(self.bits, rhs.bits))
    }

    fn checked_div_euclid(self, rhs: Self) -> Option<Self> {
        if rhs.bits == T::ZERO {
            return None;
        }
        checked_number(div_euclid_of(self.bits, rhs.bits, F))
    }

    fn checked_dist(self, other: Self) -> Option<Self> {
        checked_number(dist_of(self.bits, other.bits))
    }

    fn checked_next_multiple_of(self, other: Self) -> Option<Self> {
        if other.bits == T::ZERO {
            return None;
        }
        checked_number(next_multiple_of_of(self.bits, other.bits))
    }

    fn checked_mul_int(self, rhs: T) -> Option<Self> {
        checked_number(mul_int_of(self.bits, rhs))
    }

    fn checked_div_int(self, rhs: T) -> Option<Self> {
        if rhs == T::ZERO {
            return None;
        }
        checked_number(div_int_of(self.bits, rhs))
    }

    fn checked_rem_int(self, rhs: T) -> Option<Self> {
        if rhs == T::ZERO {
            return None;
        }
        checked_number(rem_int_of(self.bits, rhs, F))
    }

    fn checked_rem_euclid_int(self, rhs: T) -> Option<Self> {
        if rhs == T::ZERO {
            return None;
        }
        checked_number(rem_euclid_int_of(self.bits, rhs, F))
    }

    fn checked_div_euclid_int(self, rhs: T) -> Option<Self> {
        if rhs == T::ZERO {
            return None;
        }
        checked_number(div_euclid_int_of(self.bits, rhs, F))
    }

    fn checked_sqrt(self) -> Option<Self> {
        if self.bits.is_below_zero() {
            return None;
        }
        checked_number(sqrt_of(self.bits, F))
    }

    fn checked_shl(self, rhs: u32) -> Option<Self> {
        if rhs < T::BITS {
            Some(self.unbounded_shl(rhs))
        } else {
            None
        }
    }

    fn checked_shr(self, rhs: u32) -> Option<Self> {
        if rhs < T::BITS {
            Some(self.unbounded_shr(rhs))
        } else {
            None
        }
    }
}

/// The `checked_` forms of signed numbers.
pub trait CheckedSigned: Checked {
    /// Returns the magnitude, or `None` if it does not fit.
    fn checked_abs(self) -> Option<Self>
        ensures { option_map Self.number result
            ≡ checked Self.SIGNED Self.BITS (Some (exact_abs (Self.number self))) };

    /// Returns the sign as a number: 1, 0 or -1, or `None` if it does not fit.
    fn checked_signum(self) -> Option<Self>
        requires { Self.FRACTION ≤ Self.BITS }
        ensures { option_map Self.number result ≡ checked Self.SIGNED Self.BITS
            (Some (exact_signum (Self.number self) Self.FRACTION)) };

    /// Returns the sum with an unsigned number, or `None` if it does not fit.
    fn checked_add_unsigned(self, rhs: Self::Unsigned) -> Option<Self>
        ensures { option_map Self.number result ≡ checked Self.SIGNED Self.BITS
            (Some (Self.number self +ℤ Self.Unsigned.number rhs)) };

    /// Returns the number minus an unsigned number, or `None` if it does not fit.
    fn checked_sub_unsigned(self, rhs: Self::Unsigned) -> Option<Self>
        ensures { option_map Self.number result ≡ checked Self.SIGNED Self.BITS
            (Some (Self.number self -ℤ Self.Unsigned.number rhs)) };
}

impl<T: SignedWord, const F: u32> CheckedSigned for Fixed<T, F> {
    fn checked_abs(self) -> Option<Self> {
        checked_number(abs_of(self.bits))
    }

    fn checked_signum(self) -> Option<Self> {
        checked_number(signum_of(self.bits, F))
    }

    fn checked_add_unsigned(self, rhs: Fixed<T::Unsigned, F>) -> Option<Self> {
        checked_number(mixed_add_of(self.bits, rhs.bits))
    }

    fn checked_sub_unsigned(self, rhs: Fixed<T::Unsigned, F>) -> Option<Self> {
        checked_number(mixed_sub_of(self.bits, rhs.bits))
    }
}

/// The `checked_` forms of unsigned numbers.
pub trait CheckedUnsigned: Checked {
    /// Returns the least number, not below this one, whose bits are a power of two, or `None` if it does not fit.
    fn checked_next_power_of_two(self) -> Option<Self>
        ensures { option_map Self.number result
            ≡ checked Self.SIGNED Self.BITS (Some (exact_next_power_of_two (Self.number self))) };

    /// Returns the sum with a signed number, or `None` if it does not fit.
    fn checked_add_signed(self, rhs: Self::Signed) -> Option<Self>
        ensures { option_map Self.number result ≡ checked Self.SIGNED Self.BITS
            (Some (Self.number self +ℤ Self.Signed.number rhs)) };

    /// Returns the number minus a signed number, or `None` if it does not fit.
    fn checked_sub_signed(self, rhs: Self::Signed) -> Option<Self>
        ensures { option_map Self.number result ≡ checked Self.SIGNED Self.BITS
            (Some (Self.number self -ℤ Self.Signed.number rhs)) };
}

impl<T: UnsignedWord, const F: u32> CheckedUnsigned for Fixed<T, F> {
    fn checked_next_power_of_two(self) -> Option<Self> {
        checked_number(next_power_of_two_of(self.bits))
    }

    fn checked_add_signed(self, rhs: Fixed<T::Signed, F>) -> Option<Self> {
        checked_number(mixed_add_of(self.bits, rhs.bits))
    }

    fn checked_sub_signed(self, rhs: Fixed<T::Signed, F>) -> Option<Self> {
        checked_number(mixed_sub_of(self.bits, rhs.bits))
    }
}
