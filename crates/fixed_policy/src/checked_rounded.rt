//! The `checked_` calls with a named rounding. `fixed` does not have them.

ghost use Rattle.std.specs.Prelude.{◌≡◌, ◌≤◌, Some, option_map};
ghost use Rattle.fixed_word.specs.Policies.{checked};
ghost use Rattle.fixed_kernel.specs.Rounded.{rounded};
ghost use Rattle.fixed_kernel.specs.RoundedRows.{rounded_div, rounded_mul, rounded_recip};
ghost use Rattle.fixed_kernel.specs.Rows.{by_divisor};

use fixed_kernel::{div_int_round_of, div_round_of, mul_round_of, recip_round_of};
use fixed_num::{Fixed, Held, Number, checked_number};
use fixed_word::{RawWord, Rounding, Word};

/// The `checked_` calls that round as the caller names. If the exact result does not fit, they return `None`. Results
/// are in units of `2^-F`, and integer operands are whole numbers. Precondition of each call that uses F: F is at
/// most the width.
pub trait CheckedRounded: Number {
    /// Returns the product, rounded as named, or `None` if it does not fit.
    fn checked_mul_round(self, rhs: Self, rounding: Rounding) -> Option<Self>
        requires { Self.FRACTION ≤ Self.BITS }
        ensures { option_map Self.number result ≡ checked Self.SIGNED Self.BITS
            (Some (rounded_mul (Self.number self) (Self.number rhs) Self.FRACTION rounding)) };

    /// Returns the quotient, rounded as named, or `None` if the divisor is 0 or the result does not fit.
    fn checked_div_round(self, rhs: Self, rounding: Rounding) -> Option<Self>
        requires { Self.FRACTION ≤ Self.BITS }
        ensures { option_map Self.number result ≡ checked Self.SIGNED Self.BITS
            (by_divisor (Self.number rhs)
            (rounded_div (Self.number self) (Self.number rhs) Self.FRACTION rounding)) };

    /// Returns 1 over the number, rounded as named, or `None` if the number is 0 or the result does not fit.
    fn checked_recip_round(self, rounding: Rounding) -> Option<Self>
        requires { Self.FRACTION ≤ Self.BITS }
        ensures { option_map Self.number result ≡ checked Self.SIGNED Self.BITS
            (by_divisor (Self.number self) (rounded_recip (Self.number self) Self.FRACTION rounding)) };

    /// Returns the quotient by an integer, rounded as named, or `None` if the divisor is 0 or the result does not
    /// fit.
    fn checked_div_int_round(self, rhs: Self::Bits, rounding: Rounding) -> Option<Self>
        ensures { option_map Self.number result ≡ checked Self.SIGNED Self.BITS
            (by_divisor (Self.Bits.value rhs) (rounded (Self.number self) (Self.Bits.value rhs) rounding)) };
}

impl<T: Word, const F: u32> CheckedRounded for Fixed<T, F> {
    fn checked_mul_round(self, rhs: Self, rounding: Rounding) -> Option<Self> {
        checked_number(mul_round_of(self.bits, rhs.bits, F, rounding))
    }

    fn checked_div_round(self, rhs: Self, rounding: Rounding) -> Option<Self> {
        if rhs.bits == T::ZERO {
            return None;
        }
        checked_number(div_round_of(self.bits, rhs.bits, F, rounding))
    }

    fn checked_recip_round(self, rounding: Rounding) -> Option<Self> {
        if self.bits == T::ZERO {
            return None;
        }
        checked_number(recip_round_of(self.bits, F, rounding))
    }

    fn checked_div_int_round(self, rhs: Self::Bits, rounding: Rounding) -> Option<Self> {
        if rhs == T::ZERO {
            return None;
        }
        checked_number(div_int_round_of(self.bits, rhs, rounding))
    }
}
