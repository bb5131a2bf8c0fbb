//! The `saturating_` calls with a named rounding. `fixed` does not have them.

ghost use Rattle.std.specs.Prelude.{◌≡◌, ◌≤◌, ◌≢◌, pos, Some};
ghost use Rattle.fixed_word.specs.Policies.{saturating};
ghost use Rattle.fixed_kernel.specs.Rounded.{rounded};
ghost use Rattle.fixed_kernel.specs.RoundedRows.{rounded_div, rounded_mul, rounded_recip};

use fixed_kernel::{div_int_round_of, div_round_of, mul_round_of, recip_round_of};
use fixed_num::{Fixed, Held, Number, saturating_number};
use fixed_word::{RawWord, Rounding, Word};

/// The `saturating_` calls that round as the caller names. If the exact result does not fit, they return the nearest
/// number that fits. Results are in units of `2^-F`, and integer operands are whole numbers. Precondition of each
/// call that uses F: F is at most the width.
pub trait SaturatingRounded: Number {
    /// Returns the product, rounded as named and saturated.
    fn saturating_mul_round(self, rhs: Self, rounding: Rounding) -> Self
        requires { Self.FRACTION ≤ Self.BITS }
        ensures { Some (Self.number result) ≡ saturating Self.SIGNED Self.BITS
            (Some (rounded_mul (Self.number self) (Self.number rhs) Self.FRACTION rounding)) };

    /// Returns the quotient, rounded as named and saturated. Precondition: the divisor is not 0.
    fn saturating_div_round(self, rhs: Self, rounding: Rounding) -> Self
        requires fraction { Self.FRACTION ≤ Self.BITS }
        requires divisor { Self.number rhs ≢ pos 0 }
        ensures { Some (Self.number result) ≡ saturating Self.SIGNED Self.BITS
            (Some (rounded_div (Self.number self) (Self.number rhs) Self.FRACTION rounding)) };

    /// Returns 1 over the number, rounded as named and saturated. Precondition: the number is not 0.
    fn saturating_recip_round(self, rounding: Rounding) -> Self
        requires fraction { Self.FRACTION ≤ Self.BITS }
        requires divisor { Self.number self ≢ pos 0 }
        ensures { Some (Self.number result) ≡ saturating Self.SIGNED Self.BITS
            (Some (rounded_recip (Self.number self) Self.FRACTION rounding)) };

    /// Returns the quotient by an integer, rounded as named and saturated. Precondition: the divisor is not 0.
    fn saturating_div_int_round(self, rhs: Self::Bits, rounding: Rounding) -> Self
        requires { Self.Bits.value rhs ≢ pos 0 }
        ensures { Some (Self.number result) ≡ saturating Self.SIGNED Self.BITS
            (Some (rounded (Self.number self) (Self.Bits.value rhs) rounding)) };
}

impl<T: Word, const F: u32> SaturatingRounded for Fixed<T, F> {
    fn saturating_mul_round(self, rhs: Self, rounding: Rounding) -> Self {
        saturating_number(mul_round_of(self.bits, rhs.bits, F, rounding))
    }

    fn saturating_div_round(self, rhs: Self, rounding: Rounding) -> Self {
        saturating_number(div_round_of(self.bits, rhs.bits, F, rounding))
    }

    fn saturating_recip_round(self, rounding: Rounding) -> Self {
        saturating_number(recip_round_of(self.bits, F, rounding))
    }

    fn saturating_div_int_round(self, rhs: Self::Bits, rounding: Rounding) -> Self {
        saturating_number(div_int_round_of(self.bits, rhs, rounding))
    }
}
