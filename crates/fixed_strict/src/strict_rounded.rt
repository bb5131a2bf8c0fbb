//! The `strict_` calls with a named rounding. `fixed` does not have them.

ghost use Rattle.std.specs.Prelude.{◌≡◌, ◌≤◌, ◌≢◌, pos};
ghost use Rattle.fixed_word.specs.Format.{InRange};
ghost use Rattle.fixed_kernel.specs.Rounded.{rounded};
ghost use Rattle.fixed_kernel.specs.RoundedRows.{rounded_div, rounded_mul, rounded_recip};

use fixed_kernel::{div_int_round_of, div_round_of, mul_round_of, recip_round_of};
use fixed_num::{Fixed, Held, Number, exact_number};
use fixed_word::{RawWord, Rounding, Word};

/// The `strict_` calls that round as the caller names. Precondition of each call: the exact result fits. Results are
/// in units of `2^-F`, and integer operands are whole numbers. Precondition of each call that uses F: F is at most
/// the width.
pub trait StrictRounded: Number {
    /// Returns the product, rounded as named. Precondition: it fits.
    fn strict_mul_round(self, rhs: Self, rounding: Rounding) -> Self
        requires fraction { Self.FRACTION ≤ Self.BITS }
        requires fits { InRange Self.SIGNED Self.BITS
            (rounded_mul (Self.number self) (Self.number rhs) Self.FRACTION rounding) }
        ensures { Self.number result
            ≡ rounded_mul (Self.number self) (Self.number rhs) Self.FRACTION rounding };

    /// Returns the quotient, rounded as named. Preconditions: the divisor is not 0, and the result fits.
    fn strict_div_round(self, rhs: Self, rounding: Rounding) -> Self
        requires fraction { Self.FRACTION ≤ Self.BITS }
        requires divisor { Self.number rhs ≢ pos 0 }
        requires fits { InRange Self.SIGNED Self.BITS
            (rounded_div (Self.number self) (Self.number rhs) Self.FRACTION rounding) }
        ensures { Self.number result
            ≡ rounded_div (Self.number self) (Self.number rhs) Self.FRACTION rounding };

    /// Returns 1 over the number, rounded as named. Preconditions: the number is not 0, and the result fits.
    fn strict_recip_round(self, rounding: Rounding) -> Self
        requires fraction { Self.FRACTION ≤ Self.BITS }
        requires divisor { Self.number self ≢ pos 0 }
        requires fits { InRange Self.SIGNED Self.BITS
            (rounded_recip (Self.number self) Self.FRACTION rounding) }
        ensures { Self.number result
            ≡ rounded_recip (Self.number self) Self.FRACTION rounding };

    /// Returns the quotient by an integer, rounded as named. Preconditions: the divisor is not 0, and the result
    /// fits.
    fn strict_div_int_round(self, rhs: Self::Bits, rounding: Rounding) -> Self
        requires divisor { Self.Bits.value rhs ≢ pos 0 }
        requires fits { InRange Self.SIGNED Self.BITS
            (rounded (Self.number self) (Self.Bits.value rhs) rounding) }
        ensures { Self.number result
            ≡ rounded (Self.number self) (Self.Bits.value rhs) rounding };
}

impl<T: Word, const F: u32> StrictRounded for Fixed<T, F> {
    fn strict_mul_round(self, rhs: Self, rounding: Rounding) -> Self {
        exact_number(mul_round_of(self.bits, rhs.bits, F, rounding))
    }

    fn strict_div_round(self, rhs: Self, rounding: Rounding) -> Self {
        exact_number(div_round_of(self.bits, rhs.bits, F, rounding))
    }

    fn strict_recip_round(self, rounding: Rounding) -> Self {
        exact_number(recip_round_of(self.bits, F, rounding))
    }

    fn strict_div_int_round(self, rhs: Self::Bits, rounding: Rounding) -> Self {
        exact_number(div_int_round_of(self.bits, rhs, rounding))
    }
}
