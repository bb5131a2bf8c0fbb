//! The `saturating_` calls of logarithms and powers. The Rust crate `fixed` does not have them.

ghost use Rattle.std.specs.Prelude.{◌≡◌, ◌≤◌, ◌<ℤ◌, ℤ, Some, pos};
ghost use Rattle.fixed_word.specs.Policies.{saturating};
ghost use Rattle.fixed_natural.specs.Exps.{IsExp};
ghost use Rattle.fixed_natural.specs.Logs.{IsLn, IsLog10, log_room};
ghost use Rattle.fixed_natural.specs.Pows.{IsPow};

use crate::exponentials::exp_of;
use crate::logarithms::{ln_of, log10_of};
use crate::powers::pow_of;
use fixed_num::{Fixed, Held, Number, saturating_number};
use fixed_word::{RawWord, Word};

/// The `saturating_` calls of logarithms and powers. If the result does not fit, they return the nearest number that
/// does. Operands and results are in units of `2^-F`. Precondition of each call: F is at most the width.
pub trait SaturatingNatural: Number {
    /// Returns the natural logarithm, rounded down, or the nearest number if it does not fit. Precondition: the number
    /// is above 0.
    ///
    /// If the result r fits, then for the exact logarithm l in units, `r - 2^-k <= l < r + 1`, where k is 24 on words
    /// of up to 32 bits and 32 on words of 64 bits. So r is the logarithm rounded down, or one unit more if l is at
    /// most `2^-k` below a whole number. The logarithm of 1 is exactly 0.
    fn saturating_ln(self) -> Self
        requires fraction { Self.FRACTION ≤ Self.BITS }
        requires positive { pos 0 <ℤ Self.number self }
        ensures { (r : ℤ) × IsLn (log_room Self.BITS) (Self.number self) Self.FRACTION r
            × (Some (Self.number result) ≡ saturating Self.SIGNED Self.BITS (Some r)) };

    /// Returns the logarithm to the base 10, rounded down, or the nearest number if it does not fit. Precondition: the
    /// number is above 0.
    ///
    /// If the result r fits, then for the exact logarithm l in units, `r - 2^-k <= l < r + 1`, where k is 24 on words
    /// of up to 32 bits and 32 on words of 64 bits. So r is the logarithm rounded down, or one unit more if l is at
    /// most `2^-k` below a whole number. The logarithm of a power of 10 is exact.
    fn saturating_log10(self) -> Self
        requires fraction { Self.FRACTION ≤ Self.BITS }
        requires positive { pos 0 <ℤ Self.number self }
        ensures { (r : ℤ) × IsLog10 (log_room Self.BITS) (Self.number self) Self.FRACTION r
            × (Some (Self.number result) ≡ saturating Self.SIGNED Self.BITS (Some r)) };

    /// Returns e to the power of the number, rounded down, or the largest number if it does not fit.
    ///
    /// If the result r fits, then for the exact power p in units, `r <= p 2^(2^-61)` and `p < r + 1`. On words of up to
    /// 32 bits, r is the power rounded down, or one unit more if p is less than `2^-29` below a whole number. On words
    /// of 64 bits, r is at most 6 units more than the power rounded down. e to the power of 0 is exactly 1.
    fn saturating_exp(self) -> Self
        requires { Self.FRACTION ≤ Self.BITS }
        ensures { (r : ℤ) × IsExp (Self.number self) Self.FRACTION r
            × (Some (Self.number result) ≡ saturating Self.SIGNED Self.BITS (Some r)) };

    /// Returns the number to the power of `exponent`, rounded down, or the largest number if it does not fit.
    /// Precondition: the number is above 0.
    ///
    /// If the result r fits, then for the exact power p in units, `r <= p 2^(2^-55)` and `p < r + 1`. On words of up to
    /// 32 bits, r is the power rounded down, or one unit more if p is less than `2^-23` below a whole number. On words
    /// of 64 bits, r is at most 355 units more than the power rounded down. A power that is a whole number of up to
    /// `2^54` units is exact.
    fn saturating_pow(self, exponent: Self) -> Self
        requires fraction { Self.FRACTION ≤ Self.BITS }
        requires positive { pos 0 <ℤ Self.number self }
        ensures { (r : ℤ) × IsPow (Self.number self) (Self.number exponent) Self.FRACTION r
            × (Some (Self.number result) ≡ saturating Self.SIGNED Self.BITS (Some r)) };
}

impl<T: Word, const F: u32> SaturatingNatural for Fixed<T, F> {
    fn saturating_ln(self) -> Self {
        saturating_number(ln_of(self.bits, F))
    }

    fn saturating_log10(self) -> Self {
        saturating_number(log10_of(self.bits, F))
    }

    fn saturating_exp(self) -> Self {
        saturating_number(exp_of(self.bits, F))
    }

    fn saturating_pow(self, exponent: Self) -> Self {
        saturating_number(pow_of(self.bits, exponent.bits, F))
    }
}
