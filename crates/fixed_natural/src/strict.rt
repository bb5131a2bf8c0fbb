//! The `strict_` calls of logarithms and powers. The Rust crate `fixed` does not have them.

ghost use Rattle.std.specs.Prelude.{◌≤◌, ◌<ℤ◌, ℤ, pos};
ghost use Rattle.fixed_word.specs.Format.{InRange};
ghost use Rattle.fixed_natural.specs.Exps.{IsExp};
ghost use Rattle.fixed_natural.specs.Logs.{IsLn, IsLog10, log_room};
ghost use Rattle.fixed_natural.specs.Pows.{IsPow};

use crate::exponentials::exp_of;
use crate::logarithms::{ln_of, log10_of};
use crate::powers::pow_of;
use fixed_num::{Fixed, Held, Number, exact_number};
use fixed_word::{RawWord, Word};

/// The `strict_` calls of logarithms and powers. Preconditions of each call: the result fits, and F is at most the
/// width. Operands and results are in units of `2^-F`.
pub trait StrictNatural: Number {
    /// Returns the natural logarithm, rounded down. Precondition: the number is above 0.
    ///
    /// For the result r and the exact logarithm l in units, `r - 2^-k <= l < r + 1`, where k is 24 on words of up to 32
    /// bits and 32 on words of 64 bits. So r is the logarithm rounded down, or one unit more if l is at most `2^-k`
    /// below a whole number. The logarithm of 1 is exactly 0. Precondition: every r that these statements allow fits.
    fn strict_ln(self) -> Self
        requires fraction { Self.FRACTION ≤ Self.BITS }
        requires positive { pos 0 <ℤ Self.number self }
        requires fits { (r : ℤ) → IsLn (log_room Self.BITS) (Self.number self) Self.FRACTION r
            → InRange Self.SIGNED Self.BITS r }
        ensures { IsLn (log_room Self.BITS) (Self.number self) Self.FRACTION (Self.number result) };

    /// Returns the logarithm to the base 10, rounded down. Precondition: the number is above 0.
    ///
    /// For the result r and the exact logarithm l in units, `r - 2^-k <= l < r + 1`, where k is 24 on words of up to 32
    /// bits and 32 on words of 64 bits. So r is the logarithm rounded down, or one unit more if l is at most `2^-k`
    /// below a whole number. The logarithm of a power of 10 is exact. Precondition: every r that these statements allow
    /// fits.
    fn strict_log10(self) -> Self
        requires fraction { Self.FRACTION ≤ Self.BITS }
        requires positive { pos 0 <ℤ Self.number self }
        requires fits { (r : ℤ) → IsLog10 (log_room Self.BITS) (Self.number self) Self.FRACTION r
            → InRange Self.SIGNED Self.BITS r }
        ensures { IsLog10 (log_room Self.BITS) (Self.number self) Self.FRACTION (Self.number result) };

    /// Returns e to the power of the number, rounded down.
    ///
    /// For the result r and the exact power p in units, `r <= p 2^(2^-61)` and `p < r + 1`. On words of up to 32 bits,
    /// r is the power rounded down, or one unit more if p is less than `2^-29` below a whole number. On words of 64
    /// bits, r is at most 6 units more than the power rounded down. e to the power of 0 is exactly 1. Precondition:
    /// every r that these statements allow fits.
    fn strict_exp(self) -> Self
        requires fraction { Self.FRACTION ≤ Self.BITS }
        requires fits { (r : ℤ) → IsExp (Self.number self) Self.FRACTION r
            → InRange Self.SIGNED Self.BITS r }
        ensures { IsExp (Self.number self) Self.FRACTION (Self.number result) };

    /// Returns the number to the power of `exponent`, rounded down. Precondition: the number is above 0.
    ///
    /// For the result r and the exact power p in units, `r <= p 2^(2^-55)` and `p < r + 1`. On words of up to 32 bits,
    /// r is the power rounded down, or one unit more if p is less than `2^-23` below a whole number. On words of 64
    /// bits, r is at most 355 units more than the power rounded down. A power that is a whole number of up to `2^54`
    /// units is exact. Precondition: every r that these statements allow fits.
    fn strict_pow(self, exponent: Self) -> Self
        requires fraction { Self.FRACTION ≤ Self.BITS }
        requires positive { pos 0 <ℤ Self.number self }
        requires fits { (r : ℤ) → IsPow (Self.number self) (Self.number exponent) Self.FRACTION r
            → InRange Self.SIGNED Self.BITS r }
        ensures { IsPow (Self.number self) (Self.number exponent) Self.FRACTION (Self.number result) };
}

impl<T: Word, const F: u32> StrictNatural for Fixed<T, F> {
    fn strict_ln(self) -> Self {
        exact_number(ln_of(self.bits, F))
    }

    fn strict_log10(self) -> Self {
        exact_number(log10_of(self.bits, F))
    }

    fn strict_exp(self) -> Self {
        exact_number(exp_of(self.bits, F))
    }

    fn strict_pow(self, exponent: Self) -> Self {
        exact_number(pow_of(self.bits, exponent.bits, F))
    }
}
