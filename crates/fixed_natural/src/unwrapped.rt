//! The `unwrapped_` calls of logarithms and powers. The Rust crate `fixed` does not have them.

ghost use Rattle.std.specs.Prelude.{◌≤◌, ◌<ℤ◌, ℤ, pos};
ghost use Rattle.fixed_word.specs.Format.{InRange};
ghost use Rattle.fixed_natural.specs.Exps.{IsExp};
ghost use Rattle.fixed_natural.specs.Logs.{IsLn, IsLog10, log_room};
ghost use Rattle.fixed_natural.specs.Pows.{IsPow};

use crate::strict::StrictNatural;
use fixed_num::{Fixed, Held, Number};
use fixed_word::{RawWord, Word};

/// The `unwrapped_` calls of logarithms and powers. Preconditions of each call: the result fits, and F is at most the
/// width. Operands and results are in units of `2^-F`.
pub trait UnwrappedNatural: Number {
    /// Returns the natural logarithm, rounded down. Precondition: the number is above 0.
    ///
    /// For the result r and the exact logarithm l in units, `r - 2^-k <= l < r + 1`, where k is 24 on words of up to 32
    /// bits and 32 on words of 64 bits. So r is the logarithm rounded down, or one unit more if l is at most `2^-k`
    /// below a whole number. The logarithm of 1 is exactly 0. Precondition: every r that these statements allow fits.
    fn unwrapped_ln(self) -> Self
        requires fraction { Self.FRACTION ≤ Self.BITS }
        requires positive { pos 0 <ℤ Self.number self }
        requires fits { (r : ℤ) → IsLn (log_room Self.BITS) (Self.number self) Self.FRACTION r
            → InRange Self.SIGNED Self.BITS r }
        ensures { IsLn (log_room Self.BITS) (Self.number self) Self.FRACTION (Self.number result) };

    /// Returns the logarithm to the base 10, rounded down. Precondition: the number is above 0.
    ///
    /// For the result r and the exact logarithm l in units, `r - 2^-k <= l < r + 1`, where k is 24 on words of up to 32
    /// bits and 32 on words of 64 bits. So r is the logarithm rounded down, or one unit more if l is at most `2^-k`
    /// below a whole number. The logarithm of a power of 10 is exact. Precondition: every r that these statements allow
    /// fits.
    fn unwrapped_log10(self) -> Self
        requires fraction { Self.FRACTION ≤ Self.BITS }
        requires positive { pos 0 <ℤ Self.number self }
        requires fits { (r : ℤ) → IsLog10 (log_room Self.BITS) (Self.number self) Self.FRACTION r
            → InRange Self.SIGNED Self.BITS r }
        ensures { IsLog10 (log_room Self.BITS) (Self.number self) Self.FRACTION (Self.number result) };

    /// Returns e to the power of the number, rounded down.
    ///
    /// For the result r and the exact power p in units, `r <= p 2^(2^-61)` and `p < r + 1`. On words of up to 32 bits,
    /// r is the power rounded down, or one unit more if p is less than `2^-29` below a whole number. On words of 64
    /// bits, r is at most 6 units more than the power rounded down. e to the power of 0 is exactly 1. Precondition:
    /// every r that these statements allow fits.
    fn unwrapped_exp(self) -> Self
        requires fraction { Self.FRACTION ≤ Self.BITS }
        requires fits { (r : ℤ) → IsExp (Self.number self) Self.FRACTION r
            → InRange Self.SIGNED Self.BITS r }
        ensures { IsExp (Self.number self) Self.FRACTION (Self.number result) };

    /// Returns the number to the power of `exponent`, rounded down. Precondition: the number is above 0.
    ///
    /// For the result r and the exact power p in units, `r <= p 2^(2^-55)` and `p < r + 1`. On words of up to 32 bits,
    /// r is the power rounded down, or one unit more if p is less than `2^-23` below a whole number. On words of 64
    /// bits, r is at most 355 units more than the power rounded down. A power that is a whole number of up to `2^54`
    /// units is exact. Precondition: every r that these statements allow fits.
    fn unwrapped_pow(self, exponent: Self) -> Self
        requires fraction { Self.FRACTION ≤ Self.BITS }
        requires positive { pos 0 <ℤ Self.number self }
        requires fits { (r : ℤ) → IsPow (Self.number self) (Self.number exponent) Self.FRACTION r
            → InRange Self.SIGNED Self.BITS r }
        ensures { IsPow (Self.number self) (Self.number exponent) Self.FRACTION (Self.number result) };
}

impl<T: Word, const F: u32> UnwrappedNatural for Fixed<T, F> {
    fn unwrapped_ln(self) -> Self {
        self.strict_ln()
    }

    fn unwrapped_log10(self) -> Self {
        self.strict_log10()
    }

    fn unwrapped_exp(self) -> Self {
        self.strict_exp()
    }

    fn unwrapped_pow(self, exponent: Self) -> Self {
        self.strict_pow(exponent)
    }
}
