//! The `overflowing_` calls of logarithms. The Rust crate `fixed` does not have them.

ghost use Rattle.std.specs.Prelude.{◌≡◌, ◌≤◌, ◌<ℤ◌, ℤ, Some, pos};
ghost use Rattle.fixed_word.specs.Policies.{overflowing};
ghost use Rattle.fixed_natural.specs.Logs.{IsLn, IsLog10, log_room};

use crate::logarithms::{ln_of, log10_of};
use fixed_num::{Fixed, Held, Number, overflowing_number};
use fixed_word::{RawWord, Word};

/// The `overflowing_` calls of logarithms. They return the wrapped result, and whether the result does not fit. `exp`
/// and `pow` have no such form, since the lowest bits of a power above the range are not known. Operands and results
/// are in units of `2^-F`. Precondition of each call: F is at most the width.
pub trait OverflowingNatural: Number {
    /// Returns the natural logarithm, rounded down and wrapped, and whether it does not fit. Precondition: the number
    /// is above 0.
    ///
    /// For the result r before it is wrapped and the exact logarithm l in units, `r - 2^-k <= l < r + 1`, where k is 24
    /// on words of up to 32 bits and 32 on words of 64 bits. So r is the logarithm rounded down, or one unit more if l
    /// is at most `2^-k` below a whole number. The logarithm of 1 is exactly 0.
    fn overflowing_ln(self) -> (Self, bool)
        requires fraction { Self.FRACTION ≤ Self.BITS }
        requires positive { pos 0 <ℤ Self.number self }
        ensures { (r : ℤ) × IsLn (log_room Self.BITS) (Self.number self) Self.FRACTION r
            × (Some (Self.number result.0, result.1) ≡ overflowing Self.SIGNED Self.BITS (Some r)) };

    /// Returns the logarithm to the base 10, rounded down and wrapped, and whether it does not fit. Precondition: the
    /// number is above 0.
    ///
    /// For the result r before it is wrapped and the exact logarithm l in units, `r - 2^-k <= l < r + 1`, where k is 24
    /// on words of up to 32 bits and 32 on words of 64 bits. So r is the logarithm rounded down, or one unit more if l
    /// is at most `2^-k` below a whole number. The logarithm of a power of 10 is exact.
    fn overflowing_log10(self) -> (Self, bool)
        requires fraction { Self.FRACTION ≤ Self.BITS }
        requires positive { pos 0 <ℤ Self.number self }
        ensures { (r : ℤ) × IsLog10 (log_room Self.BITS) (Self.number self) Self.FRACTION r
            × (Some (Self.number result.0, result.1) ≡ overflowing Self.SIGNED Self.BITS (Some r)) };
}

impl<T: Word, const F: u32> OverflowingNatural for Fixed<T, F> {
    fn overflowing_ln(self) -> (Self, bool) {
        overflowing_number(ln_of(self.bits, F))
    }

    fn overflowing_log10(self) -> (Self, bool) {
        overflowing_number(log10_of(self.bits, F))
    }
}
