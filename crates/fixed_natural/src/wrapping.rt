//! The `wrapping_` calls of logarithms. The Rust crate `fixed` does not have them.

ghost use Rattle.std.specs.Prelude.{◌≡◌, ◌≤◌, ◌<ℤ◌, ℤ, Some, pos};
ghost use Rattle.fixed_word.specs.Policies.{wrapping};
ghost use Rattle.fixed_natural.specs.Logs.{IsLn, IsLog10, log_room};

use crate::logarithms::{ln_of, log10_of};
use fixed_num::{Fixed, Held, Number, wrapping_number};
use fixed_word::{RawWord, Word};

/// The `wrapping_` calls of logarithms. If the result does not fit, they return it wrapped. `exp` and `pow` have no
/// such form, since the lowest bits of a power above the range are not known. Operands and results are in units of
/// `2^-F`. Precondition of each call: F is at most the width.
pub trait WrappingNatural: Number {
    /// Returns the natural logarithm, rounded down and wrapped. Precondition: the number is above 0.
    ///
    /// For the result r before it is wrapped and the exact logarithm l in units, `r - 2^-k <= l < r + 1`, where k is 24
    /// on words of up to 32 bits and 32 on words of 64 bits. So r is the logarithm rounded down, or one unit more if l
    /// is at most `2^-k` below a whole number. The logarithm of 1 is exactly 0.
    fn wrapping_ln(self) -> Self
        requires fraction { Self.FRACTION ≤ Self.BITS }
        requires positive { pos 0 <ℤ Self.number self }
        ensures { (r : ℤ) × IsLn (log_room Self.BITS) (Self.number self) Self.FRACTION r
            × (Some (Self.number result) ≡ wrapping Self.SIGNED Self.BITS (Some r)) };

    /// Returns the logarithm to the base 10, rounded down and wrapped. Precondition: the number is above 0.
    ///
    /// For the result r before it is wrapped and the exact logarithm l in units, `r - 2^-k <= l < r + 1`, where k is 24
    /// on words of up to 32 bits and 32 on words of 64 bits. So r is the logarithm rounded down, or one unit more if l
    /// is at most `2^-k` below a whole number. The logarithm of a power of 10 is exact.
    fn wrapping_log10(self) -> Self
        requires fraction { Self.FRACTION ≤ Self.BITS }
        requires positive { pos 0 <ℤ Self.number self }
        ensures { (r : ℤ) × IsLog10 (log_room Self.BITS) (Self.number self) Self.FRACTION r
            × (Some (Self.number result) ≡ wrapping Self.SIGNED Self.BITS (Some r)) };
}

impl<T: Word, const F: u32> WrappingNatural for Fixed<T, F> {
    fn wrapping_ln(self) -> Self {
        wrapping_number(ln_of(self.bits, F))
    }

    fn wrapping_log10(self) -> Self {
        wrapping_number(log10_of(self.bits, F))
    }
}
