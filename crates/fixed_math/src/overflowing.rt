//! The `overflowing_` calls of elementary functions. The Rust crate `fixed` does not have them.

ghost use Rattle.std.specs.Prelude.{◌≡◌, ◌≤◌, ◌<ℤ◌, ℤ, Some, pos};
ghost use Rattle.fixed_word.specs.Policies.{overflowing};
ghost use Rattle.fixed_elementary.specs.Log2.{IsLog2Of, log2_room};
ghost use Rattle.fixed_elementary.specs.ElementaryRows.{exact_hypot, exact_recip_sqrt};

use fixed_elementary::{hypot_of, log2_of, recip_sqrt_of};
use fixed_num::{Fixed, Held, Number, overflowing_number};
use fixed_word::{RawWord, Word};

/// The `overflowing_` calls of elementary functions. They return the wrapped result, and whether the result does not
/// fit. Results are in units of `2^-F`. Precondition of each call that uses F: F is at most the width.
pub trait OverflowingMath: Number {
    /// Returns the length of the pair `(self, other)`, rounded down and wrapped, and whether it does not fit.
    fn overflowing_hypot(self, other: Self) -> (Self, bool)
        ensures { Some (Self.number result.0, result.1) ≡ overflowing Self.SIGNED Self.BITS
            (Some (exact_hypot (Self.number self) (Self.number other))) };

    /// Returns 1 over the square root, rounded down and wrapped, and whether it does not fit. Precondition: the number
    /// is above 0.
    fn overflowing_recip_sqrt(self) -> (Self, bool)
        requires fraction { Self.FRACTION ≤ Self.BITS }
        requires positive { pos 0 <ℤ Self.number self }
        ensures { Some (Self.number result.0, result.1) ≡ overflowing Self.SIGNED Self.BITS
            (Some (exact_recip_sqrt (Self.number self) Self.FRACTION)) };

    /// Returns the logarithm to the base 2, rounded down and wrapped, and whether it does not fit. Precondition: the
    /// number is above 0.
    ///
    /// The result may be one unit too small if the logarithm is less than `2^-k` units above a whole number of units; k
    /// is `62-F` on words of up to 32 bits, and `126-F` on words of 64 bits. The logarithm of a power of two is exact.
    fn overflowing_log2(self) -> (Self, bool)
        requires fraction { Self.FRACTION ≤ Self.BITS }
        requires positive { pos 0 <ℤ Self.number self }
        ensures { (r : ℤ) × IsLog2Of (log2_room Self.BITS) (Self.number self) Self.FRACTION r
            × (Some (Self.number result.0, result.1) ≡ overflowing Self.SIGNED Self.BITS (Some r)) };
}

impl<T: Word, const F: u32> OverflowingMath for Fixed<T, F> {
    fn overflowing_hypot(self, other: Self) -> (Self, bool) {
        overflowing_number(hypot_of(self.bits, other.bits))
    }

    fn overflowing_recip_sqrt(self) -> (Self, bool) {
        overflowing_number(recip_sqrt_of(self.bits, F))
    }

    fn overflowing_log2(self) -> (Self, bool) {
        overflowing_number(log2_of(self.bits, F))
    }
}
