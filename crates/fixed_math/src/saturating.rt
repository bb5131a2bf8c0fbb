//! The `saturating_` calls of elementary functions. The Rust crate `fixed` does not have them.

ghost use Rattle.std.specs.Prelude.{◌≡◌, ◌≤◌, ◌<ℤ◌, ℤ, Some, pos};
ghost use Rattle.fixed_word.specs.Policies.{saturating};
ghost use Rattle.fixed_elementary.specs.Exp2.{IsExp2Of, exp2_room};
ghost use Rattle.fixed_elementary.specs.Log2.{IsLog2Of, log2_room};
ghost use Rattle.fixed_elementary.specs.ElementaryRows.{exact_hypot, exact_recip_sqrt};

use fixed_elementary::{exp2_of, hypot_of, log2_of, recip_sqrt_of};
use fixed_num::{Fixed, Held, Number, saturating_number};
use fixed_word::{RawWord, Word};

/// The `saturating_` calls of elementary functions. If the result does not fit, they return the nearest number that
/// does. Results are in units of `2^-F`. Precondition of each call that uses F: F is at most the width.
pub trait SaturatingMath: Number {
    /// Returns the length of the pair `(self, other)`, rounded down, or the largest number if it does not fit.
    fn saturating_hypot(self, other: Self) -> Self
        ensures { Some (Self.number result) ≡ saturating Self.SIGNED Self.BITS
            (Some (exact_hypot (Self.number self) (Self.number other))) };

    /// Returns 1 over the square root, rounded down, or the largest number if it does not fit. Precondition: the number
    /// is above 0.
    fn saturating_recip_sqrt(self) -> Self
        requires fraction { Self.FRACTION ≤ Self.BITS }
        requires positive { pos 0 <ℤ Self.number self }
        ensures { Some (Self.number result) ≡ saturating Self.SIGNED Self.BITS
            (Some (exact_recip_sqrt (Self.number self) Self.FRACTION)) };

    /// Returns the logarithm to the base 2, rounded down, or the nearest number if it does not fit. Precondition: the
    /// number is above 0.
    ///
    /// The result may be one unit too small if the logarithm is less than `2^-k` units above a whole number of units; k
    /// is `62-F` on words of up to 32 bits, and `126-F` on words of 64 bits. The logarithm of a power of two is exact.
    fn saturating_log2(self) -> Self
        requires fraction { Self.FRACTION ≤ Self.BITS }
        requires positive { pos 0 <ℤ Self.number self }
        ensures { (r : ℤ) × IsLog2Of (log2_room Self.BITS) (Self.number self) Self.FRACTION r
            × (Some (Self.number result) ≡ saturating Self.SIGNED Self.BITS (Some r)) };

    /// Returns 2 to the power of the number, rounded down, or the largest number if it does not fit.
    ///
    /// The result may be one unit too small if the power is less than a factor of `2^(2^-k)` above a whole number of
    /// units; k is 54 on words of up to 32 bits, and 117 on words of 64 bits. 2 to the power of a whole number of at
    /// least -F is exact.
    fn saturating_exp2(self) -> Self
        requires { Self.FRACTION ≤ Self.BITS }
        ensures { (r : ℤ) × IsExp2Of (exp2_room Self.BITS) (Self.number self) Self.FRACTION r
            × (Some (Self.number result) ≡ saturating Self.SIGNED Self.BITS (Some r)) };
}

impl<T: Word, const F: u32> SaturatingMath for Fixed<T, F> {
    fn saturating_hypot(self, other: Self) -> Self {
        saturating_number(hypot_of(self.bits, other.bits))
    }

    fn saturating_recip_sqrt(self) -> Self {
        saturating_number(recip_sqrt_of(self.bits, F))
    }

    fn saturating_log2(self) -> Self {
        saturating_number(log2_of(self.bits, F))
    }

    fn saturating_exp2(self) -> Self {
        saturating_number(exp2_of(self.bits, F))
    }
}
