//! The `checked_` calls of elementary functions. The Rust crate `fixed` does not have them.

ghost use Rattle.std.specs.Prelude.{◌≡◌, ◌≤◌, ◌≤ℤ◌, ◌<ℤ◌, ℤ, None, Some, option_map, pos};
ghost use Rattle.fixed_word.specs.Policies.{checked};
ghost use Rattle.fixed_elementary.specs.Exp2.{IsExp2Of, exp2_room};
ghost use Rattle.fixed_elementary.specs.Log2.{IsLog2Of, log2_room};
ghost use Rattle.fixed_elementary.specs.ElementaryRows.{by_positive, exact_hypot, exact_recip_sqrt};

use crate::numbers::is_above_zero;
use fixed_elementary::{exp2_of, hypot_of, log2_of, recip_sqrt_of};
use fixed_num::{Fixed, Held, Number, checked_number};
use fixed_word::{RawWord, Word};

/// The `checked_` calls of elementary functions. If the result does not fit, they return `None`. Results are in units
/// of `2^-F`. Precondition of each call that uses F: F is at most the width.
pub trait CheckedMath: Number {
    /// Returns the length of the pair `(self, other)`, rounded down, or `None` if it does not fit.
    fn checked_hypot(self, other: Self) -> Option<Self>
        ensures { option_map Self.number result ≡ checked Self.SIGNED Self.BITS
            (Some (exact_hypot (Self.number self) (Self.number other))) };

    /// Returns 1 over the square root, rounded down, or `None` if the number is not above 0 or the result does not fit.
    fn checked_recip_sqrt(self) -> Option<Self>
        requires { Self.FRACTION ≤ Self.BITS }
        ensures { option_map Self.number result ≡ checked Self.SIGNED Self.BITS
            (by_positive (Self.number self) (exact_recip_sqrt (Self.number self) Self.FRACTION)) };

    /// Returns the logarithm to the base 2, rounded down, or `None` if the number is not above 0 or the result does not
    /// fit.
    ///
    /// The result may be one unit too small if the logarithm is less than `2^-k` units above a whole number of units; k
    /// is `62-F` on words of up to 32 bits, and `126-F` on words of 64 bits. The logarithm of a power of two is exact.
    fn checked_log2(self) -> Option<Self>
        requires { Self.FRACTION ≤ Self.BITS }
        ensures none { Self.number self ≤ℤ pos 0 → result ≡ None }
        ensures log2 { pos 0 <ℤ Self.number self
            → (r : ℤ) × IsLog2Of (log2_room Self.BITS) (Self.number self) Self.FRACTION r
            × (option_map Self.number result ≡ checked Self.SIGNED Self.BITS (Some r)) };

    /// Returns 2 to the power of the number, rounded down, or `None` if it does not fit.
    ///
    /// The result may be one unit too small if the power is less than a factor of `2^(2^-k)` above a whole number of
    /// units; k is 54 on words of up to 32 bits, and 117 on words of 64 bits. 2 to the power of a whole number of at
    /// least -F is exact.
    fn checked_exp2(self) -> Option<Self>
        requires { Self.FRACTION ≤ Self.BITS }
        ensures { (r : ℤ) × IsExp2Of (exp2_room Self.BITS) (Self.number self) Self.FRACTION r
            × (option_map Self.number result ≡ checked Self.SIGNED Self.BITS (Some r)) };
}

impl<T: Word, const F: u32> CheckedMath for Fixed<T, F> {
    fn checked_hypot(self, other: Self) -> Option<Self> {
        checked_number(hypot_of(self.bits, other.bits))
    }

    fn checked_recip_sqrt(self) -> Option<Self> {
        if !is_above_zero(self.bits) {
            return None;
        }
        checked_number(recip_sqrt_of(self.bits, F))
    }

    fn checked_log2(self) -> Option<Self> {
        if !is_above_zero(self.bits) {
            return None;
        }
        checked_number(log2_of(self.bits, F))
    }

    fn checked_exp2(self) -> Option<Self> {
        checked_number(exp2_of(self.bits, F))
    }
}
