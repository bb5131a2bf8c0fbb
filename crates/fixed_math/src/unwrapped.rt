//! The `unwrapped_` calls of elementary functions. The Rust crate `fixed` does not have them.

ghost use Rattle.std.specs.Prelude.{◌≡◌, ◌≤◌, ◌<ℤ◌, ℤ, pos};
ghost use Rattle.fixed_word.specs.Format.{InRange};
ghost use Rattle.fixed_elementary.specs.Exp2.{IsExp2Of, exp2_room};
ghost use Rattle.fixed_elementary.specs.Log2.{IsLog2Of, log2_room};
ghost use Rattle.fixed_elementary.specs.ElementaryRows.{exact_hypot, exact_recip_sqrt};

use crate::strict::StrictMath;
use fixed_num::{Fixed, Held, Number};
use fixed_word::{RawWord, Word};

/// The `unwrapped_` calls of elementary functions. Precondition of each call: the result fits. Results are in units of
/// `2^-F`. Precondition of each call that uses F: F is at most the width.
pub trait UnwrappedMath: Number {
    /// Returns the length of the pair `(self, other)`, rounded down.
    fn unwrapped_hypot(self, other: Self) -> Self
        requires { InRange Self.SIGNED Self.BITS
            (exact_hypot (Self.number self) (Self.number other)) }
        ensures { Self.number result ≡ exact_hypot (Self.number self) (Self.number other) };

    /// Returns 1 over the square root, rounded down. Precondition: the number is above 0.
    fn unwrapped_recip_sqrt(self) -> Self
        requires fraction { Self.FRACTION ≤ Self.BITS }
        requires positive { pos 0 <ℤ Self.number self }
        requires fits { InRange Self.SIGNED Self.BITS
            (exact_recip_sqrt (Self.number self) Self.FRACTION) }
        ensures { Self.number result ≡ exact_recip_sqrt (Self.number self) Self.FRACTION };

    /// Returns the logarithm to the base 2, rounded down. Precondition: the number is above 0.
    ///
    /// The result may be one unit too small if the logarithm is less than `2^-k` units above a whole number of units; k
    /// is `62-F` on words of up to 32 bits, and `126-F` on words of 64 bits. The logarithm of a power of two is exact.
    /// Precondition: every result that this allows fits.
    fn unwrapped_log2(self) -> Self
        requires fraction { Self.FRACTION ≤ Self.BITS }
        requires positive { pos 0 <ℤ Self.number self }
        requires fits { (r : ℤ) → IsLog2Of (log2_room Self.BITS) (Self.number self) Self.FRACTION r
            → InRange Self.SIGNED Self.BITS r }
        ensures { IsLog2Of (log2_room Self.BITS) (Self.number self) Self.FRACTION (Self.number result) };

    /// Returns 2 to the power of the number, rounded down.
    ///
    /// The result may be one unit too small if the power is less than a factor of `2^(2^-k)` above a whole number of
    /// units; k is 54 on words of up to 32 bits, and 117 on words of 64 bits. 2 to the power of a whole number of at
    /// least -F is exact. Precondition: every result that this allows fits.
    fn unwrapped_exp2(self) -> Self
        requires fraction { Self.FRACTION ≤ Self.BITS }
        requires fits { (r : ℤ) → IsExp2Of (exp2_room Self.BITS) (Self.number self) Self.FRACTION r
            → InRange Self.SIGNED Self.BITS r }
        ensures { IsExp2Of (exp2_room Self.BITS) (Self.number self) Self.FRACTION (Self.number result) };
}

impl<T: Word, const F: u32> UnwrappedMath for Fixed<T, F> {
    fn unwrapped_hypot(self, other: Self) -> Self {
        self.strict_hypot(other)
    }

    fn unwrapped_recip_sqrt(self) -> Self {
        self.strict_recip_sqrt()
    }

    fn unwrapped_log2(self) -> Self {
        self.strict_log2()
    }

    fn unwrapped_exp2(self) -> Self {
        self.strict_exp2()
    }
}
