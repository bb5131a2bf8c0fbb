//! Comparisons across formats, and with floats.

ghost use Rattle.std.specs.Prelude.{◌≡◌, ◌↔◌, ◌≤◌, ◌^◌, ◌*ℤ◌, IsTrue, Some, pos};
ghost use Rattle.std.specs.declared.cmp.Ordering.TheVariants.{Equal};
ghost use Rattle.fixed_convert.specs.Convert.{exact_order};
ghost use Rattle.fixed_float.specs.Rows.{float_order};

use crate::numeric::Numeric;
use fixed_convert::compare_of;
use fixed_float::{Binary, compare_float_of};
use std::cmp::Ordering;

/// Comparisons of numbers of any format and integers. (In `fixed` these are operators between types.)
pub trait Order: Numeric {
    /// Returns the order of the number and another one.
    fn compare<N: Numeric>(self, other: N) -> Ordering
        ensures { result ≡ exact_order (Self.units self) Self.FRACTION (N.units other) N.FRACTION };

    /// Returns whether both are the same number.
    fn equals<N: Numeric>(self, other: N) -> bool
        ensures { IsTrue result ↔ (Self.units self *ℤ pos (2 ^ N.FRACTION)
            ≡ N.units other *ℤ pos (2 ^ Self.FRACTION)) };

    /// Returns the order of the number and the exact value of a float, or `None` for a NaN. Infinities are beyond
    /// every number.
    fn compare_float<X: Binary>(self, other: X) -> Option<Ordering>
        requires { Self.FRACTION ≤ Self.Word.BITS }
        ensures { result ≡ float_order (Self.units self) Self.FRACTION (X.float other) };

    /// Returns whether the float is the same number.
    fn equals_float<X: Binary>(self, other: X) -> bool
        requires { Self.FRACTION ≤ Self.Word.BITS }
        ensures { IsTrue result ↔ (float_order (Self.units self) Self.FRACTION (X.float other) ≡ Some Equal) };
}

impl<M: Numeric> Order for M {
    #[inline]
    fn compare<N: Numeric>(self, other: N) -> Ordering {
        compare_of(self.to_word(), M::FRACTION, other.to_word(), N::FRACTION)
    }

    #[inline]
    fn equals<N: Numeric>(self, other: N) -> bool {
        self.compare(other) == Ordering::Equal
    }

    #[inline]
    fn compare_float<X: Binary>(self, other: X) -> Option<Ordering> {
        compare_float_of(self.to_word(), M::FRACTION, other)
    }

    #[inline]
    fn equals_float<X: Binary>(self, other: X) -> bool {
        match self.compare_float(other) {
            Some(Ordering::Equal) => true,
            _ => false,
        }
    }
}
