//! Operations on enclosures. They return `None` if an end does not fit or the operation is undefined.

ghost use Rattle.std.specs.Prelude.{◌≡◌, ◌≤◌, IfSome};
ghost use Rattle.std.specs.Option.{option_map};
ghost use Rattle.fixed_interval.specs.Ends.{difference_ends, ends_of, fitting, magnitude_ends, negation_ends, product_ends, quotient_ends, root_ends, square_ends, sum_ends};
ghost use Rattle.fixed_interval.specs.Containment.{HoldsDifferences, HoldsMagnitudes, HoldsNegations, HoldsProducts, HoldsQuotients, HoldsRoots, HoldsSquares, HoldsSums};

use crate::enclosure::{Enclosure, enclosed};
use fixed_interval::{abs_in, add_in, div_in, mul_in, neg_in, sqrt_in, square_in, sub_in};
use fixed_word::Word;

impl<T: Word, const F: u32> Enclosure<T, F> {
    /// Returns the enclosure of the sums, or `None` if an end does not fit.
    pub fn checked_add(self, other: Self) -> Option<Self>
        ensures ends { option_map (ends_of T.value) result ≡ fitting T.SIGNED T.BITS (sum_ends (ends_of T.value self) (ends_of T.value other)) }
        ensures holds { IfSome result (λ e. HoldsSums (ends_of T.value self) (ends_of T.value other) (ends_of T.value e)) }
    {
        enclosed(add_in(&self.to_interval(), &other.to_interval()))
    }

    /// Returns the enclosure of the differences, or `None` if an end does not fit.
    pub fn checked_sub(self, other: Self) -> Option<Self>
        ensures ends { option_map (ends_of T.value) result ≡ fitting T.SIGNED T.BITS (difference_ends (ends_of T.value self) (ends_of T.value other)) }
        ensures holds { IfSome result (λ e. HoldsDifferences (ends_of T.value self) (ends_of T.value other) (ends_of T.value e)) }
    {
        enclosed(sub_in(&self.to_interval(), &other.to_interval()))
    }

    /// Returns the enclosure of the products, or `None` if an end does not fit. Precondition: F is at most the width.
    pub fn checked_mul(self, other: Self) -> Option<Self>
        requires { F ≤ T.BITS }
        ensures ends { option_map (ends_of T.value) result ≡ fitting T.SIGNED T.BITS (product_ends (ends_of T.value self) (ends_of T.value other) F) }
        ensures holds { IfSome result (λ e. HoldsProducts (ends_of T.value self) (ends_of T.value other) F (ends_of T.value e)) }
    {
        enclosed(mul_in(&self.to_interval(), &other.to_interval(), F))
    }

    /// Returns the enclosure of the quotients, or `None` if 0 is in the divisor or an end does not fit. Precondition: F
    /// is at most the width.
    pub fn checked_div(self, other: Self) -> Option<Self>
        requires { F ≤ T.BITS }
        ensures ends { option_map (ends_of T.value) result ≡ fitting T.SIGNED T.BITS (quotient_ends (ends_of T.value self) (ends_of T.value other) F) }
        ensures holds { IfSome result (λ e. HoldsQuotients (ends_of T.value self) (ends_of T.value other) F (ends_of T.value e)) }
    {
        enclosed(div_in(&self.to_interval(), &other.to_interval(), F))
    }

    /// Returns the enclosure of the square roots, or `None` if the low end is below 0 or an end does not fit.
    /// Precondition: F is at most the width.
    pub fn checked_sqrt(self) -> Option<Self>
        requires { F ≤ T.BITS }
        ensures ends { option_map (ends_of T.value) result ≡ fitting T.SIGNED T.BITS (root_ends (ends_of T.value self) F) }
        ensures holds { IfSome result (λ e. HoldsRoots (ends_of T.value self) F (ends_of T.value e)) }
    {
        enclosed(sqrt_in(&self.to_interval(), F))
    }

    /// Returns the enclosure of the negatives, or `None` if an end does not fit.
    pub fn checked_neg(self) -> Option<Self>
        ensures ends { option_map (ends_of T.value) result ≡ fitting T.SIGNED T.BITS (negation_ends (ends_of T.value self)) }
        ensures holds { IfSome result (λ e. HoldsNegations (ends_of T.value self) (ends_of T.value e)) }
    {
        enclosed(neg_in(&self.to_interval()))
    }

    /// Returns the enclosure of the magnitudes, or `None` if an end does not fit.
    pub fn checked_abs(self) -> Option<Self>
        ensures ends { option_map (ends_of T.value) result ≡ fitting T.SIGNED T.BITS (magnitude_ends (ends_of T.value self)) }
        ensures holds { IfSome result (λ e. HoldsMagnitudes (ends_of T.value self) (ends_of T.value e)) }
    {
        enclosed(abs_in(&self.to_interval()))
    }

    /// Returns the enclosure of the squares, or `None` if an end does not fit. If 0 is inside, this is narrower than
    /// the product of the enclosure with itself. Precondition: F is at most the width.
    pub fn checked_square(self) -> Option<Self>
        requires { F ≤ T.BITS }
        ensures ends { option_map (ends_of T.value) result ≡ fitting T.SIGNED T.BITS (square_ends (ends_of T.value self) F) }
        ensures holds { IfSome result (λ e. HoldsSquares (ends_of T.value self) F (ends_of T.value e)) }
    {
        enclosed(square_in(&self.to_interval(), F))
    }
}
