//! Comparisons of enclosures: of all their numbers, or of some.

ghost use Rattle.std.specs.Prelude.{◌≡◌, ◌↔◌, ◌<ℤ◌, ◌≤ℤ◌, ℤ, IsTrue};
ghost use Rattle.fixed_interval.specs.Ends.{ends_of};
ghost use Rattle.fixed_enclosure.specs.Sets.{ForAll, ForSome};

use crate::enclosure::Enclosure;
use crate::order::{is_at_most, is_less};
use fixed_word::{Ordered, RawWord};

impl<T: RawWord + Ordered, const F: u32> Enclosure<T, F> {
    /// Returns whether each number of this enclosure is less than each number of the other.
    pub fn certainly_lt(self, other: Self) -> bool
        ensures { IsTrue result ↔ ForAll (λ x y. x <ℤ y) (ends_of T.value self) (ends_of T.value other) }
    {
        is_less(self.high().bits, other.low().bits)
    }

    /// Returns whether each number of this enclosure is at most each number of the other.
    pub fn certainly_le(self, other: Self) -> bool
        ensures { IsTrue result ↔ ForAll (λ x y. x ≤ℤ y) (ends_of T.value self) (ends_of T.value other) }
    {
        is_at_most(self.high().bits, other.low().bits)
    }

    /// Returns whether each number of this enclosure equals each number of the other, so that both hold the same one
    /// number.
    pub fn certainly_eq(self, other: Self) -> bool
        ensures { IsTrue result ↔ ForAll (λ x y. x ≡ y) (ends_of T.value self) (ends_of T.value other) }
    {
        is_at_most(self.high().bits, other.low().bits)
            & is_at_most(other.high().bits, self.low().bits)
    }

    /// Returns whether some number of this enclosure is less than some number of the other.
    pub fn possibly_lt(self, other: Self) -> bool
        ensures { IsTrue result ↔ ForSome (λ x y. x <ℤ y) (ends_of T.value self) (ends_of T.value other) }
    {
        is_less(self.low().bits, other.high().bits)
    }

    /// Returns whether some number of this enclosure is at most some number of the other.
    pub fn possibly_le(self, other: Self) -> bool
        ensures { IsTrue result ↔ ForSome (λ x y. x ≤ℤ y) (ends_of T.value self) (ends_of T.value other) }
    {
        is_at_most(self.low().bits, other.high().bits)
    }

    /// Returns whether some number is in both enclosures.
    pub fn possibly_eq(self, other: Self) -> bool
        ensures { IsTrue result ↔ ForSome (λ x y. x ≡ y) (ends_of T.value self) (ends_of T.value other) }
    {
        is_at_most(self.low().bits, other.high().bits)
            & is_at_most(other.low().bits, self.high().bits)
    }
}
