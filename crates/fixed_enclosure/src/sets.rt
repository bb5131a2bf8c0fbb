//! Enclosures as sets of numbers.

ghost use Rattle.std.specs.Prelude.{◌≡◌, ◌↔◌, IsTrue};
ghost use Rattle.std.specs.Option.{option_map};
ghost use Rattle.fixed_interval.specs.Ends.{ends_of};
ghost use Rattle.fixed_interval.specs.Containment.{Encloses};
ghost use Rattle.fixed_enclosure.specs.Sets.{Contains, common_of, hull_of};

use crate::enclosure::Enclosure;
use crate::order::{greater, is_at_most, lesser};
use fixed_num::Fixed;
use fixed_word::{Ordered, RawWord};

impl<T: RawWord + Ordered, const F: u32> Enclosure<T, F> {
    /// Returns the enclosure of a single number.
    pub fn point(number: Fixed<T, F>) -> Self
        ensures { result ≡ record { lo = number.bits; hi = number.bits } }
    {
        Self::from_ends(number.bits, number.bits)
    }

    /// Returns whether the number is in the enclosure.
    pub fn contains(self, number: Fixed<T, F>) -> bool
        ensures { IsTrue result ↔ Contains (ends_of T.value self) (T.value number.bits) }
    {
        is_at_most(self.low().bits, number.bits) & is_at_most(number.bits, self.high().bits)
    }

    /// Returns whether each number of the other enclosure is in this one.
    pub fn contains_enclosure(self, other: Self) -> bool
        ensures { IsTrue result ↔ Encloses (ends_of T.value self) (ends_of T.value other) }
    {
        is_at_most(self.low().bits, other.low().bits)
            & is_at_most(other.high().bits, self.high().bits)
    }

    /// Returns the narrowest enclosure that contains both.
    pub fn hull(self, other: Self) -> Self
        ensures { ends_of T.value result ≡ hull_of (ends_of T.value self) (ends_of T.value other) }
    {
        let low = lesser(self.low().bits, other.low().bits);
        let high = greater(self.high().bits, other.high().bits);
        Self::from_ends(low, high)
    }

    /// Returns the enclosure of the numbers that are in both, or `None` if there are none.
    pub fn intersection(self, other: Self) -> Option<Self>
        ensures { option_map (ends_of T.value) result ≡ common_of (ends_of T.value self) (ends_of T.value other) }
    {
        let low = greater(self.low().bits, other.low().bits);
        let high = lesser(self.high().bits, other.high().bits);
        Self::new(Fixed { bits: low }, Fixed { bits: high })
    }
}
