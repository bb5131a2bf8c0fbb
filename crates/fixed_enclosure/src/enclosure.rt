//! An enclosure, by its two ends.

ghost use Rattle.std.specs.Prelude.{◌≡◌, ◌≤ℤ◌, ◌<ℤ◌, MatchOption};
ghost use Rattle.fixed_interval.specs.Ends.{ends_of};

use crate::order::is_at_most;
use fixed_interval::Interval;
use fixed_num::Fixed;
use fixed_word::{Ordered, RawWord, Word};
use std::alloc::AllocError;
use std::marker::Model;

/// All numbers from a low end up to a high end, both included. Contracts see the bits of the two ends.
#[derive(Copy, PartialEq, Eq, Hash, Debug)]
pub struct Enclosure<T: RawWord, const F: u32> {
    low: T,
    high: T,
}

impl<T: RawWord, const F: u32> Model for Enclosure<T, F> {
    ghost use Rattle.std.specs.Prelude.{◌≤ℤ◌};
    ghost use Rattle.fixed_interval.specs.Ends.{Bounds};

    ghost Value = { Bounds T };

    ghost view = { λ e. record { lo = e.low; hi = e.high } };

    ghost invariant = { λ e. T.value e.low ≤ℤ T.value e.high };

    ghost inverse = { λ b. record { low = b.lo; high = b.hi } };
}

impl<T: RawWord, const F: u32> Clone for Enclosure<T, F> {
    ghost is_clone = { λ a b. b ≡ a };

    ghost is_infallible = { λ _. Unit {0} };

    fn clone(&self) -> Result<Self, AllocError> {
        Ok(*self)
    }
}

impl<T: RawWord + Ordered, const F: u32> Enclosure<T, F> {
    /// Returns the enclosure from `low` to `high`, both included, or `None` if `low` is above `high`.
    pub fn new(low: Fixed<T, F>, high: Fixed<T, F>) -> Option<Self>
        ensures { MatchOption result (T.value high.bits <ℤ T.value low.bits)
            (λ e. e ≡ record { lo = low.bits; hi = high.bits }) }
    {
        if is_at_most(low.bits, high.bits) {
            Some(Self::from_ends(low.bits, high.bits))
        } else {
            None
        }
    }

    /// Returns the enclosure whose ends have these bits. Precondition: `low` is at most `high`.
    #[inline]
    pub(crate) fn from_ends(low: T, high: T) -> Self
        requires { T.value low ≤ℤ T.value high }
        ensures { result ≡ record { lo = low; hi = high } }
    {
        Enclosure { low, high }
    }

    /// Returns the low end, the least number of the enclosure.
    pub fn low(self) -> Fixed<T, F>
        ensures value { result.bits ≡ self.lo }
        ensures order { T.value self.lo ≤ℤ T.value self.hi }
    {
        Fixed { bits: self.low }
    }

    /// Returns the high end, the greatest number of the enclosure.
    pub fn high(self) -> Fixed<T, F>
        ensures value { result.bits ≡ self.hi }
        ensures order { T.value self.lo ≤ℤ T.value self.hi }
    {
        Fixed { bits: self.high }
    }
}

impl<T: Word, const F: u32> Enclosure<T, F> {
    /// Returns the interval of the ends' bits.
    pub fn to_interval(self) -> Interval<T>
        ensures { result ≡ self }
    {
        Interval::from_ends(self.low, self.high)
    }

    /// Returns the enclosure whose ends have the bits of the interval's.
    pub fn from_interval(interval: Interval<T>) -> Self
        ensures { result ≡ interval }
    {
        Self::from_ends(interval.lo(), interval.hi())
    }
}

/// Returns the enclosure of an interval, if there is one.
pub(crate) fn enclosed<T: Word, const F: u32>(
    interval: Option<Interval<T>>,
) -> Option<Enclosure<T, F>>
    ensures { result ≡ interval }
{
    match interval {
        Some(interval) => Some(Enclosure::from_interval(interval)),
        None => None,
    }
}
