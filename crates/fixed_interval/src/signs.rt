//! Negatives and magnitudes of intervals.

ghost use Rattle.std.specs.Prelude.{◌≡◌, ◌≤ℤ◌, IfSome};
ghost use Rattle.std.specs.Option.{option_map};
ghost use Rattle.fixed_kernel.specs.Rows.{exact_abs};
ghost use Rattle.fixed_interval.specs.Ends.{ends_of, fitting, magnitude_ends, magnitude_of, negation_ends};
ghost use Rattle.fixed_interval.specs.Containment.{HoldsMagnitudes, HoldsNegations};

use crate::interval::{Interval, between};
use fixed_kernel::{dist_of, neg_of};
use fixed_word::{RawWord, Word};

/// Returns the interval of the negatives of the numbers in `a`, or `None` if an end does not fit. Nothing is rounded.
pub fn neg_in<T: Word>(a: &Interval<T>) -> Option<Interval<T>>
    ensures ends { option_map (ends_of T.value) result ≡ fitting T.SIGNED T.BITS (negation_ends (ends_of T.value a.now)) }
    ensures holds { IfSome result (λ i. HoldsNegations (ends_of T.value a.now) (ends_of T.value i)) }
{
    between(neg_of(a.hi()), neg_of(a.lo()))
}

/// Returns the interval of the magnitudes of the numbers in `a`, or `None` if an end does not fit. Nothing is rounded.
pub fn abs_in<T: Word>(a: &Interval<T>) -> Option<Interval<T>>
    ensures ends { option_map (ends_of T.value) result ≡ fitting T.SIGNED T.BITS (magnitude_ends (ends_of T.value a.now)) }
    ensures holds { IfSome result (λ i. HoldsMagnitudes (ends_of T.value a.now) (ends_of T.value i)) }
{
    between(
        dist_of(nearest_to_zero(a), T::ZERO),
        dist_of(farthest_from_zero(a), T::ZERO),
    )
}

/// Returns the number of `a` that is nearest to 0.
#[inline]
pub(crate) fn nearest_to_zero<T: Word>(a: &Interval<T>) -> T
    ensures value { exact_abs (T.value result) ≡ (magnitude_of (ends_of T.value a.now)).low }
    ensures order { T.value a.now.lo ≤ℤ T.value a.now.hi }
{
    let (low, high) = (a.lo(), a.hi());
    if high.is_below_zero() {
        high
    } else if low.is_below_zero() {
        T::ZERO
    } else {
        low
    }
}

/// Returns the end of `a` that is farther from 0. If both are as far, it returns the high one.
#[inline]
pub(crate) fn farthest_from_zero<T: Word>(a: &Interval<T>) -> T
    ensures { exact_abs (T.value result) ≡ (magnitude_of (ends_of T.value a.now)).high }
{
    let (low, high) = (a.lo(), a.hi());
    if high.magnitude() < low.magnitude() {
        low
    } else {
        high
    }
}
