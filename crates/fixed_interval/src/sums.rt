//! Sums and differences of intervals.

ghost use Rattle.std.specs.Prelude.{◌≡◌, IfSome};
ghost use Rattle.std.specs.Option.{option_map};
ghost use Rattle.fixed_interval.specs.Ends.{ends_of, difference_ends, fitting, sum_ends};
ghost use Rattle.fixed_interval.specs.Containment.{HoldsDifferences, HoldsSums};

use crate::interval::{Interval, between};
use fixed_kernel::{add_of, sub_of};
use fixed_word::Word;

/// Returns the interval of the sums of a number in `a` and one in `b`, which have the same number of fraction bits:
/// from the sum of the low ends to that of the high ones. Returns `None` if an end does not fit. Nothing is rounded.
pub fn add_in<T: Word>(a: &Interval<T>, b: &Interval<T>) -> Option<Interval<T>>
    ensures ends { option_map (ends_of T.value) result ≡ fitting T.SIGNED T.BITS (sum_ends (ends_of T.value a.now) (ends_of T.value b.now)) }
    ensures holds { IfSome result (λ i. HoldsSums (ends_of T.value a.now) (ends_of T.value b.now) (ends_of T.value i)) }
{
    between(add_of(a.lo(), b.lo()), add_of(a.hi(), b.hi()))
}

/// Returns the interval of the differences of a number in `a` and one in `b`, which have the same number of fraction
/// bits: from the low end of `a` minus the high end of `b` to the high end of `a` minus the low end of `b`. Returns
/// `None` if an end does not fit. Nothing is rounded.
pub fn sub_in<T: Word>(a: &Interval<T>, b: &Interval<T>) -> Option<Interval<T>>
    ensures ends { option_map (ends_of T.value) result ≡ fitting T.SIGNED T.BITS (difference_ends (ends_of T.value a.now) (ends_of T.value b.now)) }
    ensures holds { IfSome result (λ i. HoldsDifferences (ends_of T.value a.now) (ends_of T.value b.now) (ends_of T.value i)) }
{
    between(sub_of(a.lo(), b.hi()), sub_of(a.hi(), b.lo()))
}
