//! Squares of intervals.

ghost use Rattle.std.specs.Prelude.{◌≡◌, ◌≤◌, ◌*ℤ◌, IfSome};
ghost use Rattle.std.specs.Option.{option_map};
ghost use Rattle.fixed_interval.specs.Ends.{ends_of, fitting, square_ends};
ghost use Rattle.fixed_interval.specs.Containment.{HoldsSquares};

use crate::interval::{Interval, between};
use crate::products::{ceiled, corner};
use crate::signs::{farthest_from_zero, nearest_to_zero};
use fixed_word::{Integer, Word, outcome_of_whole};

/// Returns the interval of the squares of the numbers in `a`, each bits over `2^frac`: from the least square, rounded
/// down, to the greatest, rounded up. Returns `None` if an end does not fit. If 0 is inside `a`, this is narrower than
/// the product of `a` with itself. Precondition: `frac` is at most the width.
pub fn square_in<T: Word>(a: &Interval<T>, frac: u32) -> Option<Interval<T>>
    requires { frac ≤ T.BITS }
    ensures ends { option_map (ends_of T.value) result ≡ fitting T.SIGNED T.BITS (square_ends (ends_of T.value a.now) frac) }
    ensures holds { IfSome result (λ i. HoldsSquares (ends_of T.value a.now) frac (ends_of T.value i)) }
{
    let (near, far) = (nearest_to_zero(a), farthest_from_zero(a));
    let low = corner(near, near).floored(frac);
    let high = ceiled::<T>(corner(far, far), frac);
    between(outcome_of_whole(low), outcome_of_whole(high))
}
