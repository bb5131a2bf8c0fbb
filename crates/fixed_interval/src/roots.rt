//! Roots of intervals.

ghost use Rattle.std.specs.Prelude.{◌≡◌, ◌≤◌, ◌<◌, ◌^◌, ◌≤ℤ◌, ◌*ℤ◌, IfSome, pos};
ghost use Rattle.fixed_word.specs.Standing.{StandsFor};
ghost use Rattle.fixed_root.specs.Root.{root_of};
ghost use Rattle.std.specs.Option.{option_map};
ghost use Rattle.fixed_interval.specs.Ends.{ends_of, ceiling_root, fitting, root_ends};
ghost use Rattle.fixed_interval.specs.Containment.{HoldsRoots};

use crate::interval::{Interval, between};
use fixed_kernel::sqrt_of;
use fixed_root::scaled_root;
use fixed_word::{Outcome, RawWord, Word, outcome_of};

/// Returns the interval of the square roots of the numbers in `a`, each bits over `2^frac`: from the root of the low
/// end, rounded down, to that of the high end, rounded up. Returns `None` if the low end is below 0 or an end does not
/// fit. Precondition: `frac` is at most the width.
pub fn sqrt_in<T: Word>(a: &Interval<T>, frac: u32) -> Option<Interval<T>>
    requires { frac ≤ T.BITS }
    ensures ends { option_map (ends_of T.value) result ≡ fitting T.SIGNED T.BITS (root_ends (ends_of T.value a.now) frac) }
    ensures holds { IfSome result (λ i. HoldsRoots (ends_of T.value a.now) frac (ends_of T.value i)) }
{
    let (low, high) = (a.lo(), a.hi());
    if low.is_below_zero() {
        return None;
    }
    between(sqrt_of(low, frac), ceiling_sqrt_of(high, frac))
}

/// Returns the outcome of the root of `a 2^frac`, rounded up. Precondition: `a` is at least 0.
fn ceiling_sqrt_of<T: Word>(a: T, frac: u32) -> Outcome<T>
    requires frac { frac ≤ T.BITS }
    requires sign { pos 0 ≤ℤ T.value a }
    ensures { StandsFor T.value T.SIGNED T.BITS (ceiling_root (T.value a) frac) result }
{
    let found = floor_root(a, frac);
    if scaled(a, frac) <= found * found {
        outcome_of(false, found)
    } else {
        outcome_of(false, found + 1)
    }
}

/// Returns the root of `a 2^frac`, rounded down. Precondition: `a` is at least 0.
fn floor_root<T: Word>(a: T, frac: u32) -> u128
    requires frac { frac ≤ T.BITS }
    requires sign { pos 0 ≤ℤ T.value a }
    ensures value { root_of (T.value a) frac ≡ pos result }
    ensures small { result < 2 ^ 64 }
{
    scaled_root(a.magnitude(), frac) as u128
}

/// Returns `a 2^frac`. Precondition: `a` is at least 0.
fn scaled<T: RawWord>(a: T, frac: u32) -> u128
    requires frac { frac ≤ T.BITS }
    requires sign { pos 0 ≤ℤ T.value a }
    ensures { pos result ≡ T.value a *ℤ pos (2 ^ frac) }
{
    (a.magnitude() as u128) << frac
}
