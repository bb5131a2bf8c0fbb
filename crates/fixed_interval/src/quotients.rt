//! Quotients of intervals.

ghost use Rattle.std.specs.Prelude.{◌≡◌, ◌≢◌, ◌≤◌, ◌^◌, ◌*ℤ◌, IfSome, if◌then◌else◌, pos};
ghost use Rattle.std.specs.Option.{option_map};
ghost use Rattle.fixed_interval.specs.Ends.{ends_of, fitting, has_zero, quotient_ends, quotient_of};
ghost use Rattle.fixed_interval.specs.Containment.{HoldsQuotients};
ghost use Rattle.fixed_interval.specs.inside.OffZero.{ExcludesZero};
ghost use Rattle.fixed_interval.specs.inside.SignedMagnitudes.{rounded_over, value_of};

use crate::interval::{Interval, between, is_at_most};
use crate::signed_magnitude::{Outward, SignedMagnitude};
use fixed_word::{RawWord, Word};

/// Returns the interval of the quotients of a number in `a` by one in `b`, each bits over `2^frac`: from the least
/// quotient of two ends, rounded down, to the greatest, rounded up. Returns `None` if 0 is in `b` or an end does not
/// fit. Precondition: `frac` is at most the width.
pub fn div_in<T: Word>(a: &Interval<T>, b: &Interval<T>, frac: u32) -> Option<Interval<T>>
    requires { frac ≤ T.BITS }
    ensures ends { option_map (ends_of T.value) result ≡ fitting T.SIGNED T.BITS (quotient_ends (ends_of T.value a.now) (ends_of T.value b.now) frac) }
    ensures holds { IfSome result (λ i. HoldsQuotients (ends_of T.value a.now) (ends_of T.value b.now) frac (ends_of T.value i)) }
{
    if holds_zero(b) {
        return None;
    }
    between(
        least_quotient(a, b, frac).outcome(),
        greatest_quotient(a, b, frac).outcome(),
    )
}

/// Returns whether 0 is in `b`.
fn holds_zero<T: Word>(b: &Interval<T>) -> bool
    ensures { result ≡ has_zero (ends_of T.value b.now) }
{
    is_at_most(b.lo(), T::ZERO) && is_at_most(T::ZERO, b.hi())
}

/// Returns the least corner, rounded down.
fn least_quotient<T: Word>(a: &Interval<T>, b: &Interval<T>, frac: u32) -> SignedMagnitude
    requires frac { frac ≤ T.BITS }
    requires divisor { ExcludesZero (ends_of T.value b.now) }
    ensures { value_of result ≡ (quotient_of (ends_of T.value a.now) (ends_of T.value b.now) frac).low }
{
    let x = either(b.lo().is_below_zero(), a.hi(), a.lo());
    let y = either(x.is_below_zero(), b.lo(), b.hi());
    corner(x, y, frac, Outward::Down)
}

/// Returns the greatest corner, rounded up.
fn greatest_quotient<T: Word>(a: &Interval<T>, b: &Interval<T>, frac: u32) -> SignedMagnitude
    requires frac { frac ≤ T.BITS }
    requires divisor { ExcludesZero (ends_of T.value b.now) }
    ensures { value_of result ≡ (quotient_of (ends_of T.value a.now) (ends_of T.value b.now) frac).high }
{
    let x = either(b.lo().is_below_zero(), a.lo(), a.hi());
    let y = either(x.is_below_zero(), b.hi(), b.lo());
    corner(x, y, frac, Outward::Up)
}

/// Returns the first end if `first`, and otherwise the second.
#[inline]
fn either<T: RawWord>(first: bool, x: T, y: T) -> T
    ensures { result ≡ (if first then x else y) }
{
    if first { x } else { y }
}

/// Returns the corner of two ends, `x 2^frac / y`, rounded in that direction.
fn corner<T: RawWord>(x: T, y: T, frac: u32, way: Outward) -> SignedMagnitude
    requires frac { frac ≤ T.BITS }
    requires divisor { T.value y ≢ pos 0 }
    ensures { value_of result ≡ rounded_over way (T.value x *ℤ pos (2 ^ frac)) (T.value y) }
{
    SignedMagnitude::of(x)
        .scaled(frac)
        .over(SignedMagnitude::of(y), way)
}
