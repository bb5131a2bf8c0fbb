//! Products of intervals.

ghost use Rattle.std.specs.Prelude.{◌≡◌, ◌≤◌, ◌^◌, ◌*ℤ◌, IfSome, pos};
ghost use Rattle.std.specs.Int.{int_max, int_min};
ghost use Rattle.std.specs.Option.{option_map};
ghost use Rattle.fixed_kernel.specs.inside.Size.{IsProduct};
ghost use Rattle.fixed_interval.specs.Ends.{ceiling_over, ends_of, fitting, greatest_corner, least_corner, product_ends};
ghost use Rattle.fixed_interval.specs.Containment.{HoldsProducts};

use crate::interval::{Interval, between};
use fixed_word::{Arithmetic, Integer, RawWord, Word, outcome_of_whole};

/// Returns the interval of the products of a number in `a` and one in `b`, each bits over `2^frac`: from the least
/// product of two ends, rounded down, to the greatest, rounded up. Returns `None` if an end does not fit. Precondition:
/// `frac` is at most the width.
pub fn mul_in<T: Word>(a: &Interval<T>, b: &Interval<T>, frac: u32) -> Option<Interval<T>>
    requires { frac ≤ T.BITS }
    ensures ends { option_map (ends_of T.value) result ≡ fitting T.SIGNED T.BITS (product_ends (ends_of T.value a.now) (ends_of T.value b.now) frac) }
    ensures holds { IfSome result (λ i. HoldsProducts (ends_of T.value a.now) (ends_of T.value b.now) frac (ends_of T.value i)) }
{
    let low = least_product(a, b).floored(frac);
    let high = ceiled::<T>(greatest_product(a, b), frac);
    between(outcome_of_whole(low), outcome_of_whole(high))
}

/// Returns the least of the four corners.
#[inline]
fn least_product<T: Word>(a: &Interval<T>, b: &Interval<T>) -> T::Whole
    ensures value { T.Whole.value result ≡ least_corner (λ x y. x *ℤ y) (ends_of T.value a.now) (ends_of T.value b.now) }
    ensures size { IsProduct T.SIGNED T.BITS (T.Whole.value result) }
{
    least(
        least(corner(a.lo(), b.lo()), corner(a.lo(), b.hi())),
        least(corner(a.hi(), b.lo()), corner(a.hi(), b.hi())),
    )
}

/// Returns the greatest of the four corners.
#[inline]
fn greatest_product<T: Word>(a: &Interval<T>, b: &Interval<T>) -> T::Whole
    ensures value { T.Whole.value result ≡ greatest_corner (λ x y. x *ℤ y) (ends_of T.value a.now) (ends_of T.value b.now) }
    ensures size { IsProduct T.SIGNED T.BITS (T.Whole.value result) }
{
    greatest(
        greatest(corner(a.lo(), b.lo()), corner(a.lo(), b.hi())),
        greatest(corner(a.hi(), b.lo()), corner(a.hi(), b.hi())),
    )
}

/// Returns the corner of two ends, which is their product.
#[inline]
pub(crate) fn corner<T: Arithmetic>(x: T, y: T) -> T::Whole
    ensures value { T.Whole.value result ≡ T.value x *ℤ T.value y }
    ensures size { IsProduct T.SIGNED T.BITS (T.Whole.value result) }
{
    x.whole().times(y.whole())
}

/// Returns the lesser of two integers.
#[inline]
fn least<W: Integer>(x: W, y: W) -> W
    ensures { W.value result ≡ int_min (W.value x) (W.value y) }
{
    if y.is_below(x) { y } else { x }
}

/// Returns the greater of two integers.
#[inline]
fn greatest<W: Integer>(x: W, y: W) -> W
    ensures { W.value result ≡ int_max (W.value x) (W.value y) }
{
    if x.is_below(y) { y } else { x }
}

/// Returns a product over `2^frac`, rounded up.
#[inline]
pub(crate) fn ceiled<T: Arithmetic>(product: T::Whole, frac: u32) -> T::Whole
    requires frac { frac ≤ T.BITS }
    requires size { IsProduct T.SIGNED T.BITS (T.Whole.value product) }
    ensures { T.Whole.value result ≡ ceiling_over (T.Whole.value product) (pos (2 ^ frac)) }
{
    let floor = product.floored(frac);
    if floor.scaled(frac).equals(product) {
        floor
    } else {
        floor.plus(T::ONE.whole())
    }
}
