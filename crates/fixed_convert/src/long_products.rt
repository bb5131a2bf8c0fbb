//! Products of up to 128 bits and a sign.

ghost use Rattle.std.specs.Prelude.{◌≡◌, ◌≤◌, ◌+◌, ◌*◌, ◌/◌, ◌%◌, ◌^◌, ◌*ℤ◌, Bool, suc, pos};
ghost use Rattle.fixed_word.specs.Format.{with_sign};
ghost use Rattle.fixed_word.specs.Standing.{StandsFor};
ghost use Rattle.fixed_kernel.specs.inside.Alike.{Alike};
ghost use Rattle.fixed_kernel.specs.inside.Steps.{rounding_step};
ghost use Rattle.fixed_convert.specs.Convert.{rounded_convert};

use crate::castable::Castable;
use fixed_word::{Outcome, RawWord, Rounding, outcome_of_magnitude};

/// Returns the product of two words over `2^from` in units of `2^-to`, rounded as named.
#[inline]
pub(crate) fn long_product_of<A: Castable, B: Castable, T: Castable>(
    a: A,
    b: B,
    from: u32,
    to: u32,
    rounding: Rounding,
) -> Outcome<T>
    requires { from ≤ 128 }
    ensures { StandsFor T.value T.SIGNED T.BITS
        (rounded_convert (A.value a *ℤ B.value b) from to rounding) result }
{
    let below_zero = a.is_below_zero() != b.is_below_zero();
    let magnitude = a.magnitude() as u128 * b.magnitude() as u128;
    if from <= to {
        outcome_of_magnitude(below_zero, raised_alike(magnitude, to - from))
    } else {
        outcome_of_magnitude(
            below_zero,
            lowered(below_zero, magnitude, from - to, rounding),
        )
    }
}

/// Returns a magnitude that has the same outcome as `magnitude 2^by` in every word.
#[inline]
fn raised_alike(magnitude: u128, by: u32) -> u128
    ensures { (below : Bool) → Alike (2 ^ 64) (with_sign below (magnitude * 2 ^ by)) (with_sign below result) }
{
    if magnitude == 0 {
        0
    } else if by >= 64 {
        1 << 64
    } else if magnitude < 1 << 64 {
        magnitude << by
    } else {
        (1 << 64) + ((magnitude % (1 << 64)) << by) % (1 << 64)
    }
}

/// Returns the magnitude of a number over `2^by`, rounded as named. The number is negative if `below_zero`.
#[inline]
fn lowered(below_zero: bool, magnitude: u128, by: u32, rounding: Rounding) -> u128
    requires { by ≤ 128 }
    ensures { result ≡ magnitude / 2 ^ by
        + rounding_step rounding below_zero (magnitude / 2 ^ by) (magnitude % 2 ^ by) (2 ^ by) }
{
    if by == 128 {
        return step(rounding, below_zero, 0, magnitude, u128::MAX);
    }
    let unit = 1 << by;
    let (quotient, remainder) = (magnitude >> by, magnitude % unit);
    quotient + step(rounding, below_zero, quotient, remainder, unit - 1)
}

/// Returns 1 if the rounding makes the magnitude greater than `quotient`, and otherwise 0. The divisor, which may be
/// `2^128`, is `last + 1`.
#[inline]
fn step(rounding: Rounding, below_zero: bool, quotient: u128, remainder: u128, last: u128) -> u128
    requires { remainder ≤ last }
    ensures { result ≡ rounding_step rounding below_zero quotient remainder (suc last) }
{
    let past = match rounding {
        Rounding::Down => below_zero && remainder > 0,
        Rounding::Zero => false,
        Rounding::Even => {
            let short = last - remainder;
            remainder > short && (quotient % 2 == 1 || remainder - short > 1)
        }
    };
    past as u128
}
