//! Angles of points, in turns.

ghost use Rattle.std.specs.Prelude.{◌≡◌, ◌≢◌, ◌≤◌, ◌<◌, ◌+◌, ◌-◌, ◌*◌, ◌^◌, ℤ, pos};
ghost use Rattle.fixed_word.specs.Format.{with_sign};
ghost use Rattle.fixed_word.specs.Standing.{StandsFor};
ghost use Rattle.fixed_turns.specs.Angles.{IsAngleOf, IsByQuarters, IsUpperAngle, is_below, turn_room};

use crate::octants::{power, rest_of};
use fixed_word::{Outcome, RawWord, outcome_of_magnitude};

/// Returns the angle of a point, from 0 to 1/2, in units of `2^-frac` turns. The point is `y` above the origin, and `x`
/// to its right or, if `below`, to its left. Preconditions: the coordinates are not both 0, and `frac` is from 2 to 64.
#[inline(always)]
fn by_quarters(below: bool, x: u64, y: u64, bits: u32, frac: u32) -> u64
    requires some { 0 < x + y }
    requires least { 2 ≤ frac }
    requires most { frac ≤ 64 }
    ensures { (v : ℤ) → v ≡ with_sign below x → IsByQuarters (turn_room bits) v y (frac - 2) result }
{
    let quarter = power(frac - 2);
    if y <= x {
        let rest = rest_of(x, y, bits, frac);
        if below { 2 * quarter - rest } else { rest }
    } else {
        let rest = rest_of(y, x, bits, frac);
        if below {
            quarter + rest
        } else {
            quarter - rest
        }
    }
}

/// Returns the same angle for any `frac` of at most 64. If `frac` is 0 or 1, a unit is larger than a quarter turn.
#[inline(always)]
fn upper_angle(below: bool, x: u64, y: u64, bits: u32, frac: u32) -> u64
    requires some { 0 < x + y }
    requires most { frac ≤ 64 }
    ensures { (v : ℤ) → v ≡ with_sign below x → below ≡ is_below v
        → IsUpperAngle (turn_room bits) v y frac result }
{
    if frac == 0 {
        0
    } else if frac == 1 {
        u64::from(below)
    } else {
        by_quarters(below, x, y, bits, frac)
    }
}

/// Returns the angle of the point `(x, y)` in units of `2^-frac` turns, from -1/2 to 1/2 turns, rounded to the nearest.
/// The result differs from the exact angle by at most half a unit plus `2^-k` radians, where k is 40 on words of up to
/// 32 bits and 60 on words of 64 bits. Multiples of 1/8 are exact if they are whole numbers of units. If y is 0 and x
/// is below 0, the exact angle is 1/2. Preconditions: the coordinates are not both 0, and `frac` is at most the width.
#[inline(always)]
pub fn atan2_turns_of<T: RawWord>(y: T, x: T, frac: u32) -> Outcome<T>
    requires fraction { frac ≤ T.BITS }
    requires some { T.value x ≡ pos 0 → T.value y ≢ pos 0 }
    ensures { (r : ℤ) × IsAngleOf (turn_room T.BITS) (T.value x) (T.value y) frac r
        × StandsFor T.value T.SIGNED T.BITS r result }
{
    let magnitude = upper_angle(
        x.is_below_zero(),
        x.magnitude(),
        y.magnitude(),
        T::BITS,
        frac,
    );
    outcome_of_magnitude(y.is_below_zero(), u128::from(magnitude))
}
