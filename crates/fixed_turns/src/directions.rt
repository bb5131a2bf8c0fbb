//! Angles of points, in radians.

ghost use Rattle.std.specs.Prelude.{◌≡◌, ◌≢◌, ◌⊎◌, ◌≤◌, ◌<◌, ◌≤ℤ◌, ◌+◌, ◌-◌, ◌*◌, ◌^◌, ℕ, ℤ, Bool, true, false, pos};
ghost use Rattle.fixed_word.specs.Format.{with_sign};
ghost use Rattle.fixed_word.specs.Standing.{StandsFor};
ghost use Rattle.fixed_turns.specs.Angles.{is_below};
ghost use Rattle.fixed_turns.specs.RadianAngles.{IsLeft, IsLeftBy, IsRadianAngle, IsRight, IsRightBy, IsSide, IsUpperRadians};
ghost use Rattle.fixed_turns.specs.Series.{Fraction, cosine_series, sine_series};
ghost use Rattle.fixed_turns.specs.Sines.{pi, sine_room};
ghost use Rattle.fixed_turns.specs.inside.Rests.{IsBetween, IsUnder};

use crate::angles::Angle;
use crate::constants::PI;
use crate::guesses::{probe, radians_near};
use crate::radians::{product, split_units};
use crate::series::{cosine, sine};
use fixed_word::{Outcome, RawWord, outcome_of_magnitude};

/// A point that is `y` above the origin, and `x` to its right or, if `left`, to its left.
#[derive(Clone, Copy)]
struct Point {
    left: bool,
    x: u64,
    y: u64,
}

/// Returns whether `a s <= b c`, where the sine s is to be negated if `below`, and b if `under`.
#[inline(always)]
fn is_at_most(a: u64, below: bool, sine: u64, under: bool, b: u64, cosine: u128) -> bool
    requires { cosine ≤ 2 ^ 64 }
    ensures left { result ≡ true → (with_sign below (a * sine)) ≤ℤ (with_sign under (b * cosine)) }
    ensures right { result ≡ false → (with_sign under (b * cosine)) ≤ℤ (with_sign below (a * sine)) }
{
    let across = product(a, sine);
    let along = u128::from(b) * cosine;
    if below && under {
        along <= across
    } else if below {
        true
    } else if under {
        across == 0 && along == 0
    } else {
        across <= along
    }
}

/// Returns whether the point `(a, b)`, or `(a, -b)` if `under`, lies to the left of the rest of an angle, up to
/// `(a + b) 2^-k`, where k is 41 on words of up to 32 bits and 61 on words of 64 bits.
#[inline(always)]
fn is_left_of_rest(a: u64, under: bool, b: u64, angle: Angle, bits: u32) -> bool
    requires { angle.rest ≤ 0xc910000000000000 }
    ensures left { result ≡ true → (s : Bool) (y : Fraction) (n m : ℕ) → IsUnder 2 angle.rest y
        → (s ≡ angle.below) ⊎ (angle.rest ≡ 0)
        → IsLeft (sine_room bits) s (pos a) (with_sign under b) (sine_series y (n + 10)) (cosine_series y (m + 10)) }
    ensures right { result ≡ false → (s : Bool) (y : Fraction) (n m : ℕ) → IsUnder 2 angle.rest y
        → (s ≡ angle.below) ⊎ (angle.rest ≡ 0)
        → IsRight (sine_room bits) s (pos a) (with_sign under b) (sine_series y (n + 10)) (cosine_series y (m + 10)) }
{
    is_at_most(
        a,
        angle.below,
        sine(angle.rest, bits),
        under,
        b,
        cosine(angle.rest, bits),
    )
}

/// Returns whether the point lies to the right of the origin.
#[inline(always)]
fn is_to_the_right(point: Point) -> bool
    ensures right { result ≡ true → (point.left ≡ false) × (point.x ≢ 0) }
    ensures other { result ≡ false → (point.left ≡ true) ⊎ (point.x ≡ 0) }
{
    !point.left && point.x > 0
}

/// Returns whether the point lies to the left of a direction in units of `2^-64` radians, up to the same part. The
/// direction may be half a unit too large. Precondition: it is hardly more than half a turn.
#[inline(always)]
fn is_left(point: Point, direction: u128, bits: u32) -> bool
    requires { direction ≤ 0x3a666000000000000 }
    ensures left { result ≡ true → (v : ℤ) (h g k : ℕ) → v ≡ with_sign point.left point.x → point.left ≡ is_below v
        → k * 2 ^ g ≡ 2 ^ 65 → 2 * direction ≤ h * k + 1 → h * k ≤ 2 * direction
        → IsSide (IsLeftBy (sine_room bits)) v (pos point.y) h g }
    ensures right { result ≡ false → (v : ℤ) (h g k : ℕ) → v ≡ with_sign point.left point.x → point.left ≡ is_below v
        → k * 2 ^ g ≡ 2 ^ 65 → 2 * direction ≤ h * k + 1 → h * k ≤ 2 * direction
        → IsSide (IsRightBy (sine_room bits)) v (pos point.y) h g }
{
    let angle = split_units(direction);
    if angle.quarter == 0 {
        point.left || is_left_of_rest(point.x, false, point.y, angle, bits)
    } else if angle.quarter == 1 {
        is_left_of_rest(point.y, !point.left, point.x, angle, bits)
    } else if is_to_the_right(point) {
        false
    } else {
        is_left_of_rest(point.x, true, point.y, angle, bits)
    }
}

/// Returns the direction of `units + 1/2` units of `2^-frac` radians, in units of `2^-64` radians, rounded up.
#[inline(always)]
fn direction(units: u128, frac: u32) -> u128
    requires frac { frac ≤ 64 }
    requires most { (2 * units + 1) * 2 ^ (64 - frac) ≤ 2 * 0x3a666000000000000 }
    ensures least { 2 * result ≤ (2 * units + 1) * 2 ^ (64 - frac) + 1 }
    ensures most { (2 * units + 1) * 2 ^ (64 - frac) ≤ 2 * result }
{
    if frac == 64 {
        units + 1
    } else {
        (2 * units + 1) << (63 - frac)
    }
}

/// Returns a number of units of `2^-frac` radians that is past half a turn, by at most a unit.
#[inline(always)]
fn past_pi(frac: u32) -> u128
    requires { frac ≤ 64 }
    ensures past { pi * 2 ^ (frac + 1) ≤ (2 * result + 1) * 10 ^ 39 }
    ensures near { (2 * result) * 2 ^ (64 - frac) ≤ 2 * 0x3a666000000000000 + 2 ^ (64 - frac) }
{
    (PI >> (126 - frac)) + 1
}

/// Returns the angle of the point in units of `2^-frac` radians, rounded to the nearest up to the same part.
#[inline(always)]
fn nearest(point: Point, guess: u128, bits: u32, frac: u32) -> u128
    requires { frac ≤ 64 }
    ensures { (v : ℤ) → v ≡ with_sign point.left point.x → point.left ≡ is_below v
        → IsBetween (sine_room bits) v (pos point.y) frac result }
{
    let mut low = 0;
    let mut high = past_pi(frac);
    let mut stride = 1_u128;
    while low < high {
        let units = probe(low, high, guess, stride);
        if is_left(point, direction(units, frac), bits) {
            low = units + 1;
        } else {
            high = units;
        }
        stride = stride.saturating_mul(2);
    }
    low
}

/// Returns the angle of the point in units of `2^-frac` radians. It is 0 on the axis to the right of the origin.
/// Precondition: the point is not the origin.
#[inline(always)]
fn upper_angle(point: Point, bits: u32, frac: u32) -> u128
    requires some { 0 < point.x + point.y }
    requires most { frac ≤ 64 }
    ensures { (v : ℤ) → v ≡ with_sign point.left point.x → point.left ≡ is_below v
        → IsUpperRadians (sine_room bits) v (pos point.y) frac result }
{
    if point.y == 0 && !point.left {
        return 0;
    }
    let guess = radians_near(point.left, point.x, point.y, bits, frac);
    nearest(point, guess, bits, frac)
}

/// Returns the angle of the point `(x, y)` in units of `2^-frac` radians, from -pi to pi, rounded to the nearest. The
/// result differs from the exact angle by at most half a unit plus `2^-k` radians, where k is 40 on words of up to 32
/// bits and 60 on words of 64 bits. The angle 0 is exact. If y is 0 and x is below 0, the exact angle is pi.
/// Preconditions: the coordinates are not both 0, and `frac` is at most the width.
#[inline(always)]
pub fn atan2_of<T: RawWord>(y: T, x: T, frac: u32) -> Outcome<T>
    requires fraction { frac ≤ T.BITS }
    requires some { T.value x ≡ pos 0 → T.value y ≢ pos 0 }
    ensures { (r : ℤ) × IsRadianAngle (sine_room T.BITS) (T.value x) (T.value y) frac r
        × StandsFor T.value T.SIGNED T.BITS r result }
{
    let point = Point {
        left: x.is_below_zero(),
        x: x.magnitude(),
        y: y.magnitude(),
    };
    outcome_of_magnitude(y.is_below_zero(), upper_angle(point, T::BITS, frac))
}
