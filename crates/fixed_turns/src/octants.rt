//! The angle of a point `(a, b)` whose coordinates are not below 0, if b is at most a. The angle is at most an eighth
//! of a turn.

ghost use Rattle.std.specs.Prelude.{◌≡◌, ◌≤◌, ◌<◌, ◌+◌, ◌-◌, ◌*◌, ◌^◌, ℕ, true, false};
ghost use Rattle.fixed_turns.specs.Angles.{IsBeside, IsLeftOf, IsNearest, IsRestOf, IsRightOf, turn_room};
ghost use Rattle.fixed_turns.specs.Series.{Fraction, cosine_series, sine_series};
ghost use Rattle.fixed_turns.specs.inside.Rests.{IsUnder};

use crate::guesses::{guess, probe};
use crate::series::{cosine, radians_of, sine};

/// Returns 2 to the power of `exponent`. Precondition: `exponent` is below 64.
#[inline(always)]
pub(crate) fn power(exponent: u32) -> u64
    requires { exponent < 64 }
    ensures { result ≡ 2 ^ exponent }
{
    1 << exponent
}

/// Returns whether `(a, b)` lies to the left of the direction of `x`, an angle in units of `2^-64` radians. The result
/// is right up to `2^-k` times a, where k is 40 on words of up to 32 bits and 60 on words of 64 bits.
#[inline(always)]
fn is_left(a: u64, b: u64, x: u64, bits: u32) -> bool
    requires octant { b ≤ a }
    requires most { x ≤ 0xc90fdaa22168c234 }
    ensures left { result ≡ true → (y : Fraction) (n m : ℕ) → IsUnder 2 x y
        → IsLeftOf (turn_room bits) a b (sine_series y (n + 10)) (cosine_series y (m + 10)) }
    ensures right { result ≡ false → (y : Fraction) (n m : ℕ) → IsUnder 2 x y
        → IsRightOf (turn_room bits) a b (sine_series y (n + 10)) (cosine_series y (m + 10)) }
{
    u128::from(a) * u128::from(sine(x, bits)) <= u128::from(b) * cosine(x, bits)
}

/// Returns whether `(a, b)` lies to the left of the direction of `units + 1/2` units of `2^-frac` turns, up to the same
/// bound. Precondition: that direction is below an eighth of a turn.
#[inline(always)]
fn is_above_half(a: u64, b: u64, units: u64, bits: u32, frac: u32) -> bool
    requires octant { b ≤ a }
    requires least { 2 ≤ frac }
    requires most { frac ≤ 64 }
    requires eighth { 2 * units + 1 < 2 ^ (frac - 2) }
    ensures left { result ≡ true
        → IsBeside IsLeftOf (turn_room bits) a b (2 * units + 1) (frac - 2 + 1) }
    ensures right { result ≡ false
        → IsBeside IsRightOf (turn_room bits) a b (2 * units + 1) (frac - 2 + 1) }
{
    is_left(a, b, radians_of((2 * units + 1) << (65 - frac)), bits)
}

/// Returns the angle of `(a, b)` in units of `2^-frac` turns, rounded to the nearest up to the same bound.
#[inline(always)]
fn nearest(a: u64, b: u64, guess: u64, bits: u32, frac: u32) -> u64
    requires octant { b ≤ a }
    requires least { 2 ≤ frac }
    requires most { frac ≤ 64 }
    ensures small { 2 * result ≤ 2 ^ (frac - 2) }
    ensures nearest { IsNearest (turn_room bits) a b (frac - 2) result }
{
    let mut low = 0;
    let mut high = power(frac - 2) / 2;
    let mut stride = 1_u64;
    while low < high {
        let units = probe(
            u128::from(low),
            u128::from(high),
            u128::from(guess),
            u128::from(stride),
        ) as u64;
        if is_above_half(a, b, units, bits, frac) {
            low = units + 1;
        } else {
            high = units;
        }
        stride = stride.saturating_mul(2);
    }
    low
}

/// Returns the angle of `(a, b)` in units of `2^-frac` turns, rounded to the nearest up to the same bound. It is 0 on
/// the axis. On the diagonal it is an eighth of a turn, rounded down.
#[inline(always)]
pub(crate) fn rest_of(a: u64, b: u64, bits: u32, frac: u32) -> u64
    requires some { 0 < a }
    requires octant { b ≤ a }
    requires least { 2 ≤ frac }
    requires most { frac ≤ 64 }
    ensures { IsRestOf (turn_room bits) a b (frac - 2) result }
{
    if b == 0 {
        0
    } else if b == a {
        power(frac - 2) / 2
    } else {
        nearest(a, b, guess(a, b, bits, frac), bits, frac)
    }
}
