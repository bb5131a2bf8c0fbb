//! Sines and cosines of angles in turns.

ghost use Rattle.std.specs.Prelude.{◌≡◌, ◌≤◌, ◌+◌, ◌/◌, ◌^◌, ℤ, not};
ghost use Rattle.fixed_word.specs.Format.{with_sign};
ghost use Rattle.fixed_word.specs.Standing.{StandsFor};
ghost use Rattle.fixed_turns.specs.Series.{Fraction, cosine_series, sine_series};
ghost use Rattle.fixed_turns.specs.Sines.{IsCosine, IsSine, IsSumAt, sine_room};
ghost use Rattle.fixed_turns.specs.inside.Rests.{IsSineNear, IsUnder};

use crate::angles::{part_of_turn, parted};
use crate::series::{cosine, radians_of, rounded, sine};
use crate::signed::{Signed, outcome_of_signed};
use fixed_word::{Outcome, RawWord};

/// Returns the sine of `x 2^-64` radians, in units of `2^-frac`, rounded to the nearest.
#[inline(always)]
fn sine_of(x: u64, bits: u32, frac: u32) -> u128
    requires small { x ≤ 0xc910000000000000 }
    requires frac { frac ≤ 64 }
    ensures value { (y : Fraction) → IsUnder 2 x y → IsSumAt sine_series (sine_room bits) y frac 0 result }
    ensures none { x ≡ 0 → result ≡ 0 }
{
    rounded(u128::from(sine(x, bits)), 64 - frac)
}

/// Returns the cosine of `x 2^-64` radians, in units of `2^-frac`, rounded to the nearest.
#[inline(always)]
fn cosine_of(x: u64, bits: u32, frac: u32) -> u128
    requires small { x ≤ 0xc910000000000000 }
    requires frac { frac ≤ 64 }
    ensures { (y : Fraction) → IsUnder 2 x y → IsSumAt cosine_series (sine_room bits) y frac (2 ^ frac) result }
{
    rounded(cosine(x, bits), 64 - frac)
}

/// Returns whether a number is below 0 after quarter turns, where `below` is whether it is so before them. A half turn
/// changes the sign.
#[inline(always)]
pub(crate) fn turned(quarter: u64, below: bool) -> bool
    ensures same { ¬ (quarter / 2 ≡ 1) → result ≡ below }
    ensures other { quarter / 2 ≡ 1 → result ≡ not below }
{
    (quarter / 2 == 1) != below
}

/// Returns the sine of quarter turns and `x 2^-64` radians, which are subtracted if `below`, in units of `2^-frac`. If x
/// is 0, it may stand for a small angle of either sign.
#[inline(always)]
fn sine_at(quarter: u64, below: bool, x: u64, bits: u32, frac: u32) -> Signed
    requires quarter { quarter ≤ 4 }
    requires small { x ≤ 0xc910000000000000 }
    requires frac { frac ≤ 64 }
    ensures { IsSineNear (sine_room bits) quarter below x frac (with_sign result.below_zero result.magnitude) }
{
    if quarter % 2 == 0 {
        Signed {
            below_zero: turned(quarter, below),
            magnitude: sine_of(x, bits, frac),
        }
    } else {
        Signed {
            below_zero: turned(quarter, false),
            magnitude: cosine_of(x, bits, frac),
        }
    }
}

/// Returns the outcome of that sine.
#[inline(always)]
pub(crate) fn outcome_at<T: RawWord>(quarter: u64, below: bool, x: u64, frac: u32) -> Outcome<T>
    requires quarter { quarter ≤ 4 }
    requires small { x ≤ 0xc910000000000000 }
    requires frac { frac ≤ 64 }
    ensures { (r : ℤ) × IsSineNear (sine_room T.BITS) quarter below x frac r × StandsFor T.value T.SIGNED T.BITS r result }
{
    outcome_of_signed(sine_at(quarter, below, x, T::BITS, frac))
}

/// Returns the sine of `a 2^-frac` turns, in units of `2^-frac`, rounded to the nearest. The result differs from the
/// exact sine by at most half a unit plus `2^-k`, where k is 41 on words of up to 32 bits and 61 on words of 64 bits.
/// Sines of whole quarter turns are exact, and none is above 1 or below -1. Precondition: `frac` is at most the width.
#[inline(always)]
pub fn sin_turns_of<T: RawWord>(a: T, frac: u32) -> Outcome<T>
    requires { frac ≤ T.BITS }
    ensures { (r : ℤ) × IsSine (sine_room T.BITS) (T.value a) frac r × StandsFor T.value T.SIGNED T.BITS r result }
{
    let angle = parted(part_of_turn(a, frac));
    outcome_at(angle.quarter, angle.below, radians_of(angle.rest), frac)
}

/// Returns the cosine of `a 2^-frac` turns, in units of `2^-frac`, rounded to the nearest. The result differs from the
/// exact cosine by at most half a unit plus `2^-k`, where k is 41 on words of up to 32 bits and 61 on words of 64 bits.
/// Cosines of whole quarter turns are exact, and none is above 1 or below -1. Precondition: `frac` is at most the
/// width.
#[inline(always)]
pub fn cos_turns_of<T: RawWord>(a: T, frac: u32) -> Outcome<T>
    requires { frac ≤ T.BITS }
    ensures { (r : ℤ) × IsCosine (sine_room T.BITS) (T.value a) frac r × StandsFor T.value T.SIGNED T.BITS r result }
{
    let angle = parted(part_of_turn(a, frac));
    outcome_at(angle.quarter + 1, angle.below, radians_of(angle.rest), frac)
}

/// Returns the sine and the cosine of `a 2^-frac` turns, in units of `2^-frac`, both rounded to the nearest. Each
/// result differs from its exact value by at most half a unit plus `2^-k`, where k is 41 on words of up to 32 bits and
/// 61 on words of 64 bits. The results at whole quarter turns are exact, and none is above 1 or below -1. Precondition:
/// `frac` is at most the width.
#[inline(always)]
pub fn sin_cos_turns_of<T: RawWord>(a: T, frac: u32) -> (Outcome<T>, Outcome<T>)
    requires { frac ≤ T.BITS }
    ensures sine { (r : ℤ) × IsSine (sine_room T.BITS) (T.value a) frac r
        × StandsFor T.value T.SIGNED T.BITS r result.0 }
    ensures cosine { (r : ℤ) × IsCosine (sine_room T.BITS) (T.value a) frac r
        × StandsFor T.value T.SIGNED T.BITS r result.1 }
{
    let angle = parted(part_of_turn(a, frac));
    let x = radians_of(angle.rest);
    let sine = outcome_at(angle.quarter, angle.below, x, frac);
    (sine, outcome_at(angle.quarter + 1, angle.below, x, frac))
}
