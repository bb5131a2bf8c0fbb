//! The elementary functions, polynomials and filters of `u16`.
//!
//! Operands and results are bits, in units of `2^-frac`. A call returns 0 and writes a number, or it fails: it returns
//! the number of a code and leaves the number unchanged, unless its comment says otherwise. If several codes apply, it
//! returns the first one that its comment names. [`elementary`] states the bounds.

ghost use Rattle.std.specs.Prelude.{◌≡◌, false, pos};
ghost use Rattle.fixed_elementary.specs.ElementaryRows.{exact_hypot, exact_recip_sqrt};
ghost use Rattle.fixed_elementary.specs.Exp2.{IsExp2Of, exp2_room};
ghost use Rattle.fixed_elementary.specs.Log2.{IsLog2Of, log2_room};
ghost use Rattle.fixed_natural.specs.Exps.{IsExp};
ghost use Rattle.fixed_natural.specs.Logs.{IsLn, IsLog10, log_room};
ghost use Rattle.fixed_natural.specs.Pows.{IsPow};
ghost use Rattle.fixed_turns.specs.Angles.{IsAngleOf, turn_room};
ghost use Rattle.fixed_turns.specs.RadianAngles.{IsRadianAngle};
ghost use Rattle.fixed_turns.specs.Radians.{IsRadianCosine, IsRadianSine};
ghost use Rattle.fixed_turns.specs.Sines.{IsCosine, IsSine, sine_room};
ghost use Rattle.fixed_face.specs.Answers.{at_fraction};
ghost use Rattle.fixed_face.specs.FilterBlocks.{FilterBlockAnswers, left_of};
ghost use Rattle.fixed_face.specs.Filters.{filter_of, fractions, output_in, past_after};
ghost use Rattle.fixed_face.specs.Near.{NearAnswers, NearPairAnswers, allowed, off_origin, positive};
ghost use Rattle.fixed_face.specs.Places.{PlaceAnswers};
ghost use Rattle.fixed_face.specs.Polynomials.{horner_in};
ghost use Rattle.fixed_face.specs.NearCalls.{IsNear, operands};

use fixed_face::near_calls::{NearCall, near_of};
use fixed_face::{arrays, elementary};
use fixed_filter::Shape;

/// Writes the number of a call, or returns the code of why there is none, as [`near_of`] does.
#[inline(always)]
fn near(call: NearCall<u16>, number: &mut u16) -> i32
    ensures { NearAnswers pos false 16
        (operands pos 16 call) (IsNear pos 16 call)
        number.old number.new result }
{
    near_of(call, number)
}

/// Writes the length of the pair `(a, b)`, which is the root of `a^2 + b^2`, rounded down. Fails with `OutOfRange`.
#[unsafe(no_mangle)]
pub extern "C" fn fixed_u16_hypot(a: u16, b: u16, number: &mut u16) -> i32
    ensures { NearAnswers pos false 16
        allowed (λ r. r ≡ exact_hypot (pos a) (pos b))
        number.old number.new result }
{
    near(NearCall::Hypot(a, b), number)
}

/// Writes one over the square root of `a / 2^frac`, rounded down. Fails with `FractionPastWidth`, `NotPositive` or
/// `OutOfRange`.
#[unsafe(no_mangle)]
pub extern "C" fn fixed_u16_recip_sqrt(a: u16, frac: u32, number: &mut u16) -> i32
    ensures { NearAnswers pos false 16
        (at_fraction 16 frac (positive (pos a))) (λ r. r ≡ exact_recip_sqrt (pos a) frac)
        number.old number.new result }
{
    near(NearCall::RecipSqrt(a, frac), number)
}

/// Writes the logarithm of `a / 2^frac` to the base 2, rounded down within the bound of `IsLog2Of`. Fails with
/// `FractionPastWidth`, `NotPositive` or `OutOfRange`.
#[unsafe(no_mangle)]
pub extern "C" fn fixed_u16_log2(a: u16, frac: u32, number: &mut u16) -> i32
    ensures { NearAnswers pos false 16
        (at_fraction 16 frac (positive (pos a))) (IsLog2Of (log2_room 16) (pos a) frac)
        number.old number.new result }
{
    near(NearCall::Log2(a, frac), number)
}

/// Writes the natural logarithm of `a / 2^frac`, rounded down within the bound of `IsLn`. Fails with
/// `FractionPastWidth`, `NotPositive` or `OutOfRange`.
#[unsafe(no_mangle)]
pub extern "C" fn fixed_u16_ln(a: u16, frac: u32, number: &mut u16) -> i32
    ensures { NearAnswers pos false 16
        (at_fraction 16 frac (positive (pos a))) (IsLn (log_room 16) (pos a) frac)
        number.old number.new result }
{
    near(NearCall::Ln(a, frac), number)
}

/// Writes the logarithm of `a / 2^frac` to the base 10, rounded down within the bound of `IsLog10`. Fails with
/// `FractionPastWidth`, `NotPositive` or `OutOfRange`.
#[unsafe(no_mangle)]
pub extern "C" fn fixed_u16_log10(a: u16, frac: u32, number: &mut u16) -> i32
    ensures { NearAnswers pos false 16
        (at_fraction 16 frac (positive (pos a))) (IsLog10 (log_room 16) (pos a) frac)
        number.old number.new result }
{
    near(NearCall::Log10(a, frac), number)
}

/// Writes 2 to the power of `a / 2^frac`, rounded down within the bound of `IsExp2Of`. Fails with `FractionPastWidth`
/// or `OutOfRange`.
#[unsafe(no_mangle)]
pub extern "C" fn fixed_u16_exp2(a: u16, frac: u32, number: &mut u16) -> i32
    ensures { NearAnswers pos false 16
        (at_fraction 16 frac allowed) (IsExp2Of (exp2_room 16) (pos a) frac)
        number.old number.new result }
{
    near(NearCall::Exp2(a, frac), number)
}

/// Writes e to the power of `a / 2^frac`, rounded down within the bound of `IsExp`. Fails with `FractionPastWidth` or
/// `OutOfRange`.
#[unsafe(no_mangle)]
pub extern "C" fn fixed_u16_exp(a: u16, frac: u32, number: &mut u16) -> i32
    ensures { NearAnswers pos false 16
        (at_fraction 16 frac allowed) (IsExp (pos a) frac)
        number.old number.new result }
{
    near(NearCall::Exp(a, frac), number)
}

/// Writes `a / 2^frac` to the power of `b / 2^frac`, rounded down within the bound of `IsPow`. Fails with
/// `FractionPastWidth`, `NotPositive` or `OutOfRange`.
#[unsafe(no_mangle)]
pub extern "C" fn fixed_u16_pow(a: u16, b: u16, frac: u32, number: &mut u16) -> i32
    ensures { NearAnswers pos false 16
        (at_fraction 16 frac (positive (pos a))) (IsPow (pos a) (pos b) frac)
        number.old number.new result }
{
    near(NearCall::Pow(a, b, frac), number)
}

/// Writes the sine of `a / 2^frac` radians, rounded to the nearest within the bound of `IsRadianSine`. Fails with
/// `FractionPastWidth` or `OutOfRange`.
#[unsafe(no_mangle)]
pub extern "C" fn fixed_u16_sin(a: u16, frac: u32, number: &mut u16) -> i32
    ensures { NearAnswers pos false 16
        (at_fraction 16 frac allowed) (IsRadianSine (sine_room 16) (pos a) frac)
        number.old number.new result }
{
    near(NearCall::Sin(a, frac), number)
}

/// Writes the cosine of `a / 2^frac` radians, rounded to the nearest within the bound of `IsRadianCosine`. Fails with
/// `FractionPastWidth` or `OutOfRange`.
#[unsafe(no_mangle)]
pub extern "C" fn fixed_u16_cos(a: u16, frac: u32, number: &mut u16) -> i32
    ensures { NearAnswers pos false 16
        (at_fraction 16 frac allowed) (IsRadianCosine (sine_room 16) (pos a) frac)
        number.old number.new result }
{
    near(NearCall::Cos(a, frac), number)
}

/// Writes the sine and the cosine of `angle / 2^frac` radians, as `fixed_u16_sin` and `fixed_u16_cos` do. Fails with
/// `FractionPastWidth`, or with `OutOfRange` if one of both does not fit: both numbers are then unchanged.
#[unsafe(no_mangle)]
pub extern "C" fn fixed_u16_sin_cos(angle: u16, frac: u32, sine: &mut u16, cosine: &mut u16) -> i32
    ensures { NearPairAnswers pos false 16
        (at_fraction 16 frac allowed) (IsRadianSine (sine_room 16) (pos angle) frac)
        (IsRadianCosine (sine_room 16) (pos angle) frac)
        (sine.old, cosine.old) (sine.new, cosine.new) result }
{
    elementary::sin_cos(angle, frac, sine, cosine)
}

/// Writes the sine of `a / 2^frac` turns, rounded to the nearest within the bound of `IsSine`. Fails with
/// `FractionPastWidth` or `OutOfRange`.
#[unsafe(no_mangle)]
pub extern "C" fn fixed_u16_sin_turns(a: u16, frac: u32, number: &mut u16) -> i32
    ensures { NearAnswers pos false 16
        (at_fraction 16 frac allowed) (IsSine (sine_room 16) (pos a) frac)
        number.old number.new result }
{
    near(NearCall::SinTurns(a, frac), number)
}

/// Writes the cosine of `a / 2^frac` turns, rounded to the nearest within the bound of `IsCosine`. Fails with
/// `FractionPastWidth` or `OutOfRange`.
#[unsafe(no_mangle)]
pub extern "C" fn fixed_u16_cos_turns(a: u16, frac: u32, number: &mut u16) -> i32
    ensures { NearAnswers pos false 16
        (at_fraction 16 frac allowed) (IsCosine (sine_room 16) (pos a) frac)
        number.old number.new result }
{
    near(NearCall::CosTurns(a, frac), number)
}

/// Writes the sine and the cosine of `angle / 2^frac` turns, as `fixed_u16_sin_turns` and `fixed_u16_cos_turns` do. Fails
/// with `FractionPastWidth`, or with `OutOfRange` if one of both does not fit: both numbers are then unchanged.
#[unsafe(no_mangle)]
pub extern "C" fn fixed_u16_sin_cos_turns(
    angle: u16,
    frac: u32,
    sine: &mut u16,
    cosine: &mut u16,
) -> i32
    ensures { NearPairAnswers pos false 16
        (at_fraction 16 frac allowed) (IsSine (sine_room 16) (pos angle) frac) (IsCosine (sine_room 16) (pos angle) frac)
        (sine.old, cosine.old) (sine.new, cosine.new) result }
{
    elementary::sin_cos_turns(angle, frac, sine, cosine)
}

/// Writes the angle of the point `(x, y)` in units of `2^-frac` radians, from -pi to pi, rounded to the nearest within
/// the bound of `IsRadianAngle`. Fails with `FractionPastWidth`, `NoAngle` or `OutOfRange`.
#[unsafe(no_mangle)]
pub extern "C" fn fixed_u16_atan2(y: u16, x: u16, frac: u32, number: &mut u16) -> i32
    ensures { NearAnswers pos false 16
        (at_fraction 16 frac (off_origin (pos y) (pos x))) (IsRadianAngle (sine_room 16) (pos x) (pos y) frac)
        number.old number.new result }
{
    near(NearCall::Atan2(y, x, frac), number)
}

/// Writes the angle of the point `(x, y)` in units of `2^-frac` turns, from -1/2 to 1/2 turns, rounded to the nearest
/// within the bound of `IsAngleOf`. Fails with `FractionPastWidth`, `NoAngle` or `OutOfRange`.
#[unsafe(no_mangle)]
pub extern "C" fn fixed_u16_atan2_turns(y: u16, x: u16, frac: u32, number: &mut u16) -> i32
    ensures { NearAnswers pos false 16
        (at_fraction 16 frac (off_origin (pos y) (pos x))) (IsAngleOf (turn_room 16) (pos x) (pos y) frac)
        number.old number.new result }
{
    near(NearCall::Atan2Turns(y, x, frac), number)
}

/// Writes the value at `x` of the polynomial with these coefficients, the lowest first. Fails with `FractionPastWidth`,
/// `NoElement` or `OutOfRange`, which writes the index of the coefficient whose step does not fit.
#[unsafe(no_mangle)]
pub extern "C" fn fixed_u16_horner(
    coefs: &[u16],
    x: u16,
    frac: u32,
    value: &mut u16,
    step: &mut usize,
) -> i32
    ensures { PlaceAnswers pos (horner_in pos false 16 frac x coefs.now)
        (value.old, step.old) (value.new, step.new) result }
{
    arrays::horner(coefs, x, frac, value, step)
}

/// Puts the sample in front of the past samples, drops the oldest, and writes the output. Fails with
/// `FractionPastWidth`, `NoElement` or `CountsDiffer`, and the past samples are unchanged; or with `OutOfRange`, which
/// takes the sample, and writes the index of the tap whose partial sum does not fit.
#[unsafe(no_mangle)]
pub extern "C" fn fixed_u16_filter(
    taps: &[u16],
    past: &mut [u16],
    sample: u16,
    out_frac: u32,
    coef_frac: u32,
    sample_frac: u32,
    output: &mut u16,
    tap: &mut usize,
) -> i32
    ensures answer { PlaceAnswers pos
        (output_in pos false 16 (fractions out_frac coef_frac sample_frac) sample (filter_of taps.now past.old))
        (output.old, tap.old) (output.new, tap.new) result }
    ensures past { past.new ≡ past_after 16 (fractions out_frac coef_frac sample_frac) sample (filter_of taps.now past.old) }
{
    let shape = Shape {
        out_frac,
        coef_frac,
        sample_frac,
    };
    arrays::filter(taps, past, sample, shape, output, tap)
}

/// Filters a block of samples, the oldest first, and writes the output after each: as many steps of
/// `fixed_u16_filter`. Fails with `FractionPastWidth`, `NoElement` or `CountsDiffer`, and nothing is written; or with
/// `OutOfRange`, and writes the index of the first sample whose output does not fit, and of its tap: that sample is in
/// front of the past samples, and the outputs from there on are unchanged.
#[unsafe(no_mangle)]
pub extern "C" fn fixed_u16_filter_block(
    taps: &[u16],
    past: &mut [u16],
    input: &[u16],
    output: &mut [u16],
    out_frac: u32,
    coef_frac: u32,
    sample_frac: u32,
    sample: &mut usize,
    tap: &mut usize,
) -> i32
    ensures { FilterBlockAnswers pos false 16 (fractions out_frac coef_frac sample_frac) taps.now input.now
        (left_of past.old output.old sample.old tap.old) (left_of past.new output.new sample.new tap.new) result }
{
    let shape = Shape {
        out_frac,
        coef_frac,
        sample_frac,
    };
    arrays::filter_block(taps, past, input, output, shape, sample, tap)
}
