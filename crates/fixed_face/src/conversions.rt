//! Conversions from other formats, and from and to doubles.
#![tactic(auto, unfolding(crate::specs::Calls::IsResultOf, crate::specs::Answers::ValueAnswers, crate::specs::Answers::at_fraction, crate::specs::Answers::row_or, crate::specs::Roundings::for_rounding))]

ghost use Rattle.std.specs.Prelude.{◌≡◌, Ok};
ghost use Rattle.std.specs.Float.{binary64};
ghost use Rattle.fixed_convert.specs.Convert.{rounded_convert};
ghost use Rattle.fixed_float.specs.Rows.{nearest_float, units_of_float};
ghost use Rattle.fixed_face.specs.declared.answer.Code.TheVariants.{NotFinite};
ghost use Rattle.fixed_face.specs.Answers.{ValueAnswers, at_fraction, row_or};
ghost use Rattle.fixed_face.specs.Calls.{IsResultOf};
ghost use Rattle.fixed_face.specs.Roundings.{at_rounding};

use crate::answer::Code;
use crate::rounded::rounding_of;
use fixed_convert::{Castable, convert_round_of};
use fixed_float::{from_float_round_of, to_float_of};
use fixed_word::{Outcome, RawWord};

/// Returns `number / 2^from` in units of `2^-to`, rounded as named. Fails with `FractionPastWidth` if `from` is greater
/// than the width of S, or `to` than that of T, and with `NoRounding` if no rounding has the number `rounding`.
#[inline]
pub fn convert<S: Castable, T: Castable>(
    number: S,
    from: u32,
    to: u32,
    rounding: u32,
) -> Result<Outcome<T>, Code>
    ensures { IsResultOf T.value T.SIGNED T.BITS
        (at_fraction S.BITS from (at_fraction T.BITS to (at_rounding rounding
        (λ r. Ok (rounded_convert (S.value number) from to r))))) result }
{
    if from > S::BITS || to > T::BITS {
        return Err(Code::FractionPastWidth);
    }
    let Some(rounding) = rounding_of(rounding) else {
        return Err(Code::NoRounding);
    };
    Ok(convert_round_of(number, from, to, rounding))
}

/// Returns the number of a double in units of `2^-frac`, rounded as named. Fails with `FractionPastWidth` if `frac` is
/// greater than the width, with `NoRounding` if no rounding has the number `rounding`, and with `NotFinite` if the
/// double is a NaN or an infinity.
#[inline]
pub fn from_double<T: RawWord>(number: f64, frac: u32, rounding: u32) -> Result<Outcome<T>, Code>
    ensures { IsResultOf T.value T.SIGNED T.BITS
        (at_fraction T.BITS frac (at_rounding rounding
        (λ r. row_or NotFinite (units_of_float number frac r)))) result }
{
    if frac > T::BITS {
        return Err(Code::FractionPastWidth);
    }
    let Some(rounding) = rounding_of(rounding) else {
        return Err(Code::NoRounding);
    };
    match from_float_round_of(number, frac, rounding) {
        Some(outcome) => Ok(outcome),
        None => Err(Code::NotFinite),
    }
}

/// Writes the double nearest to `a / 2^frac`, ties to even, and returns 0. Fails with `FractionPastWidth` if `frac` is
/// greater than the width.
#[inline]
pub fn to_double<T: Castable>(a: T, frac: u32, value: &mut f64) -> i32
    ensures { ValueAnswers (at_fraction T.BITS frac (Ok (nearest_float binary64 (T.value a) frac)))
        value.old value.new result }
{
    if frac > T::BITS {
        return Code::FractionPastWidth.number();
    }
    *value = to_float_of(a, frac);
    0
}
