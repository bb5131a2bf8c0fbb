//! Numbers from decimals, by each policy.

ghost use Rattle.std.specs.Prelude.{◌≡◌, ◌≤◌, ℤ, Bool, not, IfOk, Ok};
ghost use Rattle.fixed_word.specs.Format.{InRange, clamp, fits, wrap};
ghost use Rattle.fixed_word.specs.Standing.{StandsFor};
ghost use Rattle.fixed_word.specs.declared.rounding.Rounding.TheVariants.{Even};
ghost use Rattle.fixed_decimal.specs.Decimal.{decimal_row, exact_row};
ghost use Rattle.fixed_decimal.specs.Rows.{checked_decimal, result_map};

use crate::format::{Fixed, Held, Number};
use fixed_decimal::{DecimalError, decimal_of, exact_decimal_of};
use fixed_word::{
    Outcome, Rounding, Word, checked_of, overflowing_of, saturating_of, strict_of, wrapping_of,
};
use std::str::FromStr;

/// Numbers from decimals. They are rounded to the nearest unit, ties to even, or as named in the forms `.._round`.
/// Each call returns an error if the text is not a decimal. Precondition of each call: F is at most the width.
pub trait FromDecimal: Number {
    /// Returns the number, or the error `Overflow` if it does not fit. (This is `from_str` of `fixed`.)
    fn checked_from_str(text: &str) -> Result<Self, DecimalError>
        requires { Self.FRACTION ≤ Self.BITS }
        ensures { result_map Self.number result
            ≡ checked_decimal Self.SIGNED Self.BITS (decimal_row text.now Self.FRACTION Even) };

    /// Returns the nearest number that fits.
    fn saturating_from_str(text: &str) -> Result<Self, DecimalError>
        requires { Self.FRACTION ≤ Self.BITS }
        ensures { result_map Self.number result
            ≡ result_map (clamp Self.SIGNED Self.BITS) (decimal_row text.now Self.FRACTION Even) };

    /// Returns the number, wrapped.
    fn wrapping_from_str(text: &str) -> Result<Self, DecimalError>
        requires { Self.FRACTION ≤ Self.BITS }
        ensures { result_map Self.number result
            ≡ result_map (wrap Self.SIGNED Self.BITS) (decimal_row text.now Self.FRACTION Even) };

    /// Returns the number, wrapped, and whether it does not fit.
    fn overflowing_from_str(text: &str) -> Result<(Self, bool), DecimalError>
        requires { Self.FRACTION ≤ Self.BITS }
        ensures { result_map (λ r. (Self.number r.0, r.1)) result
            ≡ result_map {B = ℤ × Bool} (λ x. (wrap Self.SIGNED Self.BITS x, not (fits Self.SIGNED Self.BITS x)))
            (decimal_row text.now Self.FRACTION Even) };

    /// Returns the number. Precondition: it fits.
    fn strict_from_str(text: &str) -> Result<Self, DecimalError>
        requires fraction { Self.FRACTION ≤ Self.BITS }
        requires fits { IfOk (decimal_row text.now Self.FRACTION Even) (InRange Self.SIGNED Self.BITS) }
        ensures { result_map Self.number result ≡ decimal_row text.now Self.FRACTION Even };

    /// Returns the number. Precondition: it fits.
    fn unwrapped_from_str(text: &str) -> Result<Self, DecimalError>
        requires fraction { Self.FRACTION ≤ Self.BITS }
        requires fits { IfOk (decimal_row text.now Self.FRACTION Even) (InRange Self.SIGNED Self.BITS) }
        ensures { result_map Self.number result ≡ decimal_row text.now Self.FRACTION Even };

    /// Returns the number without rounding. Fails with `Inexact` if the decimal lies between two multiples of the
    /// unit, and otherwise with `Overflow` if it does not fit. (`fixed` does not have this call.)
    fn from_str_exact(text: &str) -> Result<Self, DecimalError>
        requires { Self.FRACTION ≤ Self.BITS }
        ensures { result_map Self.number result
            ≡ checked_decimal Self.SIGNED Self.BITS (exact_row text.now Self.FRACTION) };

    /// Returns the number, rounded as named, or the error `Overflow` if it does not fit.
    fn checked_from_str_round(text: &str, rounding: Rounding) -> Result<Self, DecimalError>
        requires { Self.FRACTION ≤ Self.BITS }
        ensures { result_map Self.number result
            ≡ checked_decimal Self.SIGNED Self.BITS (decimal_row text.now Self.FRACTION rounding) };

    /// Returns the nearest number that fits, rounded as named.
    fn saturating_from_str_round(text: &str, rounding: Rounding) -> Result<Self, DecimalError>
        requires { Self.FRACTION ≤ Self.BITS }
        ensures { result_map Self.number result
            ≡ result_map (clamp Self.SIGNED Self.BITS) (decimal_row text.now Self.FRACTION rounding) };

    /// Returns the number, rounded as named and wrapped.
    fn wrapping_from_str_round(text: &str, rounding: Rounding) -> Result<Self, DecimalError>
        requires { Self.FRACTION ≤ Self.BITS }
        ensures { result_map Self.number result
            ≡ result_map (wrap Self.SIGNED Self.BITS) (decimal_row text.now Self.FRACTION rounding) };

    /// Returns the number, rounded as named and wrapped, and whether it does not fit.
    fn overflowing_from_str_round(
        text: &str,
        rounding: Rounding,
    ) -> Result<(Self, bool), DecimalError>
        requires { Self.FRACTION ≤ Self.BITS }
        ensures { result_map (λ r. (Self.number r.0, r.1)) result
            ≡ result_map {B = ℤ × Bool} (λ x. (wrap Self.SIGNED Self.BITS x, not (fits Self.SIGNED Self.BITS x)))
            (decimal_row text.now Self.FRACTION rounding) };

    /// Returns the number, rounded as named. Precondition: it fits.
    fn strict_from_str_round(text: &str, rounding: Rounding) -> Result<Self, DecimalError>
        requires fraction { Self.FRACTION ≤ Self.BITS }
        requires fits { IfOk (decimal_row text.now Self.FRACTION rounding) (InRange Self.SIGNED Self.BITS) }
        ensures { result_map Self.number result ≡ decimal_row text.now Self.FRACTION rounding };

    /// Returns the number, rounded as named. Precondition: it fits.
    fn unwrapped_from_str_round(text: &str, rounding: Rounding) -> Result<Self, DecimalError>
        requires fraction { Self.FRACTION ≤ Self.BITS }
        requires fits { IfOk (decimal_row text.now Self.FRACTION rounding) (InRange Self.SIGNED Self.BITS) }
        ensures { result_map Self.number result ≡ decimal_row text.now Self.FRACTION rounding };
}

impl<T: Word, const F: u32> FromDecimal for Fixed<T, F> {
    fn checked_from_str(text: &str) -> Result<Self, DecimalError> {
        Self::checked_from_str_round(text, Rounding::Even)
    }

    fn saturating_from_str(text: &str) -> Result<Self, DecimalError> {
        Self::saturating_from_str_round(text, Rounding::Even)
    }

    fn wrapping_from_str(text: &str) -> Result<Self, DecimalError> {
        Self::wrapping_from_str_round(text, Rounding::Even)
    }

    fn overflowing_from_str(text: &str) -> Result<(Self, bool), DecimalError> {
        Self::overflowing_from_str_round(text, Rounding::Even)
    }

    fn strict_from_str(text: &str) -> Result<Self, DecimalError> {
        Self::strict_from_str_round(text, Rounding::Even)
    }

    fn unwrapped_from_str(text: &str) -> Result<Self, DecimalError> {
        Self::strict_from_str_round(text, Rounding::Even)
    }

    fn from_str_exact(text: &str) -> Result<Self, DecimalError> {
        match exact_decimal_of(text.as_bytes(), F) {
            Ok(outcome) => fitting(outcome),
            Err(error) => Err(error),
        }
    }

    fn checked_from_str_round(text: &str, rounding: Rounding) -> Result<Self, DecimalError> {
        match decimal_of(text.as_bytes(), F, rounding) {
            Ok(outcome) => fitting(outcome),
            Err(error) => Err(error),
        }
    }

    fn saturating_from_str_round(text: &str, rounding: Rounding) -> Result<Self, DecimalError> {
        match decimal_of(text.as_bytes(), F, rounding) {
            Ok(outcome) => Ok(Fixed {
                bits: saturating_of(outcome),
            }),
            Err(error) => Err(error),
        }
    }

    fn wrapping_from_str_round(text: &str, rounding: Rounding) -> Result<Self, DecimalError> {
        match decimal_of(text.as_bytes(), F, rounding) {
            Ok(outcome) => Ok(Fixed {
                bits: wrapping_of(outcome),
            }),
            Err(error) => Err(error),
        }
    }

    fn overflowing_from_str_round(
        text: &str,
        rounding: Rounding,
    ) -> Result<(Self, bool), DecimalError> {
        match decimal_of(text.as_bytes(), F, rounding) {
            Ok(outcome) => {
                let (bits, past) = overflowing_of(outcome);
                Ok((Fixed { bits }, past))
            }
            Err(error) => Err(error),
        }
    }

    fn strict_from_str_round(text: &str, rounding: Rounding) -> Result<Self, DecimalError> {
        match decimal_of(text.as_bytes(), F, rounding) {
            Ok(outcome) => Ok(Fixed {
                bits: strict_of(outcome),
            }),
            Err(error) => Err(error),
        }
    }

    fn unwrapped_from_str_round(text: &str, rounding: Rounding) -> Result<Self, DecimalError> {
        Self::strict_from_str_round(text, rounding)
    }
}

/// Returns the number of an outcome, or `Overflow` if it does not fit.
#[inline]
fn fitting<T: Word, const F: u32>(outcome: Outcome<T>) -> Result<Fixed<T, F>, DecimalError>
    ensures { (x : ℤ) → StandsFor T.value T.SIGNED T.BITS x outcome
        → result_map (λ y. T.value y.bits) result ≡ checked_decimal T.SIGNED T.BITS (Ok x) }
{
    match checked_of(outcome) {
        Some(bits) => Ok(Fixed { bits }),
        None => Err(DecimalError::Overflow),
    }
}

/// Returns the same as `checked_from_str`. Fails with `Overflow` if F is greater than the width.
impl<T: Word, const F: u32> FromStr for Fixed<T, F> {
    type Err = DecimalError;

    ghost from_str_gives = { λ text result. F ≤ T.BITS → result_map (λ x. T.value x.bits) result
        ≡ checked_decimal T.SIGNED T.BITS (decimal_row text F Even) };

    fn from_str(text: &str) -> Result<Self, DecimalError> {
        if F > T::BITS {
            return Err(DecimalError::Overflow);
        }
        FromDecimal::checked_from_str(text)
    }
}
