//! Why a text has no number in a format.

use thiserror::Error;

/// Why a text has no number in a format. The first three variants mean that it is not a decimal.
#[derive(Clone, Copy, Debug, PartialEq, Eq, Error)]
pub enum DecimalError {
    /// After its sign, the text is empty or one point.
    #[error("no digits")]
    NoDigits,
    /// After the sign, the byte at this index of the text is neither a digit nor a point, and no second point precedes
    /// it.
    #[error("invalid digit at byte {0}")]
    InvalidDigit(usize),
    /// The text has a second point, and only digits and points before it.
    #[error("more than one point")]
    TooManyPoints,
    /// The number does not fit.
    #[error("overflow")]
    Overflow,
    /// The number is not a multiple of the format's unit.
    #[error("not exactly a number of the format")]
    Inexact,
}
