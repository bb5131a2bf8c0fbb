//! Decimals of whole numbers, capped at `2^64`.

ghost use Rattle.std.specs.Prelude.{◌≡◌, Some};
ghost use Rattle.std.specs.Option.{option_map};
ghost use Rattle.fixed_word.specs.Policies.{checked};
ghost use Rattle.fixed_text.specs.Decimals.{IsReading, decimal_of, decimal_value};
ghost use Rattle.fixed_text.specs.Numbers.{whole_in};
ghost use Rattle.fixed_text.specs.inside.Reader.{whole_at};

use fixed_digits::{natural_of, sign_of};
use fixed_word::{Outcome, Side, Word, outcome_of};

/// A whole number, by its sign and its magnitude. The magnitude is capped: `2^64` stands for each one of `2^64` or
/// more, which no word has as its value.
#[derive(Clone, Copy, Debug, PartialEq, Eq)]
pub struct Decimal {
    /// Whether the number is below 0.
    pub below_zero: bool,
    /// The magnitude, or `2^64` if it is larger.
    pub magnitude: u128,
}

/// Returns the whole number with this decimal: `0`, or digits without a leading 0, after a `-` if the number is below
/// 0. Returns `None` if no whole number has it.
pub fn read_decimal(piece: &[u8]) -> Option<Decimal>
    ensures reading { IsReading piece.now result }
    ensures held { result ≡ option_map decimal_of (whole_in piece.now) }
{
    whole_of(piece)
}

/// Returns the word of this number, or `None` if it does not fit.
pub fn value_in<T: Word>(number: &Decimal) -> Option<T>
    ensures { option_map T.value result
        ≡ checked T.SIGNED T.BITS (Some (decimal_value number.now)) }
{
    let outcome: Outcome<T> = outcome_of(number.below_zero, number.magnitude);
    match outcome.side {
        Side::Fits => Some(outcome.wrapped),
        Side::Above | Side::Below => None,
    }
}

/// Returns the whole number that the token writes, or `None` if it is not a decimal, such as `-0`.
fn whole_of(token: &[u8]) -> Option<Decimal>
    ensures { result ≡ whole_at token.now }
{
    let (below_zero, number) = sign_of(token);
    let magnitude = natural_of(number)?;
    if below_zero && magnitude == 0 {
        None
    } else {
        Some(Decimal {
            below_zero,
            magnitude,
        })
    }
}
