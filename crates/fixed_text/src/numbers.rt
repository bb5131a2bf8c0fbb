//! Reading tokens as numbers and as words.

ghost use Rattle.std.specs.Prelude.{◌≡◌, Some, map};
ghost use Rattle.std.specs.Option.{option_map};
ghost use Rattle.fixed_text.specs.Decimals.{decimal_of, decimal_value};
ghost use Rattle.fixed_text.specs.Numbers.{natural_in, numbered_in, only_number, whole_in, wholes_in};
ghost use Rattle.fixed_digits.specs.Numerals.{cap};
ghost use Rattle.fixed_text.specs.Readings.{fitting_number, fitting_numbers};
ghost use Rattle.fixed_text.specs.Answers.{IsAnswerOfReading};

use crate::decimal::{Decimal, read_decimal, value_in};
use crate::fault::LineFault;
use crate::tokens::Tokens;
use fixed_digits::natural_of;
use fixed_word::{RawWord, Word};
use std::alloc::Global;

/// Returns the natural number with this decimal, or `2^64` if it is larger. Returns `None` if no natural number has it.
pub fn read_natural(token: &[u8]) -> Option<u128>
    ensures { result ≡ option_map cap (natural_in token.now) }
{
    natural_of(token)
}

/// Returns the natural number whose decimal follows the letter, or `2^64` if it is larger. Returns `None` if the token
/// is not this letter and a decimal.
#[tactic(auto, unfolding(crate::specs::Numbers::numbered_in))]
pub fn read_numbered(letter: u8, token: &[u8]) -> Option<u128>
    ensures { result ≡ option_map cap (numbered_in letter token.now) }
{
    match token {
        [first, digits @ ..] => {
            if *first == letter {
                read_natural(digits)
            } else {
                None
            }
        }
        [] => None,
    }
}

/// Returns the whole number that the remaining tokens write, or `None` unless they are one decimal and nothing else.
pub fn read_only_number(tokens: Tokens<'_>) -> Option<Decimal>
    ensures { result ≡ option_map decimal_of (only_number tokens.entry) }
{
    match tokens.rest() {
        Some(rest) => read_decimal(rest),
        None => None,
    }
}

/// Returns the word of a number. Fails with `LineFault::Unfit` if the number does not fit.
pub fn fitting<T: Word>(number: &Decimal) -> Result<T, LineFault>
    ensures { IsAnswerOfReading T.value
        (fitting_number T.SIGNED T.BITS (Some (decimal_value number.now))) result }
{
    match value_in(number) {
        Some(word) => Ok(word),
        None => Err(LineFault::Unfit),
    }
}

/// Returns the word of the number with this decimal. Fails with `LineFault::Unformed` if no number has it, and with
/// `LineFault::Unfit` if the number does not fit.
pub fn read_word<T: Word>(token: &[u8]) -> Result<T, LineFault>
    ensures { IsAnswerOfReading T.value (fitting_number T.SIGNED T.BITS (whole_in token.now)) result }
{
    match read_decimal(token) {
        Some(number) => fitting(&number),
        None => Err(LineFault::Unformed),
    }
}

/// Returns the words of the numbers with these decimals, in order. Fails with `LineFault::Unformed` if a token is not a
/// decimal, and otherwise with `LineFault::Unfit` if a number does not fit. Whatever the tokens are, it may fail with
/// `LineFault::Wanting`, if memory runs out.
pub fn read_words<T: Word>(alloc: Global, mut tokens: Tokens<'_>) -> Result<Vec<T>, LineFault>
    ensures { IsAnswerOfReading (λ words. map T.value words.items)
        (fitting_numbers T.SIGNED T.BITS (wholes_in tokens.entry)) result }
{
    let mut words = Vec::new(alloc);
    let mut fit = true;
    'each: while let Some(token) = tokens.take() {
        match read_word(token) {
            Ok(word) => match words.push(word) {
                Ok(()) => {}
                Err(_) => return Err(LineFault::Wanting),
            },
            Err(LineFault::Unfit) => fit = false,
            Err(refusal) => return Err(refusal),
        }
    }
    if fit {
        Ok(words)
    } else {
        Err(LineFault::Unfit)
    }
}
