//! The results of typed calls, as answers of the calculator.

ghost use Rattle.std.specs.Prelude.{◌≡◌, option_map};
ghost use Rattle.std.specs.Option.{option_map_or};

use fixed_machine::Answer;
use fixed_num::Fixed;
use fixed_word::RawWord;

/// Returns the whole number of a word.
fn whole_of<T: RawWord>(word: T) -> i128
    ensures { result ≡ T.value word }
{
    let magnitude = word.magnitude() as i128;
    if word.is_below_zero() {
        -magnitude
    } else {
        magnitude
    }
}

/// Returns the answer of a number, by its bits.
pub(crate) fn bits_of<T: RawWord, const F: u32>(number: Fixed<T, F>) -> Answer
    ensures { result ≡ Answer.Bits (T.value number.bits) }
{
    Answer::Bits(whole_of(number.bits))
}

/// Returns the answer of a number, or that without a value.
pub(crate) fn bits_or_absent<T: RawWord, const F: u32>(number: Option<Fixed<T, F>>) -> Answer
    ensures { result ≡ option_map_or (λ bits. Answer.Bits bits)
        (option_map (λ x. T.value x.bits) number) Answer.Absent }
{
    match number {
        Some(value) => bits_of(value),
        None => Answer::Absent,
    }
}

/// Returns the answer of a number with its verdict.
pub(crate) fn flagged_of<T: RawWord, const F: u32>(number: (Fixed<T, F>, bool)) -> Answer
    ensures { result ≡ Answer.Flagged (T.value number.0.bits) number.1 }
{
    let (value, verdict) = number;
    Answer::Flagged(whole_of(value.bits), verdict)
}
