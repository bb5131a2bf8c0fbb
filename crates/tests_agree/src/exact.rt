//! Whole numbers as words, and the answers of typed calls that stand for them.

use fixed_num::Fixed;
use fixed_word::Word;

/// The whole number of a word.
pub fn number<T: Word>(word: T) -> i128 {
    let magnitude = word.magnitude() as i128;
    if word.is_below_zero() {
        -magnitude
    } else {
        magnitude
    }
}

/// The word that keeps the low bits of a number.
pub fn word<T: Word>(number: i128) -> T {
    T::residue(number < 0, number.unsigned_abs())
}

/// The checked, overflowing and wrapping answers of a call.
pub type Answers<T, const F: u32> = (Option<Fixed<T, F>>, (Fixed<T, F>, bool), Fixed<T, F>);

/// Those of a call whose number is `exact`.
pub fn answers_of<T: Word, const F: u32>(exact: i128) -> Answers<T, F> {
    let kept = Fixed { bits: word(exact) };
    let fits = number(T::MIN) <= exact && exact <= number(T::MAX);
    let checked = if fits { Some(kept) } else { None };
    (checked, (kept, !fits), kept)
}

/// Whether those are the answers of a call whose number is `exact`.
pub fn stand<T: Word, const F: u32>(answers: Answers<T, F>, exact: i128) -> bool {
    answers == answers_of(exact)
}
