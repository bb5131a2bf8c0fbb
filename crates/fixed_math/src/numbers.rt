//! A test of words, which the typed calls make.

ghost use Rattle.std.specs.Prelude.{◌↔◌, ◌<ℤ◌, IsTrue, pos};

use fixed_word::RawWord;

/// Returns whether the value of a word is above 0.
pub(crate) fn is_above_zero<T: RawWord>(word: T) -> bool
    ensures { IsTrue result ↔ (pos 0 <ℤ T.value word) }
{
    !word.is_below_zero() && word.magnitude() > 0
}
