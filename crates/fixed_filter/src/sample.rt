//! Types that hold the word of a tap, a sample or an output: the word itself, or a number.

ghost use Rattle.std.specs.Prelude.{◌≡◌};

use fixed_num::Fixed;
use fixed_word::RawWord;

/// A type that holds a word.
pub(crate) trait Sample<T>: Copy {
    // the word that a value holds
    ghost held: { Self → T };

    /// Returns the word.
    fn to_word(self) -> T
        ensures { result ≡ held self };

    /// Returns the value that holds a word.
    fn from_word(word: T) -> Self
        ensures { held result ≡ word };
}

impl<T: RawWord> Sample<T> for T {
    ghost held = { λ x. x };

    fn to_word(self) -> T {
        self
    }

    fn from_word(word: T) -> T {
        word
    }
}

impl<T: RawWord, const F: u32> Sample<T> for Fixed<T, F> {
    ghost held = { λ x. x.bits };

    fn to_word(self) -> T {
        self.bits
    }

    fn from_word(word: T) -> Self {
        Fixed { bits: word }
    }
}
