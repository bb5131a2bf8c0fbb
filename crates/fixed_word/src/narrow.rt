//! Words that have a word of twice their width.

ghost use Rattle.std.specs.Prelude.{◌≡◌, ◌*◌, refl};
ghost use Rattle.fixed_word.specs.Format.{InRange};

use crate::word::{RawWord, Valued, Word};

/// A word of 8 to 32 bits.
pub trait Narrow: Word {
    /// The word of twice the width and of the same signedness.
    type Double: Word;

    /// Returns the same value in the word of twice the width.
    fn widen(self) -> Self::Double
        ensures value { Self.Double.value result ≡ Self.value self }
        ensures in_range { InRange Self.SIGNED Self.BITS (Self.value self) };

    ghost double_width_law: { Self.Double.BITS ≡ 2 * Self.BITS };

    ghost double_sign_law: { Self.Double.SIGNED ≡ Self.SIGNED };
}

impl Narrow for u8 {
    type Double = u16;

    fn widen(self) -> u16 {
        u16::from(self)
    }

    ghost double_width_law = { refl };

    ghost double_sign_law = { refl };
}

impl Narrow for u16 {
    type Double = u32;

    fn widen(self) -> u32 {
        u32::from(self)
    }

    ghost double_width_law = { refl };

    ghost double_sign_law = { refl };
}

impl Narrow for u32 {
    type Double = u64;

    fn widen(self) -> u64 {
        u64::from(self)
    }

    ghost double_width_law = { refl };

    ghost double_sign_law = { refl };
}

impl Narrow for i8 {
    type Double = i16;

    fn widen(self) -> i16 {
        i16::from(self)
    }

    ghost double_width_law = { refl };

    ghost double_sign_law = { refl };
}

impl Narrow for i16 {
    type Double = i32;

    fn widen(self) -> i32 {
        i32::from(self)
    }

    ghost double_width_law = { refl };

    ghost double_sign_law = { refl };
}

impl Narrow for i32 {
    type Double = i64;

    fn widen(self) -> i64 {
        i64::from(self)
    }

    ghost double_width_law = { refl };

    ghost double_sign_law = { refl };
}
