//! Constants from decimals.
//!
//! A `const fn` can call no method of a trait, and has no slicing. So each word has its own `lit`, which calls one of
//! two kernels without type parameters.

ghost use Rattle.std.specs.Prelude.{◌≡◌, IsSome, Some, false, pos, true};
ghost use Rattle.fixed_decimal.specs.Rows.{literal};

use crate::format::Fixed;
use fixed_decimal::{signed_literal, unsigned_literal};

impl<const F: u32> Fixed<i8, F> {
    /// Returns the number of a decimal, rounded to the nearest unit, ties to even. Preconditions: the text is a
    /// decimal, its number fits, and F is at most the width.
    pub const fn lit(text: &str) -> Self
        requires { IsSome (literal true 8 F text.now) }
        ensures { literal true 8 F text.now ≡ Some result.bits }
    {
        Fixed {
            bits: signed_literal(text.as_bytes(), F, 8) as i8,
        }
    }
}

impl<const F: u32> Fixed<i16, F> {
    /// Returns the number of a decimal, rounded to the nearest unit, ties to even. Preconditions: the text is a
    /// decimal, its number fits, and F is at most the width.
    pub const fn lit(text: &str) -> Self
        requires { IsSome (literal true 16 F text.now) }
        ensures { literal true 16 F text.now ≡ Some result.bits }
    {
        Fixed {
            bits: signed_literal(text.as_bytes(), F, 16) as i16,
        }
    }
}

impl<const F: u32> Fixed<i32, F> {
    /// Returns the number of a decimal, rounded to the nearest unit, ties to even. Preconditions: the text is a
    /// decimal, its number fits, and F is at most the width.
    pub const fn lit(text: &str) -> Self
        requires { IsSome (literal true 32 F text.now) }
        ensures { literal true 32 F text.now ≡ Some result.bits }
    {
        Fixed {
            bits: signed_literal(text.as_bytes(), F, 32) as i32,
        }
    }
}

impl<const F: u32> Fixed<i64, F> {
    /// Returns the number of a decimal, rounded to the nearest unit, ties to even. Preconditions: the text is a
    /// decimal, its number fits, and F is at most the width.
    pub const fn lit(text: &str) -> Self
        requires { IsSome (literal true 64 F text.now) }
        ensures { literal true 64 F text.now ≡ Some result.bits }
    {
        Fixed {
            bits: signed_literal(text.as_bytes(), F, 64),
        }
    }
}

impl<const F: u32> Fixed<u8, F> {
    /// Returns the number of a decimal, rounded to the nearest unit, ties to even. Preconditions: the text is a
    /// decimal, its number fits, and F is at most the width.
    pub const fn lit(text: &str) -> Self
        requires { IsSome (literal false 8 F text.now) }
        ensures { literal false 8 F text.now ≡ Some (pos result.bits) }
    {
        Fixed {
            bits: unsigned_literal(text.as_bytes(), F, 8) as u8,
        }
    }
}

impl<const F: u32> Fixed<u16, F> {
    /// Returns the number of a decimal, rounded to the nearest unit, ties to even. Preconditions: the text is a
    /// decimal, its number fits, and F is at most the width.
    pub const fn lit(text: &str) -> Self
        requires { IsSome (literal false 16 F text.now) }
        ensures { literal false 16 F text.now ≡ Some (pos result.bits) }
    {
        Fixed {
            bits: unsigned_literal(text.as_bytes(), F, 16) as u16,
        }
    }
}

impl<const F: u32> Fixed<u32, F> {
    /// Returns the number of a decimal, rounded to the nearest unit, ties to even. Preconditions: the text is a
    /// decimal, its number fits, and F is at most the width.
    pub const fn lit(text: &str) -> Self
        requires { IsSome (literal false 32 F text.now) }
        ensures { literal false 32 F text.now ≡ Some (pos result.bits) }
    {
        Fixed {
            bits: unsigned_literal(text.as_bytes(), F, 32) as u32,
        }
    }
}

impl<const F: u32> Fixed<u64, F> {
    /// Returns the number of a decimal, rounded to the nearest unit, ties to even. Preconditions: the text is a
    /// decimal, its number fits, and F is at most the width.
    pub const fn lit(text: &str) -> Self
        requires { IsSome (literal false 64 F text.now) }
        ensures { literal false 64 F text.now ≡ Some (pos result.bits) }
    {
        Fixed {
            bits: unsigned_literal(text.as_bytes(), F, 64),
        }
    }
}
