//! A short text, made without allocation.

ghost use Rattle.std.specs.Prelude.{◌≡◌, ◌≤◌, ◌+◌, ◌++◌, [], length};
ghost use Rattle.fixed_word.specs.Decimal.{natural_text};

use fixed_digits::decimal_into;
use std::marker::Model;

/// A text of at most 96 bytes.
#[derive(Drop)]
pub(crate) struct ShortText {
    bytes: [u8; 96],
    len: usize,
}

impl Model for ShortText {
    ghost use Rattle.std.specs.Prelude.{◌≤◌, List, ℕ, take};

    ghost Value = { List ℕ };

    ghost view = { λ t. take t.len t.bytes };

    ghost invariant = { λ t. t.len ≤ 96 };
}

impl ShortText {
    pub(crate) fn new() -> ShortText
        ensures { result ≡ [] }
    {
        ShortText {
            bytes: [0; 96],
            len: 0,
        }
    }

    /// Adds bytes. Precondition: there is room for them.
    pub(crate) fn push(&mut self, bytes: &[u8])
        requires { length self.old + length bytes.now ≤ 96 }
        ensures { self.new ≡ self.old ++ bytes.now }
    {
        let end = self.len + bytes.len();
        self.bytes[self.len..end].copy_from_slice(bytes);
        self.len = end;
    }

    /// Adds the decimal of a number. Precondition: there is room for 20 digits.
    pub(crate) fn push_number(&mut self, number: u64)
        requires { length self.old + 20 ≤ 96 }
        ensures text { self.new ≡ self.old ++ natural_text number }
        ensures len { length self.new ≤ length self.old + 20 }
    {
        let mut buffer = [0; 20];
        let start = decimal_into(number, &mut buffer);
        self.push(&buffer[start..]);
    }

    pub(crate) fn as_bytes(&self) -> &[u8]
        ensures { result.now ≡ self.now }
    {
        &self.bytes[..self.len]
    }
}
