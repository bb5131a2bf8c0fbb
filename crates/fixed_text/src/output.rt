//! The bytes that a run writes.

ghost use Rattle.std.specs.Prelude.{◌≡◌, ◌++◌, ◌∷◌, [], OnErr, OnOk};
ghost use Rattle.fixed_word.specs.Decimal.{natural_text, whole_text};

use fixed_digits::{decimal_before, decimal_into};
use fixed_word::{RawWord, Word};
use std::alloc::{AllocError, Global};
use std::marker::Model;

/// The bytes that a run has written. Contracts see them as a list.
#[derive(Drop)]
pub struct Output {
    bytes: Vec<u8>,
}

impl Model for Output {
    ghost use Rattle.std.specs.Prelude.{List, ℕ};

    ghost Value = { List ℕ };

    ghost view = { λ o. o.bytes.items };
}

impl Output {
    /// Returns an output without bytes. This does not allocate.
    pub fn new(alloc: Global) -> Self
        ensures { result ≡ [] }
    {
        Output {
            bytes: Vec::new(alloc),
        }
    }

    /// Adds the bytes at the end. Fails if memory runs out; the bytes are then unchanged.
    pub fn append(&mut self, bytes: &[u8]) -> Result<(), AllocError>
        ensures added { OnOk result (self.new ≡ self.old ++ bytes.now) }
        ensures kept { OnErr result (self.new ≡ self.old) }
    {
        self.bytes.extend_from_slice(bytes)
    }

    /// Adds the decimal of a natural number at the end. Fails if memory runs out; the bytes are then unchanged.
    pub fn append_natural(&mut self, n: u64) -> Result<(), AllocError>
        ensures added { OnOk result (self.new ≡ self.old ++ natural_text n) }
        ensures kept { OnErr result (self.new ≡ self.old) }
    {
        let mut buffer = [0; 20];
        let start = decimal_into(n, &mut buffer);
        self.append(&buffer[start..])
    }

    /// Adds the decimal of a word's value at the end. Fails if memory runs out; a minus may then have been added.
    pub fn append_word<T: Word>(&mut self, word: T) -> Result<(), AllocError>
        ensures { OnOk result (self.new ≡ self.old ++ whole_text (T.value word)) }
    {
        if word.is_below_zero() {
            self.append(b"-")?;
        }
        self.append_natural(word.magnitude())
    }

    /// Adds the decimal of a word's value at the end, and a byte behind it. Fails if memory runs out; the bytes are then
    /// unchanged.
    pub fn append_word_and<T: Word>(&mut self, word: T, byte: u8) -> Result<(), AllocError>
        ensures added { OnOk result (self.new ≡ self.old ++ (whole_text (T.value word) ++ (byte ∷ []))) }
        ensures kept { OnErr result (self.new ≡ self.old) }
    {
        let mut buffer = [byte; 22];
        let digits = decimal_before(word.magnitude(), &mut buffer, 21);
        if word.is_below_zero() {
            buffer[digits - 1] = b'-';
            self.append(&buffer[digits - 1..])
        } else {
            self.append(&buffer[digits..])
        }
    }

    /// Returns the bytes.
    pub fn as_bytes(&self) -> &[u8]
        ensures { result.now ≡ self.now }
    {
        &self.bytes
    }
}
