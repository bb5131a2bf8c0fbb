//! The header of a script.

ghost use Rattle.std.specs.Prelude.{◌≡◌, IsTrue, IfSome, IfNone, List, ℕ};
ghost use Rattle.std.specs.Iterator.{YieldsFirst, item_count};
ghost use Rattle.fixed_script.specs.Text.{ScriptHeader, header_text};
ghost use Rattle.fixed_text.specs.Tokens.{tokens_of};
ghost use Rattle.fixed_script.specs.Headers.{capped_header, capped_fractions, all_decimal};

use fixed_digits::{is_decimal, value_of};
use fixed_text::{Tokens, WordName, cut, word_of};
use std::marker::Model;

/// A header, which borrows its text. Contracts see it as its word and its numbers of fraction bits, of which `2^64`
/// stands for each one of `2^64` or more.
#[derive(Drop)]
pub struct Header<'a> {
    word: WordName,
    fractions: &'a [u8],
}

impl<'a> Model for Header<'a> {
    ghost use Rattle.std.specs.Prelude.{IsTrue};
    ghost use Rattle.fixed_text.specs.Tokens.{tokens_of};
    ghost use Rattle.fixed_script.specs.Headers.{CappedHeader, capped_fractions, all_decimal};

    ghost Value = { CappedHeader };

    ghost view = { λ h. record { word = h.word; fractions = capped_fractions (tokens_of h.fractions.now) } };

    ghost invariant = { λ h. IsTrue (all_decimal (tokens_of h.fractions.now)) };
}

impl<'a> Header<'a> {
    /// Returns the word.
    pub fn word(&self) -> WordName
        ensures { result ≡ self.now.word }
    {
        self.word
    }

    /// Returns the numbers of fraction bits in order, one for each register.
    pub fn fractions(&self) -> Fractions<'_>
        ensures { result ≡ self.now.fractions }
    {
        Fractions {
            tokens: Tokens::new(self.fractions),
        }
    }
}

/// The remaining numbers of fraction bits of a header.
#[derive(Drop)]
pub struct Fractions<'a> {
    tokens: Tokens<'a>,
}

impl<'a> Model for Fractions<'a> {
    ghost use Rattle.std.specs.Prelude.{IsTrue, List, ℕ};
    ghost use Rattle.fixed_script.specs.Headers.{capped_fractions, all_decimal};

    ghost Value = { List ℕ };

    ghost view = { λ f. capped_fractions f.tokens };

    ghost invariant = { λ f. IsTrue (all_decimal f.tokens) };
}

impl<'a> Iterator for Fractions<'a> {
    type Item = u128;

    ghost can_next = { λ _. Unit {0} };

    ghost next_gives = { YieldsFirst (λ rest. rest) };

    ghost remaining = { item_count (λ rest. rest) };

    fn next(&mut self) -> Option<u128> {
        match self.tokens.take() {
            Some(token) => Some(value_of(token)),
            None => None,
        }
    }
}

/// Returns whether each token is a decimal.
fn all_decimal(bytes: &[u8]) -> bool
    ensures { result ≡ all_decimal (tokens_of bytes.now) }
{
    let mut tokens = Tokens::new(bytes);
    while let Some(token) = tokens.take() {
        if !is_decimal(token) {
            return false;
        }
    }
    true
}

/// Returns the header whose text the piece is, without its newline, or `None` if no header has that text.
pub fn parse_header(piece: &[u8]) -> Option<Header<'_>>
    // None: no header has the piece as its text.
    ensures none { IfNone result ((header : ScriptHeader) → header_text header ≡ piece.now → ⊥) }
    // Otherwise: the capped form of the header whose text it is.
    ensures found { IfSome result (λ read. (header : ScriptHeader)
        × (header_text header ≡ piece.now) × (read ≡ capped_header header)) }
{
    let (name, fractions) = cut(piece);
    let Some(word) = word_of(name) else {
        return None;
    };
    let Some(fractions) = fractions else {
        return None;
    };
    if all_decimal(fractions) {
        Some(Header { word, fractions })
    } else {
        None
    }
}
