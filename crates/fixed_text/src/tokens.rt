//! The tokens of a line: the parts between its spaces.

ghost use Rattle.std.specs.Prelude.{◌≡◌, [], ◌∷◌, ◌==◌, MatchOption, Some, None, true, false, length, ◌+◌, ◌<◌, ◌≤◌};
ghost use Rattle.std.specs.List.{position};
ghost use Rattle.fixed_text.specs.inside.Free.{IsFreeUntil};
ghost use Rattle.fixed_text.specs.Tokens.{tokens_of, tokens_left};

use std::marker::Model;

/// Returns whether the byte is among the eight from `at` on. All eight are read, so that the compiler compares them at
/// once.
fn stands_in_eight(bytes: &[u8], at: usize, byte: u8) -> bool
    requires { at + 8 ≤ length bytes.now }
    ensures { result ≡ false → IsFreeUntil bytes.now byte at → IsFreeUntil bytes.now byte (at + 8) }
{
    let mut stands = false;
    for b in &bytes[at..at + 8] {
        stands |= *b == byte;
    }
    stands
}

/// Returns a place before which the byte does not occur. Eight bytes are compared at once.
fn free_eights(bytes: &[u8], byte: u8) -> usize
    ensures within { result ≤ length bytes.now }
    ensures free { IsFreeUntil bytes.now byte result }
{
    let mut at = 0;
    while bytes.len() - at >= 8 {
        if stands_in_eight(bytes, at, byte) {
            return at;
        }
        at += 8;
    }
    at
}

/// Returns the first place of the byte, or `None` if it does not occur.
pub(crate) fn first_place(bytes: &[u8], byte: u8) -> Option<usize>
    ensures { result ≡ position (λ b. b == byte) bytes.now }
{
    let mut at = free_eights(bytes, byte);
    while at < bytes.len() {
        if bytes[at] == byte {
            return Some(at);
        }
        at += 1;
    }
    None
}

/// Returns the first token of a piece, and the bytes after its space, or `None` if no space follows it.
pub fn cut(piece: &[u8]) -> (&[u8], Option<&[u8]>)
    ensures { tokens_of piece.now ≡ result.0.now ∷ tokens_left result.1 }
{
    match first_place(piece, b' ') {
        Some(at) => (&piece[..at], Some(&piece[at + 1..])),
        None => (piece, None),
    }
}

/// The remaining tokens of a piece. Contracts see them as a list.
#[derive(Drop)]
pub struct Tokens<'a> {
    rest: Option<&'a [u8]>,
}

impl<'a> Model for Tokens<'a> {
    ghost use Rattle.std.specs.Prelude.{ℕ, List};
    ghost use Rattle.fixed_text.specs.Tokens.{tokens_left};

    ghost Value = { List (List ℕ) };

    ghost view = { λ t. tokens_left t.rest };
}

impl<'a> Tokens<'a> {
    pub fn new(piece: &'a [u8]) -> Self
        ensures { result ≡ tokens_of piece.now }
    {
        Tokens { rest: Some(piece) }
    }

    /// Removes the next token and returns it, or returns `None` if no token remains.
    pub fn take(&mut self) -> Option<&'a [u8]>
        ensures { MatchOption result
            ((self.old ≡ []) × (self.new ≡ [])) (λ t. self.old ≡ t.now ∷ self.new) }
    {
        let piece = self.rest?;
        let (token, rest) = cut(piece);
        self.rest = rest;
        Some(token)
    }

    /// Returns the rest of the piece, at whose front the next token is, or `None` if no token remains.
    pub fn rest(&self) -> Option<&'a [u8]>
        ensures { tokens_left result ≡ self.now }
    {
        self.rest
    }

    /// Replaces the remaining tokens by those of these bytes, or by none.
    pub fn go_on(&mut self, rest: Option<&'a [u8]>)
        ensures { self.new ≡ tokens_left rest.entry }
    {
        self.rest = rest;
    }

    /// Returns whether no token remains.
    pub fn is_empty(&self) -> bool
        ensures { result ≡ (length self.now == 0) }
    {
        self.rest.is_none()
    }
}
