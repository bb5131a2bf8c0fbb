//! The first piece of a script.

ghost use Rattle.std.specs.Prelude.{◌≡◌};
ghost use Rattle.std.specs.Option.{option_map};
ghost use Rattle.fixed_poly.specs.inside.Capped.{capped_header};
ghost use Rattle.fixed_poly.specs.Lines.{header_of};
ghost use Rattle.fixed_poly.specs.inside.Parser.{format_at, header_at};

use fixed_text::{Tokens, WordName, read_natural, word_of};

/// A word and a number of fraction bits. A number of `2^64` or more is held as `2^64`.
#[derive(Clone, Copy)]
pub(crate) struct PolyHeader {
    pub(crate) word: WordName,
    pub(crate) frac: u128,
}

/// Returns the word and the number of fraction bits that the tokens write, or `None` if the tokens are malformed.
#[tactic(auto, unfolding(crate::specs::inside::Parser::format_at))]
fn format_of(mut tokens: Tokens<'_>) -> Option<PolyHeader>
    ensures { result ≡ option_map capped_header (format_at tokens.entry) }
{
    let word = word_of(tokens.take()?)?;
    let frac = read_natural(tokens.take()?)?;
    if tokens.is_empty() {
        Some(PolyHeader { word, frac })
    } else {
        None
    }
}

/// Returns the header whose text the piece is, or `None` if the piece is malformed.
#[tactic(auto, unfolding(crate::specs::inside::Parser::header_at), using(crate::proofs::Readers::header_parsed))]
pub(crate) fn read_header(piece: &[u8]) -> Option<PolyHeader>
    ensures { result ≡ option_map capped_header (header_of piece.now) }
{
    let mut tokens = Tokens::new(piece);
    let name = tokens.take()?;
    if name == b"poly".as_slice() {
        format_of(tokens)
    } else {
        None
    }
}
