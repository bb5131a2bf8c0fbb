//! The line and the header of a piece, which ends in a newline.

ghost use Rattle.fixed_script.specs.ReadPieces.{ReadsLine, ReadsHeader};

use crate::header::{Header, parse_header};
use crate::line::{Line, parse_line};
use fixed_text::body_of;

/// Returns the line of a piece, or `None` if the piece is not the text of a line and a newline.
pub fn line_of_piece(piece: &[u8]) -> Option<Line>
    ensures { ReadsLine piece.now result }
{
    match body_of(piece) {
        Some(body) => parse_line(body),
        None => None,
    }
}

/// Returns the header of a piece, or `None` if the piece is not the text of a header and a newline.
pub fn header_of_piece(piece: &[u8]) -> Option<Header<'_>>
    ensures { ReadsHeader piece.now result }
{
    match body_of(piece) {
        Some(body) => parse_header(body),
        None => None,
    }
}
