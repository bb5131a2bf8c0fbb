//! The lines of a script.

ghost use Rattle.std.specs.Prelude.{◌≡◌};
ghost use Rattle.std.specs.Option.{option_map};
ghost use Rattle.fixed_interval.specs.inside.Capped.{capped_line, capped_request};
ghost use Rattle.fixed_interval.specs.inside.Parser.{request_at, root_at, set_at, two_at};
ghost use Rattle.fixed_interval.specs.Lines.{line_of};

use crate::op::{IntervalOp, op_of};
use fixed_text::{Decimal, Tokens, read_decimal, read_numbered};

/// What a line stores in its destination. `2^64` stands for each register of `2^64` or more.
#[derive(Clone, Copy)]
pub(crate) enum Request {
    Set(Decimal, Decimal),
    Two(IntervalOp, u128, u128),
    Root(u128),
}

/// A line after the header.
#[derive(Clone, Copy)]
pub(crate) struct Line {
    pub(crate) dest: u128,
    pub(crate) request: Request,
}

/// Returns two given ends.
#[tactic(auto, unfolding(crate::specs::inside::Parser::set_at))]
fn set_of(mut tokens: Tokens<'_>) -> Option<Request>
    ensures { result ≡ option_map capped_request (set_at tokens.entry) }
{
    let low = read_decimal(tokens.take()?)?;
    let high = read_decimal(tokens.take()?)?;
    if tokens.is_empty() {
        Some(Request::Set(low, high))
    } else {
        None
    }
}

/// Returns an operation with the registers that the tokens name.
#[tactic(auto, unfolding(crate::specs::inside::Parser::two_at))]
fn two_of(op: IntervalOp, mut tokens: Tokens<'_>) -> Option<Request>
    ensures { result ≡ option_map capped_request (two_at op tokens.entry) }
{
    let a = read_numbered(b'i', tokens.take()?)?;
    let b = read_numbered(b'i', tokens.take()?)?;
    if tokens.is_empty() {
        Some(Request::Two(op, a, b))
    } else {
        None
    }
}

/// Returns a root with the register that the token names.
#[tactic(auto, unfolding(crate::specs::inside::Parser::root_at))]
fn root_of(mut tokens: Tokens<'_>) -> Option<Request>
    ensures { result ≡ option_map capped_request (root_at tokens.entry) }
{
    let a = read_numbered(b'i', tokens.take()?)?;
    if tokens.is_empty() {
        Some(Request::Root(a))
    } else {
        None
    }
}

/// Returns what the tokens after the destination request.
#[tactic(auto, unfolding(crate::specs::inside::Parser::request_at))]
fn request_of(mut tokens: Tokens<'_>) -> Option<Request>
    ensures { result ≡ option_map capped_request (request_at tokens.entry) }
{
    let name = tokens.take()?;
    if name == b"set".as_slice() {
        set_of(tokens)
    } else if name == b"sqrt".as_slice() {
        root_of(tokens)
    } else {
        let op = op_of(name)?;
        two_of(op, tokens)
    }
}

/// Returns the line whose text the piece is, or `None` if no line has that text.
#[tactic(auto, unfolding(crate::specs::inside::Parser::line_at), using(crate::proofs::Readers::line_parsed))]
pub(crate) fn read_line(piece: &[u8]) -> Option<Line>
    ensures { result ≡ option_map capped_line (line_of piece.now) }
{
    let mut tokens = Tokens::new(piece);
    let dest = read_numbered(b'i', tokens.take()?)?;
    let request = request_of(tokens)?;
    Some(Line { dest, request })
}
