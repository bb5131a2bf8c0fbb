//! The lines of a script.

ghost use Rattle.std.specs.Prelude.{◌≡◌, Some, IfSome, IfNone};
ghost use Rattle.fixed_script.specs.Names.{arity};
ghost use Rattle.fixed_script.specs.Text.{takes_rounding as rounds, ScriptLine, IsLine, line_text};
ghost use Rattle.fixed_script.specs.Capped.{capped, checked_script_line};
ghost use Rattle.fixed_text.specs.Tokens.{at_end, tokens_of};
ghost use Rattle.fixed_script.specs.inside.Parser.{set_at, named_at, rounding_at, operands_at, apply_at, line_at};

use crate::names::{Op, Policy, default_rounding, policy_of, rounding_of};
use crate::taking::{take_literal, take_op, take_policy, take_register};
use fixed_text::{Decimal, Tokens};
use fixed_word::Rounding;

/// The operands that an operation takes.
#[derive(Clone, Copy, Debug, PartialEq, Eq)]
pub enum Arity {
    Unary,
    Binary,
    ByInteger,
    Ternary,
}

/// A line after the header. Registers and literals are in the order of the text. `2^64` stands for each number of
/// `2^64` or more, which is not a declared register and not the value of any word. Operations that round may name a
/// rounding.
#[derive(Clone, Copy, Debug, PartialEq, Eq)]
pub enum Line {
    Set {
        dest: u128,
        literal: Decimal,
    },
    One {
        dest: u128,
        policy: Policy,
        op: Op,
        a: u128,
        rounding: Option<Rounding>,
    },
    Two {
        dest: u128,
        policy: Policy,
        op: Op,
        a: u128,
        b: u128,
        rounding: Option<Rounding>,
    },
    Int {
        dest: u128,
        policy: Policy,
        op: Op,
        a: u128,
        literal: Decimal,
        rounding: Option<Rounding>,
    },
    Three {
        dest: u128,
        policy: Policy,
        op: Op,
        a: u128,
        b: u128,
        c: u128,
        rounding: Option<Rounding>,
    },
}

/// Returns which operands the operation takes.
pub fn arity_of(op: Op) -> Arity
    ensures { result ≡ arity op }
{
    match op {
        Op::Neg | Op::Recip | Op::Sqrt | Op::Abs | Op::Signum | Op::NextPowerOfTwo => Arity::Unary,
        Op::Add
        | Op::Sub
        | Op::Mul
        | Op::Div
        | Op::DivEuclid
        | Op::NextMultipleOf
        | Op::Dist
        | Op::Rem
        | Op::RemEuclid => Arity::Binary,
        Op::MulInt | Op::DivInt | Op::DivEuclidInt | Op::RemEuclidInt | Op::RemInt =>
            Arity::ByInteger,
        Op::MulAdd | Op::AddProd => Arity::Ternary,
    }
}

/// Returns whether the operation may name its rounding.
pub fn takes_rounding(op: Op) -> bool
    ensures { result ≡ rounds op }
{
    default_rounding(op).is_some()
}

/// Returns the line if no token remains, and otherwise `None`.
fn at_end(tokens: &Tokens<'_>, line: Line) -> Option<Line>
    ensures { result ≡ at_end tokens.now line }
{
    if tokens.is_empty() { Some(line) } else { None }
}

#[tactic(auto, unfolding(crate::specs::inside::Parser::set_at))]
fn set_of(dest: u128, tokens: &mut Tokens<'_>) -> Option<Line>
    ensures { result ≡ set_at dest tokens.old }
{
    let literal = take_literal(tokens)?;
    at_end(tokens, Line::Set { dest, literal })
}

/// Returns the rounding that the last token names. The tokens are passed by value, so that those of the lines without a
/// rounding stay in registers.
#[inline(never)]
fn named_rounding(op: Op, mut tokens: Tokens<'_>) -> Option<Rounding>
    ensures { result ≡ named_at op tokens.entry }
{
    let rounding = rounding_of(tokens.take()?)?;
    if takes_rounding(op) && tokens.is_empty() {
        Some(rounding)
    } else {
        None
    }
}

/// Returns the rounding that the last token names, or none if no token remains.
#[inline(always)]
#[tactic(auto, unfolding(crate::specs::inside::Parser::rounding_at))]
fn rounding_at_end(op: Op, tokens: Tokens<'_>) -> Option<Option<Rounding>>
    ensures { result ≡ rounding_at op tokens.entry }
{
    if tokens.is_empty() {
        Some(None)
    } else {
        Some(Some(named_rounding(op, tokens)?))
    }
}

#[tactic(auto, unfolding(crate::specs::inside::Parser::operands_at))]
fn operands_of(dest: u128, policy: Policy, op: Op, a: u128, mut tokens: Tokens<'_>) -> Option<Line>
    ensures { result ≡ operands_at (arity op) dest policy op a tokens.entry }
{
    match arity_of(op) {
        Arity::Unary => {
            let rounding = rounding_at_end(op, tokens)?;
            Some(Line::One {
                dest,
                policy,
                op,
                a,
                rounding,
            })
        }
        Arity::Binary => {
            let b = take_register(&mut tokens)?;
            let rounding = rounding_at_end(op, tokens)?;
            Some(Line::Two {
                dest,
                policy,
                op,
                a,
                b,
                rounding,
            })
        }
        Arity::ByInteger => {
            let literal = take_literal(&mut tokens)?;
            let rounding = rounding_at_end(op, tokens)?;
            Some(Line::Int {
                dest,
                policy,
                op,
                a,
                literal,
                rounding,
            })
        }
        Arity::Ternary => {
            let b = take_register(&mut tokens)?;
            let c = take_register(&mut tokens)?;
            let rounding = rounding_at_end(op, tokens)?;
            Some(Line::Three {
                dest,
                policy,
                op,
                a,
                b,
                c,
                rounding,
            })
        }
    }
}

#[tactic(auto, unfolding(crate::specs::inside::Parser::apply_at))]
fn apply_of(dest: u128, policy: Policy, mut tokens: Tokens<'_>) -> Option<Line>
    ensures { result ≡ apply_at dest policy tokens.entry }
{
    let op = take_op(&mut tokens)?;
    let a = take_register(&mut tokens)?;
    operands_of(dest, policy, op, a, tokens)
}

/// Returns the line with these tokens, or `None` if no line has them.
#[tactic(auto, unfolding(crate::specs::inside::Parser::line_at))]
fn line_from(mut tokens: Tokens<'_>) -> Option<Line>
    ensures { result ≡ line_at tokens.entry }
{
    let dest = take_register(&mut tokens)?;
    let policy = match take_policy(&mut tokens) {
        Some(policy) => policy,
        None => {
            let name = tokens.take()?;
            if name == b"set".as_slice() {
                return set_of(dest, &mut tokens);
            }
            policy_of(name)?
        }
    };
    apply_of(dest, policy, tokens)
}

/// Returns the line whose text the piece is, without its newline, or `None` if no line has that text.
pub fn parse_line(piece: &[u8]) -> Option<Line>
    // None: no line has the piece as its text.
    ensures none { IfNone result
        ((line : ScriptLine) → IsLine line → line_text line ≡ piece.now → ⊥) }
    // Otherwise: the capped form of the line whose text it is.
    ensures found { IfSome result (λ read. (line : ScriptLine)
        × IsLine line × (line_text line ≡ piece.now) × (checked_script_line read ≡ Some (capped line))) }
{
    line_from(Tokens::new(piece))
}
