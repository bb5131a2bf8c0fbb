//! A script in which each line that may name a rounding names one.

ghost use Rattle.std.specs.Prelude.{◌≡◌, ◌<◌, ◌∷◌, ◌++◌, [], length, IfErr, IfOk, OnOk};
ghost use Rattle.fixed_word.specs.Pieces.{pieces};
ghost use Rattle.fixed_text.specs.inside.Ends.{after};
ghost use Rattle.fixed_script.specs.Names.{rounding_name};
ghost use Rattle.fixed_calc.specs.Spelled.{IsAnswerOfSpelling, spelled};
ghost use Rattle.fixed_calc.specs.inside.Spelling.{SpellsAll, HasSpelled, StopsSpelling, added_to, spelled_lines, with_end};
ghost use Rattle.fixed_machine.specs.inside.Stepping.{script_line_of};

use crate::demo::Script;
use fixed_script::{Line, Rounding, default_rounding, header_of_piece, line_of_piece};
use fixed_text::piece_end;
use std::alloc::{AllocError, Global};
use thiserror::Error;

/// Why a script cannot be spelled out.
#[derive(Debug, PartialEq, Eq, Drop, Error)]
pub enum ExplicitFault {
    /// The piece with this number is the first that is not a header or a line.
    #[error("line {0}: syntax")]
    Syntax(u64),
    /// Memory ran out.
    #[error("out of memory")]
    Memory,
}

/// Returns the rounding that is added to a line, if there is one.
fn added(line: &Line) -> Option<Rounding>
    ensures { result ≡ added_to (script_line_of line.now) }
{
    match line {
        Line::Set { .. } => None,
        Line::One { op, rounding, .. }
        | Line::Two { op, rounding, .. }
        | Line::Int { op, rounding, .. }
        | Line::Three { op, rounding, .. } => match rounding {
            Some(_) => None,
            None => default_rounding(*op),
        },
    }
}

/// Returns the end of a line that names the rounding.
fn end_of(rounding: Rounding) -> &'static [u8]
    ensures { result.now ≡ 32 ∷ (rounding_name rounding ++ (10 ∷ [])) }
{
    match rounding {
        Rounding::Down => b" down\n",
        Rounding::Zero => b" zero\n",
        Rounding::Even => b" even\n",
    }
}

/// Adds a piece, with the rounding that is added to its line.
fn push_spelled(script: &mut Vec<u8>, piece: &[u8], line: &Line) -> Result<(), AllocError>
    requires { 0 < length piece.now }
    ensures { OnOk result (script.new.items
        ≡ script.old.items ++ with_end (added_to (script_line_of line.now)) piece.now) }
{
    match added(line) {
        Some(rounding) => {
            script.extend_from_slice(&piece[..piece.len() - 1])?;
            script.extend_from_slice(end_of(rounding))
        }
        None => script.extend_from_slice(piece),
    }
}

/// Adds the first line of the rest, spelled out, and returns where it ends.
fn spell_line(script: &mut Vec<u8>, rest: &[u8], number: u64) -> Result<usize, ExplicitFault>
    requires { 0 < length rest.now }
    ensures ok { IfOk result (λ end. HasSpelled number rest.now end script.old.items script.new.items) }
    ensures err { IfErr result (λ fault. StopsSpelling
        (after script.old.items (spelled_lines number (pieces rest.now))) fault) }
{
    let end = piece_end(rest);
    let Some(line) = line_of_piece(&rest[..end]) else {
        return Err(ExplicitFault::Syntax(number));
    };
    match push_spelled(script, &rest[..end], &line) {
        Ok(()) => Ok(end),
        Err(_) => Err(ExplicitFault::Memory),
    }
}

/// Adds the lines after the header, spelled out.
fn spell_lines(script: &mut Vec<u8>, lines: &[u8]) -> Result<(), ExplicitFault>
    ensures { SpellsAll (after script.old.items (spelled_lines 2 (pieces lines.now)))
        result script.new.items }
{
    let mut at = 0;
    let mut number = 2;
    while at < lines.len() {
        match spell_line(script, &lines[at..], number) {
            Ok(end) => at += end,
            Err(fault) => return Err(fault),
        }
        number += 1;
    }
    Ok(())
}

/// Returns the script in which each line that may name a rounding names one: its own, or its operation's default. Fails
/// with `Syntax` and the number of the first piece that is not a header or a line, which is 1 for an empty script.
/// Whatever the script is, it may fail with `Memory`, if memory runs out.
pub fn explicit(alloc: Global, script: &[u8]) -> Result<Script, ExplicitFault>
    ensures { IsAnswerOfSpelling (spelled script.now) result }
{
    if script.is_empty() {
        return Err(ExplicitFault::Syntax(1));
    }
    let end = piece_end(script);
    let Some(_header) = header_of_piece(&script[..end]) else {
        return Err(ExplicitFault::Syntax(1));
    };
    // A line that gets a rounding has at least 19 bytes, and grows by 5.
    let Ok(mut bytes) = Vec::with_capacity(alloc, script.len() + script.len() / 2) else {
        return Err(ExplicitFault::Memory);
    };
    let Ok(()) = bytes.extend_from_slice(&script[..end]) else {
        return Err(ExplicitFault::Memory);
    };
    match spell_lines(&mut bytes, &script[end..]) {
        Ok(()) => Ok(Script::new(bytes)),
        Err(fault) => Err(fault),
    }
}
