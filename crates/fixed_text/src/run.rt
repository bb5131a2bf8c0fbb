//! The loop that all runs share.

ghost use Rattle.std.specs.Prelude.{◌≡◌, Bool, List, [], MatchOption, None, Some, drop, slice_index_or, ℕ};
ghost use Rattle.fixed_word.specs.Pieces.{body, pieces};
ghost use Rattle.fixed_text.specs.Runs.{Meaning, lines_from, meaning_of};
ghost use Rattle.fixed_text.specs.Readings.{PieceCause, Reading, line_by};
ghost use Rattle.fixed_text.specs.Answers.{IsAnswerOfRun, IsStepOfLine};
ghost use Rattle.fixed_text.specs.Words.{is_signed, width};
ghost use Rattle.fixed_text.specs.inside.Pieces.{IsStepOfPiece};

use crate::fault::{LineFault, RunFault};
use crate::names::WordName;
use crate::output::Output;
use crate::pieces::{body_of, piece_end};
use fixed_word::{RawWord, Valued, Word};
use std::alloc::Global;

/// The state of a run, which each line changes.
pub trait Run: Sized + Drop {
    // What a line means in a state: the next state and the bytes that the line prints, or its cause.
    ghost line: { Self → List ℕ → Reading (Self × List ℕ) };

    /// Takes a line, without its newline: changes the state and adds what the line prints. Fails with
    /// `LineFault::Unformed` if the line is malformed, and with `LineFault::Unfit` if a number in it is out of range.
    /// Whatever the line is, it may fail with `LineFault::Wanting`, if memory runs out.
    fn step(&mut self, bytes: &[u8], output: &mut Output) -> Result<(), LineFault>
        ensures { IsStepOfLine (line self.old bytes.now) result self.new output.old output.new };
}

/// Returns the first piece of a script, without its newline, and the bytes after it. Returns `None` if the script is
/// empty or its first piece has no newline.
pub fn open(script: &[u8]) -> Option<(&[u8], &[u8])>
    ensures { MatchOption result (body (slice_index_or (pieces script.now) 0 []) ≡ None)
        (λ found. (body (slice_index_or (pieces script.now) 0 []) ≡ Some found.0.now)
        × (drop 1 (pieces script.now) ≡ pieces found.1.now)) }
{
    if script.is_empty() {
        return None;
    }
    let end = piece_end(script);
    match body_of(&script[..end]) {
        Some(header) => Some((header, &script[end..])),
        None => None,
    }
}

/// Takes a piece as a line. A piece without a newline is malformed.
fn line_piece<R: Run>(
    run: &mut R,
    piece: &[u8],
    number: u64,
    output: &mut Output,
) -> Result<(), RunFault>
    ensures { IsStepOfPiece (line_by R.line run.old number piece.now) result
        run.new output.old output.new }
{
    match body_of(piece) {
        Some(bytes) => match run.step(bytes, output) {
            Ok(()) => Ok(()),
            Err(LineFault::Unformed) => Err(RunFault::Syntax(number)),
            Err(LineFault::Unfit) => Err(RunFault::OutOfRange(number)),
            Err(LineFault::Wanting) => Err(RunFault::Memory),
        },
        None => Err(RunFault::Syntax(number)),
    }
}

/// Returns what the lines of a script print, which are the pieces from 2 on, or their first fault. Whatever the lines
/// are, it may fail with `RunFault::Memory`, if memory runs out.
pub fn run_lines<R: Run>(alloc: Global, mut run: R, lines: &[u8]) -> Result<Output, RunFault>
    ensures { IsAnswerOfRun (meaning_of (lines_from (line_by R.line) run 2 (pieces lines.now))) result }
{
    let mut output = Output::new(alloc);
    let mut at = 0;
    let mut number = 2;
    while at < lines.len() {
        let rest = &lines[at..];
        let end = piece_end(rest);
        match line_piece(&mut run, &rest[..end], number, &mut output) {
            Ok(()) => at += end,
            Err(fault) => return Err(fault),
        }
        number += 1;
    }
    Ok(output)
}

/// A header, by which a run goes on in the word that it names.
pub trait InWord {
    // What the lines after the header print, or their first cause, in a word that is signed or not and has so many bits.
    ghost meaning: { Self → List ℕ → Bool → ℕ → Meaning PieceCause };

    /// Returns what the lines after the header print in this word, or the first fault.
    fn run_in<T: Word>(self, alloc: Global, lines: &[u8]) -> Result<Output, RunFault>
        ensures { IsAnswerOfRun (meaning self lines.now T.SIGNED T.BITS) result };
}

impl WordName {
    /// Returns what the lines after the header print in the word with this name, or the first fault.
    pub fn in_word<H: InWord>(
        self,
        header: H,
        alloc: Global,
        lines: &[u8],
    ) -> Result<Output, RunFault>
        ensures { IsAnswerOfRun (H.meaning header lines.now (is_signed self) (width self)) result }
    {
        match self {
            WordName::I8 => header.run_in::<i8>(alloc, lines),
            WordName::I16 => header.run_in::<i16>(alloc, lines),
            WordName::I32 => header.run_in::<i32>(alloc, lines),
            WordName::I64 => header.run_in::<i64>(alloc, lines),
            WordName::U8 => header.run_in::<u8>(alloc, lines),
            WordName::U16 => header.run_in::<u16>(alloc, lines),
            WordName::U32 => header.run_in::<u32>(alloc, lines),
            WordName::U64 => header.run_in::<u64>(alloc, lines),
        }
    }
}
