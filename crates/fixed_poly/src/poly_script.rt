//! The run of a script.

ghost use Rattle.std.specs.Prelude.{◌≡◌, ◌++◌, [], Err, None, OnOk};
ghost use Rattle.std.specs.Option.{option_map};
ghost use Rattle.fixed_word.specs.Pieces.{pieces};
ghost use Rattle.fixed_text.specs.Numbers.{only_number, wholes_in};
ghost use Rattle.fixed_text.specs.Runs.{lines_from, meaning_of, run_then};
ghost use Rattle.fixed_text.specs.Readings.{first_at, line_by};
ghost use Rattle.fixed_text.specs.Answers.{IsAnswerOfRun, IsStepOfLine};
ghost use Rattle.fixed_poly.specs.Horner.{reply_map};
ghost use Rattle.fixed_poly.specs.inside.Parser.{coefs_of};
ghost use Rattle.fixed_poly.specs.Runs.{line_read, poly_line, poly_output, reply_text, started};
ghost use Rattle.fixed_poly.specs.Text.{At};

use crate::evaluation::horner_of;
use crate::fault::PolyFault;
use crate::header::{PolyHeader, read_header};
use crate::reply::PolyReply;
use fixed_text::{
    InWord, LineFault, Output, Run, RunFault, Tokens, fitting, open, read_only_number, read_words,
    run_lines,
};
use fixed_word::{RawWord, Valued, Word};
use std::alloc::{AllocError, Global};
use std::marker::Model;

/// The coefficients of the current polynomial, of which there are none before the first `coefs` line.
#[derive(Drop)]
struct PolyRun<T: Word> {
    alloc: Global,
    frac: u32,
    coefs: Vec<T>,
}

impl<T: Word> Model for PolyRun<T> {
    ghost use Rattle.std.specs.Prelude.{◌≤◌, map};
    ghost use Rattle.fixed_poly.specs.Runs.{PolyState};

    ghost Value = { PolyState };

    ghost view = { λ p. record {
      signed = T.SIGNED;
      bits = T.BITS;
      frac = p.frac;
      coefs = map T.value p.coefs.items;
    } };

    ghost invariant = { λ p. p.frac ≤ T.BITS };
}

/// Adds the text of a reply: the decimal of the bits, or `overflow` and the step; and a newline. Fails if memory runs
/// out.
fn append_reply<T: Word>(output: &mut Output, reply: PolyReply<T>) -> Result<(), AllocError>
    ensures { OnOk result (output.new ≡ output.old ++ reply_text (reply_map T.value reply)) }
{
    match reply {
        PolyReply::Value(value) => output.append_word_and(value, b'\n'),
        PolyReply::Overflow(step) => {
            output.append(b"overflow ")?;
            output.append_natural(step as u64)?;
            output.append(b"\n")
        }
    }
}

impl<T: Word> PolyRun<T> {
    /// Replaces the coefficients by those that the tokens write. Fails with `LineFault::Unformed` if the tokens are
    /// malformed, and with `LineFault::Unfit` if a coefficient does not fit.
    fn take_coefs(&mut self, tokens: Tokens<'_>) -> Result<(), LineFault>
        ensures { IsStepOfLine (line_read self.old (coefs_of (wholes_in tokens.entry))) result self.new
            [] [] }
    {
        if tokens.is_empty() {
            return Err(LineFault::Unformed);
        }
        match read_words(self.alloc, tokens) {
            Ok(coefs) => {
                self.coefs = coefs;
                Ok(())
            }
            Err(refusal) => Err(refusal),
        }
    }

    /// Adds the text of the reply at the point that the tokens write. Fails with `LineFault::Unformed` if the tokens are
    /// malformed or there are no coefficients, and with `LineFault::Unfit` if the point does not fit.
    fn answer(&self, tokens: Tokens<'_>, output: &mut Output) -> Result<(), LineFault>
        ensures { IsStepOfLine (line_read self.now (option_map At (only_number tokens.entry))) result
            self.now output.old output.new }
    {
        let Some(number) = read_only_number(tokens) else {
            return Err(LineFault::Unformed);
        };
        if self.coefs.is_empty() {
            return Err(LineFault::Unformed);
        }
        match fitting(&number) {
            Ok(x) => match append_reply(output, horner_of(&self.coefs, x, self.frac)) {
                Ok(()) => Ok(()),
                Err(_) => Err(LineFault::Wanting),
            },
            Err(refusal) => Err(refusal),
        }
    }
}

impl<T: Word> Run for PolyRun<T> {
    ghost line = { poly_line };

    fn step(&mut self, bytes: &[u8], output: &mut Output) -> Result<(), LineFault> {
        let mut tokens = Tokens::new(bytes);
        let Some(name) = tokens.take() else {
            return Err(LineFault::Unformed);
        };
        if name == b"coefs".as_slice() {
            self.take_coefs(tokens)
        } else if name == b"at".as_slice() {
            self.answer(tokens, output)
        } else {
            Err(LineFault::Unformed)
        }
    }
}

impl InWord for PolyHeader {
    ghost meaning = { λ header lines signed bits. meaning_of (run_then None
        (first_at (started signed bits header.frac))
        (λ state. lines_from (line_by poly_line) state 2 (pieces lines))) };

    fn run_in<T: Word>(self, alloc: Global, lines: &[u8]) -> Result<Output, RunFault> {
        if self.frac > u128::from(T::BITS) {
            return Err(RunFault::OutOfRange(1));
        }
        let run = PolyRun::<T> {
            alloc,
            frac: self.frac as u32,
            coefs: Vec::new(alloc),
        };
        run_lines(alloc, run, lines)
    }
}

/// Runs a script of polynomials and returns what it prints. Its first line is `poly W F`: a word and a number of
/// fraction bits. `coefs N N ..`, with at least one number, replaces the polynomial by the one with these coefficients,
/// in bits, the lowest first. `at N` prints the bits of its value at the point N, in bits. If the value of a step does
/// not fit, the line prints `overflow I` instead, where I is the index of the coefficient that the first such step
/// adds.
///
/// The first faulty piece is reported by its number. `Syntax` means that the piece is malformed, has no newline, or has
/// a point before the first polynomial; an empty script is reported as piece 1. `OutOfRange` means that the number of
/// fraction bits exceeds the width, or that a coefficient or a point does not fit. Whatever the script is, the run may
/// fail with `Memory`, if memory runs out, and then returns no bytes.
pub fn poly_run(alloc: Global, script: &[u8]) -> Result<Output, PolyFault>
    ensures { IsAnswerOfRun (poly_output script.now) result }
{
    let Some((piece, lines)) = open(script) else {
        return Err(PolyFault::Syntax(1));
    };
    match read_header(piece) {
        Some(header) => header.word.in_word(header, alloc, lines),
        None => Err(PolyFault::Syntax(1)),
    }
}
