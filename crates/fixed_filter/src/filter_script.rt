//! The run of a script.

ghost use Rattle.std.specs.Prelude.{◌≡◌, ◌++◌, ◌<◌, [], Err, IfSome, None, OnOk, Some, if◌then◌else◌, length, map, nat_lt, slice_index_or, ℕ};
ghost use Rattle.fixed_word.specs.Pieces.{pieces};
ghost use Rattle.fixed_digits.specs.Numerals.{cap};
ghost use Rattle.fixed_text.specs.Numbers.{only_number, wholes_in};
ghost use Rattle.fixed_text.specs.Runs.{lines_from, meaning_of, run_then};
ghost use Rattle.fixed_text.specs.Readings.{Read, first_at, line_by};
ghost use Rattle.fixed_text.specs.Answers.{IsAnswerOfRun, IsStepOfLine};
ghost use Rattle.fixed_filter.specs.Banks.{IsShape, change_at, with_sample};
ghost use Rattle.fixed_filter.specs.declared.reply.Reply.TheVariants.{Overflow};
ghost use Rattle.fixed_filter.specs.inside.Kept.{kept_line, kept_read, kept_reply, kept_sample, kept_taps, kept_text, lane_at};
ghost use Rattle.fixed_filter.specs.inside.Parser.{sample_of, taps_of};
ghost use Rattle.fixed_filter.specs.Replies.{reply_map};
ghost use Rattle.fixed_filter.specs.Runs.{filter_line, filter_output, reply_text, start, started};

use crate::bank::Bank;
use crate::fault::FilterFault;
use crate::header::{FilterHeader, read_header};
use crate::reply::Reply;
use crate::shape::Shape;
use fixed_text::{
    InWord, LineFault, Output, Run, RunFault, Tokens, fitting, open, read_numbered,
    read_only_number, read_words, run_lines,
};
use fixed_word::{RawWord, Valued, Word};
use std::alloc::{AllocError, Global};
use std::marker::Model;

/// The bank of a run, how many samples each channel has taken, and whether any channel has taken one.
#[derive(Drop)]
struct FilterRun<T: Word> {
    alloc: Global,
    begun: bool,
    bank: Bank<T>,
    counts: Vec<u64>,
}

impl<T: Word> Model for FilterRun<T> {
    ghost use Rattle.std.specs.Prelude.{◌≤◌, length, map};
    ghost use Rattle.fixed_filter.specs.inside.Kept.{KeptState, filter_map};

    ghost Value = { KeptState };

    ghost view = { λ r. record {
      signed = T.SIGNED;
      bits = T.BITS;
      shape = r.bank.shape;
      channels = map (filter_map T.value) r.bank.channels;
      counts = r.counts.items;
      begun = r.begun;
    } };

    ghost invariant = { λ r. length r.bank.channels ≤ length r.counts.items };
}

/// Adds the text of the reply to a channel's sample, which has this number. Fails if memory runs out.
fn append_reply<T: Word>(
    output: &mut Output,
    channel: usize,
    number: u64,
    reply: Reply<T>,
) -> Result<(), AllocError>
    ensures { OnOk result (output.new
        ≡ output.old ++ reply_text channel number (reply_map T.value reply)) }
{
    match reply {
        Reply::Value(value) => output.append_word_and(value, b'\n'),
        Reply::Overflow(tap) => append_overflow(output, channel, number, tap),
    }
}

/// Adds the text of an overflow: the channel, the number of its sample, and the tap. Fails if memory runs out.
fn append_overflow(
    output: &mut Output,
    channel: usize,
    number: u64,
    tap: usize,
) -> Result<(), AllocError>
    ensures { OnOk result (output.new ≡ output.old ++ reply_text channel number (Overflow tap)) }
{
    output.append(b"overflow ")?;
    output.append_natural(channel as u64)?;
    output.append(b" ")?;
    output.append_natural(number)?;
    output.append(b" ")?;
    output.append_natural(tap as u64)?;
    output.append(b"\n")
}

impl<T: Word> FilterRun<T> {
    /// Adds a channel with these taps. Fails if memory runs out. Precondition: there is a tap.
    fn add_channel(&mut self, taps: &[T]) -> Result<(), AllocError>
        requires { 0 < length taps.now }
        ensures { OnOk result (self.new ≡ kept_taps (map T.value taps.now) self.old) }
    {
        self.counts.push(0)?;
        self.bank.add_channel(taps)?;
        Ok(())
    }

    /// Adds the channel whose taps the tokens write. Fails with `LineFault::Unformed` if the tokens are malformed or a
    /// channel has taken a sample, and with `LineFault::Unfit` if a tap does not fit.
    fn take_taps(&mut self, tokens: Tokens<'_>) -> Result<(), LineFault>
        ensures { IsStepOfLine (kept_read self.old (taps_of (wholes_in tokens.entry))) result self.new
            [] [] }
    {
        if tokens.is_empty() || self.begun {
            return Err(LineFault::Unformed);
        }
        match read_words::<T>(self.alloc, tokens) {
            Ok(taps) => match self.add_channel(&taps) {
                Ok(()) => Ok(()),
                Err(_) => Err(LineFault::Wanting),
            },
            Err(refusal) => Err(refusal),
        }
    }

    /// Returns the index of the channel with this number, or `None` if there is no such channel.
    fn place(&self, channel: u128) -> Option<usize>
        ensures word { (self.now.signed ≡ T.SIGNED) × (self.now.bits ≡ T.BITS) }
        ensures within { IfSome result (λ i. i < length self.now.channels) }
        ensures place { (n : ℕ) → channel ≡ cap n
            → result ≡ (if nat_lt n (length self.now.channels) then Some n else None) }
    {
        let count = self.bank.channels() as u128;
        if channel < count {
            Some(channel as usize)
        } else {
            None
        }
    }

    /// Gives a channel a sample, and returns the number of the sample and the reply to it. A channel takes fewer
    /// samples than a script has bytes, so the count never wraps. Precondition: the channel exists.
    fn push(&mut self, channel: usize, sample: T) -> (u64, Reply<T>)
        requires { channel < length self.old.channels }
        ensures state { self.new ≡ kept_sample channel (T.value sample) self.old }
        ensures number { result.0 ≡ slice_index_or self.old.counts channel 0 }
        ensures reply { reply_map T.value result.1 ≡ kept_reply self.old
            (lane_at (change_at channel (with_sample (T.value sample)) self.old.channels) channel) }
    {
        let number = self.counts[channel];
        self.begun = true;
        self.counts[channel] = number.wrapping_add(1);
        let reply = self.bank.push(channel, sample);
        (number, reply)
    }

    /// Gives a channel a sample and adds the text of the reply. Precondition: the channel exists.
    fn answer(&mut self, channel: usize, sample: T, output: &mut Output) -> Result<(), LineFault>
        requires { channel < length self.old.channels }
        ensures { IsStepOfLine (Read (
          kept_sample channel (T.value sample) self.old,
          kept_text self.old channel (T.value sample),
        )) result self.new output.old output.new }
    {
        let (number, reply) = self.push(channel, sample);
        match append_reply(output, channel, number, reply) {
            Ok(()) => Ok(()),
            Err(_) => Err(LineFault::Wanting),
        }
    }

    /// Gives a channel the sample that the tokens write, and adds the text of the reply. Fails with `LineFault::Unformed`
    /// if the tokens are malformed, and with `LineFault::Unfit` if the channel does not exist or the sample does not fit.
    fn take_sample(
        &mut self,
        channel: u128,
        tokens: Tokens<'_>,
        output: &mut Output,
    ) -> Result<(), LineFault>
        ensures { (j : ℕ) → channel ≡ cap j → IsStepOfLine
            (kept_read self.old (sample_of (Some j) (only_number tokens.entry))) result
            self.new output.old output.new }
    {
        let Some(number) = read_only_number(tokens) else {
            return Err(LineFault::Unformed);
        };
        let Some(place) = self.place(channel) else {
            return Err(LineFault::Unfit);
        };
        match fitting(&number) {
            Ok(sample) => self.answer(place, sample, output),
            Err(refusal) => Err(refusal),
        }
    }
}

impl<T: Word> Run for FilterRun<T> {
    ghost line = { kept_line };

    fn step(&mut self, bytes: &[u8], output: &mut Output) -> Result<(), LineFault> {
        let mut tokens = Tokens::new(bytes);
        let Some(name) = tokens.take() else {
            return Err(LineFault::Unformed);
        };
        if name == b"taps".as_slice() {
            self.take_taps(tokens)
        } else {
            match read_numbered(b'c', name) {
                Some(channel) => self.take_sample(channel, tokens, output),
                None => Err(LineFault::Unformed),
            }
        }
    }
}

/// Returns what the lines after the header print, for a word and a shape, or their first fault. Precondition: each
/// number of fraction bits is at most the width.
fn run_shape<T: Word>(alloc: Global, shape: Shape, lines: &[u8]) -> Result<Output, RunFault>
    requires { IsShape T.BITS shape }
    ensures { IsAnswerOfRun (meaning_of (lines_from (line_by filter_line)
        (start T.SIGNED T.BITS shape) 2 (pieces lines.now))) result }
{
    let run = FilterRun::<T> {
        alloc,
        begun: false,
        bank: Bank::new(alloc, shape),
        counts: Vec::new(alloc),
    };
    run_lines(alloc, run, lines)
}

impl InWord for FilterHeader {
    ghost meaning = { λ header lines signed bits. meaning_of (run_then None
        (first_at (started signed bits (record
        { out_frac = header.out; coef_frac = header.coef; sample_frac = header.sample })))
        (λ state. lines_from (line_by filter_line) state 2 (pieces lines))) };

    fn run_in<T: Word>(self, alloc: Global, lines: &[u8]) -> Result<Output, RunFault> {
        let most = u128::from(T::BITS);
        if self.out > most || self.coef > most || self.sample > most {
            return Err(RunFault::OutOfRange(1));
        }
        let shape = Shape {
            out_frac: self.out as u32,
            coef_frac: self.coef as u32,
            sample_frac: self.sample as u32,
        };
        run_shape::<T>(alloc, shape, lines)
    }
}

/// Runs a script of filters and returns what it prints. Its first line is `filter W F G H`: a word, and the numbers of
/// fraction bits of outputs, taps and samples. `taps N N ..`, with at least one number, adds a channel with these taps,
/// in bits; the first channel is number 0. `cJ N` gives channel J the sample N, in bits, and prints the bits of the
/// output. If the output does not fit, the line prints `overflow J I T` instead: this is sample I of channel J, and T
/// is the first tap whose partial sum does not fit. Samples and taps are numbered from 0.
///
/// The first faulty piece is reported by its number. `Syntax` means that the piece is malformed, has no newline, or
/// adds a channel after a sample; an empty script is reported as piece 1. `OutOfRange` means that a number of fraction
/// bits exceeds the width, that a tap or a sample does not fit, or that the channel does not exist. Whatever the script
/// is, the run may fail with `Memory`, if memory runs out, and then returns no bytes.
pub fn filter_run(alloc: Global, script: &[u8]) -> Result<Output, FilterFault>
    ensures { IsAnswerOfRun (filter_output script.now) result }
{
    let Some((piece, lines)) = open(script) else {
        return Err(FilterFault::Syntax(1));
    };
    match read_header(piece) {
        Some(header) => header.word.in_word(header, alloc, lines),
        None => Err(FilterFault::Syntax(1)),
    }
}
