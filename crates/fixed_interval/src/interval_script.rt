//! The run of a script.

ghost use Rattle.std.specs.Prelude.{◌≡◌, ◌++◌, ◌<◌, ◌≤◌, Err, IfOk, IfSome, None, OnOk, Some, if◌then◌else◌, length, map, nat_lt, replicate, ℕ, ℤ};
ghost use Rattle.std.specs.Option.{option_map};
ghost use Rattle.fixed_word.specs.Decimal.{whole_text};
ghost use Rattle.fixed_word.specs.Pieces.{pieces};
ghost use Rattle.fixed_text.specs.Decimals.{decimal_of};
ghost use Rattle.fixed_digits.specs.Numerals.{cap};
ghost use Rattle.fixed_text.specs.Runs.{lines_from, meaning_of, run_then};
ghost use Rattle.fixed_text.specs.Readings.{first_at, line_by};
ghost use Rattle.fixed_text.specs.Answers.{IsAnswerOfRun, IsStepOfLine};
ghost use Rattle.fixed_interval.specs.inside.Capped.{capped_request};
ghost use Rattle.fixed_interval.specs.Ends.{ends_of, fitting};
ghost use Rattle.fixed_interval.specs.Runs.{answered, ends_by, ends_text, interval_line, interval_output, made_by_root, made_of_two, request_read, set_ends, started, zero_ends};
ghost use Rattle.fixed_interval.specs.Text.{IntervalRequest};

use crate::fault::IntervalFault;
use crate::header::{IntervalHeader, read_header};
use crate::interval::Interval;
use crate::line::{Request, read_line};
use crate::op::IntervalOp;
use crate::products::mul_in;
use crate::quotients::div_in;
use crate::roots::sqrt_in;
use crate::sums::{add_in, sub_in};
use fixed_text::{Decimal, InWord, LineFault, Output, Run, RunFault, open, run_lines, value_in};
use fixed_word::{Valued, Word};
use std::alloc::{AllocError, Global};
use std::marker::Model;

/// A run has at most this many registers.
const MOST_REGISTERS: u128 = 1_000_000;

/// The registers of a run.
#[derive(Drop)]
struct IntervalRun<T: Word> {
    frac: u32,
    registers: Vec<Interval<T>>,
}

impl<T: Word> Model for IntervalRun<T> {
    ghost use Rattle.std.specs.Prelude.{◌≤◌, map};
    ghost use Rattle.fixed_interval.specs.Ends.{ends_of};
    ghost use Rattle.fixed_interval.specs.Runs.{IntervalState};

    ghost Value = { IntervalState };

    ghost view = { λ r. record {
      signed = T.SIGNED;
      bits = T.BITS;
      frac = r.frac;
      registers = map (ends_of T.value) r.registers.items;
    } };

    ghost invariant = { λ r. r.frac ≤ T.BITS };
}

/// Prints an interval: both ends, separated by one space, and a newline.
fn append_ends<T: Word>(output: &mut Output, interval: &Interval<T>) -> Result<(), AllocError>
    ensures { OnOk result (output.new ≡ output.old ++ ends_text (ends_of T.value interval.now)) }
{
    output.append_word_and(interval.lo(), b' ')?;
    output.append_word_and(interval.hi(), b'\n')
}

/// Returns `count` copies of an interval.
fn copies<T: Word>(
    alloc: Global,
    count: usize,
    interval: Interval<T>,
) -> Result<Vec<Interval<T>>, AllocError>
    ensures { IfOk result (λ all. all.items ≡ replicate count interval) }
{
    let mut all = Vec::new(alloc);
    all.resize(count, interval)?;
    Ok(all)
}

/// Returns `count` registers from 0 to 0.
fn zeros<T: Word>(alloc: Global, count: usize) -> Result<Vec<Interval<T>>, AllocError>
    ensures { IfOk result
        (λ registers. map (ends_of T.value) registers.items ≡ replicate count zero_ends) }
{
    let registers = copies(alloc, count, Interval::zero())?;
    Ok(registers)
}

/// Returns the place of a register among `count`, or `None` if it is not one of these.
fn place_in(register: u128, count: usize) -> Option<usize>
    ensures within { IfSome result (λ i. i < count) }
    ensures place { (n : ℕ) → register ≡ cap n → result ≡ (if nat_lt n count then Some n else None) }
{
    if register < count as u128 {
        Some(register as usize)
    } else {
        None
    }
}

/// Returns the result of an operation on two intervals. Precondition: `frac` is at most the width.
fn made_of<T: Word>(
    op: IntervalOp,
    x: &Interval<T>,
    y: &Interval<T>,
    frac: u32,
) -> Option<Interval<T>>
    requires { frac ≤ T.BITS }
    ensures { option_map (ends_of T.value) result
        ≡ fitting T.SIGNED T.BITS (ends_by op frac (ends_of T.value x.now) (ends_of T.value y.now)) }
{
    match op {
        IntervalOp::Add => add_in(x, y),
        IntervalOp::Sub => sub_in(x, y),
        IntervalOp::Mul => mul_in(x, y, frac),
        IntervalOp::Div => div_in(x, y, frac),
    }
}

/// Returns the interval of two given ends.
fn stated<T: Word>(low: &Decimal, high: &Decimal) -> Option<Interval<T>>
    ensures { (l h : ℤ) → low.now ≡ decimal_of l → high.now ≡ decimal_of h
        → option_map (ends_of T.value) result ≡ set_ends T.SIGNED T.BITS l h }
{
    let low = value_in(low)?;
    let high = value_in(high)?;
    Interval::new(low, high)
}

impl<T: Word> IntervalRun<T> {
    /// Returns the place of a register, or `None` if the run does not have it.
    fn place(&self, register: u128) -> Option<usize>
        ensures word { (self.now.signed ≡ T.SIGNED) × (self.now.bits ≡ T.BITS) }
        ensures within { IfSome result (λ i. i < length self.now.registers) }
        ensures place { (n : ℕ) → register ≡ cap n
            → result ≡ (if nat_lt n (length self.now.registers) then Some n else None) }
    {
        place_in(register, self.registers.len())
    }

    /// Stores an interval in a register and prints it. If there is none, prints `none`.
    fn answer(
        &mut self,
        dest: usize,
        made: Option<Interval<T>>,
        output: &mut Output,
    ) -> Result<(), LineFault>
        requires { dest < length self.old.registers }
        ensures { IsStepOfLine (answered self.old dest (option_map (ends_of T.value) made)) result
            self.new output.old output.new }
    {
        match made {
            Some(interval) => match append_ends(output, &interval) {
                Ok(()) => {
                    self.registers[dest] = interval;
                    Ok(())
                }
                Err(_) => Err(LineFault::Wanting),
            },
            None => match output.append(b"none\n") {
                Ok(()) => Ok(()),
                Err(_) => Err(LineFault::Wanting),
            },
        }
    }

    /// Returns the result of an operation on two registers.
    fn of_two(&self, op: IntervalOp, a: usize, b: usize) -> Option<Interval<T>>
        requires a { a < length self.now.registers }
        requires b { b < length self.now.registers }
        ensures { option_map (ends_of T.value) result ≡ made_of_two self.now op a b }
    {
        made_of(op, &self.registers[a], &self.registers[b], self.frac)
    }

    /// Returns the root of a register.
    fn root(&self, a: usize) -> Option<Interval<T>>
        requires { a < length self.now.registers }
        ensures { option_map (ends_of T.value) result ≡ made_by_root self.now a }
    {
        let x = &self.registers[a];
        sqrt_in(x, self.frac)
    }

    /// Carries out a request.
    fn follow(
        &mut self,
        dest: usize,
        request: Request,
        output: &mut Output,
    ) -> Result<(), LineFault>
        requires word { (self.old.signed ≡ T.SIGNED) × (self.old.bits ≡ T.BITS) }
        requires dest { dest < length self.old.registers }
        ensures { (q : IntervalRequest) → request ≡ capped_request q
            → IsStepOfLine (request_read self.old dest q) result self.new output.old output.new }
    {
        match request {
            Request::Set(low, high) => match stated(&low, &high) {
                Some(interval) => self.answer(dest, Some(interval), output),
                None => Err(LineFault::Unfit),
            },
            Request::Two(op, a, b) => {
                let Some(a) = self.place(a) else {
                    return Err(LineFault::Unfit);
                };
                let Some(b) = self.place(b) else {
                    return Err(LineFault::Unfit);
                };
                let made = self.of_two(op, a, b);
                self.answer(dest, made, output)
            }
            Request::Root(a) => {
                let Some(a) = self.place(a) else {
                    return Err(LineFault::Unfit);
                };
                let made = self.root(a);
                self.answer(dest, made, output)
            }
        }
    }
}

impl<T: Word> Run for IntervalRun<T> {
    ghost line = { interval_line };

    fn step(&mut self, bytes: &[u8], output: &mut Output) -> Result<(), LineFault> {
        let Some(line) = read_line(bytes) else {
            return Err(LineFault::Unformed);
        };
        match self.place(line.dest) {
            Some(dest) => self.follow(dest, line.request, output),
            None => Err(LineFault::Unfit),
        }
    }
}

impl InWord for IntervalHeader {
    ghost meaning = { λ header lines signed bits. meaning_of (run_then None
        (first_at (started signed bits header.frac header.count))
        (λ state. lines_from (line_by interval_line) state 2 (pieces lines))) };

    fn run_in<T: Word>(self, alloc: Global, lines: &[u8]) -> Result<Output, RunFault> {
        if self.frac > u128::from(T::BITS) || self.count < 1 || self.count > MOST_REGISTERS {
            return Err(RunFault::OutOfRange(1));
        }
        let registers = match zeros(alloc, self.count as usize) {
            Ok(registers) => registers,
            Err(_) => return Err(RunFault::Memory),
        };
        let run = IntervalRun::<T> {
            frac: self.frac as u32,
            registers,
        };
        run_lines(alloc, run, lines)
    }
}

/// Runs a script of intervals and returns what it prints. Its first line is `interval W F R`: a word, a number of
/// fraction bits, and a number of registers, which are from 0 to 0 at first. `iD set LO HI` stores two ends, in bits,
/// in register D. `iD add iA iB`, `iD sub iA iB`, `iD mul iA iB`, `iD div iA iB` and `iD sqrt iA` store the result of
/// the operation, whose operands are read first. Each line prints the ends that it stores. If an operation has no
/// result, or an end of it does not fit, the line prints `none` and the register does not change.
///
/// The first faulty piece is reported by its number. `Syntax` means that the piece is malformed. `OutOfRange` means
/// that the number of fraction bits exceeds the width, that the number of registers is not from 1 to 1,000,000, that a
/// register is not one of these, or that given ends do not fit or are in the wrong order. Whatever the script is, the
/// run may fail with `Memory`, if memory runs out, and then returns no bytes.
pub fn interval_run(alloc: Global, script: &[u8]) -> Result<Output, IntervalFault>
    ensures { IsAnswerOfRun (interval_output script.now) result }
{
    let Some((piece, lines)) = open(script) else {
        return Err(IntervalFault::Syntax(1));
    };
    match read_header(piece) {
        Some(header) => header.word.in_word(header, alloc, lines),
        None => Err(IntervalFault::Syntax(1)),
    }
}
