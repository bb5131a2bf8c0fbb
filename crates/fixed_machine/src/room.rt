//! The registers and the answers of a script, with room that is allocated once.

ghost use Rattle.std.specs.Prelude.{◌≡◌, ◌≤◌, ◌<◌, ◌==◌, ◌*◌, ◌+◌, ◌++◌, [], length, vec_len, vec_capacity, IfOk, IfErr, OnOk, IsSome, IfSome, IsTrue, ◌↔◌, Some, None, Ok, true, false};
ghost use Rattle.std.specs.List.{list_all};
ghost use Rattle.fixed_machine.specs.Answers.{answer_text};
ghost use Rattle.fixed_text.specs.Words.{is_signed as signed, width as width_in};
ghost use Rattle.fixed_machine.specs.inside.Quick.{script_line_of_quick};
ghost use Rattle.fixed_machine.specs.inside.Stepping.{in_whole, whole_answer};
ghost use Rattle.fixed_machine.specs.Meaning.{has_wide as is_wide, zeros};
ghost use Rattle.fixed_script.specs.Capped.{checked_script_line};
ghost use Rattle.fixed_machine.specs.Rooms.{KeepsTheRest, spaces, spaces_in};
ghost use Rattle.fixed_machine.specs.Step.{IsStepOfLine, cell_of, cells_of, state_in};
ghost use Rattle.fixed_machine.specs.inside.QuickSteps.{AreEqual, fractions_in};

use crate::answer::{Answer, SignedAnswer};
use crate::buffer::Buffer;
use crate::cause::Cause;
use crate::piece::read_and_step;
use crate::quick::QuickLine;
use crate::quick_step::quick_step;
use crate::register::{Register, with_sign};
use crate::stepping::step_registers;
use fixed_script::{Header, Line};
use fixed_text::{WordName, piece_end};
use fixed_word::Word;
use std::alloc::{AllocError, Global};
use std::marker::Model;

/// Returns whether each register has that number of fraction bits.
fn have_fraction(registers: &[Register], fraction: u32) -> bool
    ensures { result ≡ list_all (λ register. register.fraction == fraction) registers.now }
{
    registers
        .iter()
        .all(|register| register.fraction == fraction)
}

/// Adds a register with bits 0 for each number of fraction bits, and returns whether none exceeds the width. Stops at
/// the first that does.
fn push_fractions(registers: &mut Vec<Register>, header: &Header<'_>) -> bool
    requires room { vec_len registers.old + length header.now.fractions
        ≤ vec_capacity registers.old }
    ensures narrow { result ≡ true → is_wide header.now.word header.now.fractions ≡ false }
    ensures wide { result ≡ false → is_wide header.now.word header.now.fractions ≡ true }
    ensures items { result ≡ true → cells_of registers.new.items
        ≡ cells_of registers.old.items ++ zeros header.now.fractions }
    ensures capacity { vec_capacity registers.new ≡ vec_capacity registers.old }
{
    let width = u128::from(header.word().width());
    let mut fractions = header.fractions();
    while let Some(fraction) = fractions.next() {
        if width < fraction {
            return false;
        }
        registers.push_reserved(Register {
            magnitude: 0,
            fraction: fraction as u32,
            below_zero: false,
        });
    }
    true
}

/// The word of a script's header, its registers and the bytes of its answers, with room that was made for the script.
/// Contracts see it as a `Space`: these three, and for how many registers and answer bytes there is room.
#[derive(Drop)]
pub struct Room {
    word: Option<WordName>,
    registers: Vec<Register>,
    most: usize,
    answers: Buffer,
}

impl Model for Room {
    ghost use Rattle.std.specs.Prelude.{◌≤◌, vec_capacity};
    ghost use Rattle.fixed_machine.specs.Step.{cells_of};
    ghost use Rattle.fixed_machine.specs.Rooms.{Space, IsRoom};

    ghost Value = { Space };

    ghost view = { λ r. record { word = r.word; registers = cells_of r.registers.items; answers = r.answers.bytes; register_room = r.most; answer_room = r.answers.room } };

    ghost invariant = { λ r. IsRoom r.word (cells_of r.registers.items) × (r.most ≤ vec_capacity r.registers) };
}

/// The bytes of all answers, each of which is one line. Contracts see them as a list of bytes.
#[derive(Drop)]
pub struct Answers {
    bytes: Vec<u8>,
}

impl Model for Answers {
    ghost use Rattle.std.specs.Prelude.{List, ℕ};

    ghost Value = { List ℕ };

    ghost view = { λ a. a.bytes.items };
}

impl Answers {
    /// Returns answers with these bytes. This does not allocate.
    pub fn new(bytes: Vec<u8>) -> Answers
        ensures { result ≡ bytes.items }
    {
        Answers { bytes }
    }

    /// Returns the bytes.
    pub fn as_bytes(&self) -> &[u8]
        ensures { result.now ≡ self.now }
    {
        &self.bytes
    }

    /// Turns the answers into their bytes. This does not allocate.
    pub fn into_bytes(self) -> Vec<u8>
        ensures { result.items ≡ self }
    {
        self.bytes
    }
}

impl Room {
    ghost use Rattle.fixed_script.specs.Lines.{line_of_piece};
    ghost use Rattle.fixed_script.specs.Capped.{checked_script_line};
    ghost use Rattle.fixed_machine.specs.Machine.{cell_at};
    ghost use Rattle.fixed_machine.specs.Rooms.{IsEmptySpace, IsStarted, KeepsTheRest, KeepsRoom, Suffices, spaces};
    ghost use Rattle.fixed_machine.specs.Step.{IsStepOfLine, state_in};

    /// Returns a room without a header, registers and answers. It has room for as many registers as the script's first
    /// piece has spaces, and for twice as many answer bytes as the script has bytes. Fails if memory runs out.
    pub fn for_script(alloc: Global, script: &[u8]) -> Result<Room, AllocError>
        ensures { IfOk result
            (λ room. IsEmptySpace (spaces script.now) (2 * length script.now) room) }
    {
        Room::of_size(alloc, spaces_of(script), 2 * script.len())
    }

    /// Returns a room without a header, registers and answers, with room for so many registers and answer bytes. Fails
    /// if memory runs out.
    pub(crate) fn of_size(alloc: Global, most: usize, bytes: usize) -> Result<Room, AllocError>
        ensures { IfOk result (λ room. IsEmptySpace most bytes room) }
    {
        Ok(Room {
            word: None,
            registers: Vec::with_capacity(alloc, most)?,
            most,
            answers: Buffer::with_room(alloc, bytes)?,
        })
    }

    /// Returns whether the room is at least as large as the one that `for_script` returns.
    pub fn suffices(&self, script: &[u8]) -> bool
        ensures { IsTrue result ↔ Suffices script.now self.now }
    {
        spaces_of(script) <= self.most && 2 * script.len() <= self.answers.room()
    }

    pub(crate) fn clear(&mut self)
        ensures { IsEmptySpace self.old.register_room self.old.answer_room self.new }
    {
        self.word = None;
        self.registers.clear();
        self.answers.reset();
    }

    /// Declares the registers of a header, with bits 0, and removes all answers. Fails with `OutOfRange(1)` if a number
    /// of fraction bits exceeds the width; the room then has no header, registers and answers. Precondition: there is
    /// room for the header's registers.
    pub fn declare(&mut self, header: &Header<'_>) -> Result<(), Cause>
        requires { length header.now.fractions ≤ self.old.register_room }
        ensures ok { OnOk result ((is_wide header.now.word header.now.fractions ≡ false)
            × IsStarted header.now self.new) }
        ensures err { IfErr result (λ cause. (is_wide header.now.word header.now.fractions ≡ true)
            × (cause ≡ Cause.OutOfRange 1)
            × IsEmptySpace self.old.register_room self.old.answer_room self.new) }
        ensures kept { KeepsRoom self.old self.new }
    {
        self.clear();
        if !push_fractions(&mut self.registers, header) {
            self.registers.clear();
            return Err(Cause::OutOfRange(1));
        }
        self.word = Some(header.word());
        Ok(())
    }

    /// Runs one line.
    pub(crate) fn step_line(&mut self, line: &Line, number: u64) -> Result<Answer, Cause>
        requires { IsSome self.old.word }
        ensures tells { IfSome self.old.word (λ word. IsStepOfLine (state_in word self.old.registers)
            (checked_script_line line.now) number result self.new.registers) }
        ensures kept { KeepsTheRest self.old self.new }
    {
        let word = self.word.unwrap();
        match step_registers(word, &mut self.registers, line, number) {
            Ok(answer) => Ok(answer.into_answer()),
            Err(cause) => Err(cause),
        }
    }

    /// Runs one piece.
    pub(crate) fn step_piece(&mut self, piece: &[u8], number: u64) -> Result<SignedAnswer, Cause>
        requires { IsSome self.old.word }
        ensures tells { IfSome self.old.word (λ word. IsStepOfLine (state_in word self.old.registers)
            (line_of_piece piece.now) number (in_whole result) self.new.registers) }
        ensures kept { KeepsTheRest self.old self.new }
    {
        let word = self.word.unwrap();
        read_and_step(word, &mut self.registers, piece, number)
    }

    /// Runs a line that the fast path read and returns its answer. If it returns `None`, the line may have a cause, and
    /// the registers have not changed. The word is given by its name and by its type. If `one_fraction`, all registers
    /// have one number of fraction bits.
    #[inline(always)]
    pub(crate) fn step_quick_line<T: Word>(
        &mut self,
        word: WordName,
        one_fraction: bool,
        line: QuickLine,
        number: u64,
    ) -> Option<SignedAnswer>
        requires signed { T.SIGNED ≡ signed word }
        requires bits { T.BITS ≡ width_in word }
        requires word { self.old.word ≡ Some word }
        requires one_fraction { one_fraction ≡ true → AreEqual (fractions_in self.old.registers) }
        requires dest { line.dest < length self.old.registers }
        requires a { line.a < length self.old.registers }
        requires b { line.b < length self.old.registers }
        requires c { line.c < length self.old.registers }
        ensures some { IfSome result (λ answer. IsStepOfLine (state_in word self.old.registers)
            (Some (script_line_of_quick line)) number (Ok (whole_answer answer)) self.new.registers) }
        ensures none { result ≡ None → self.new.registers ≡ self.old.registers }
        ensures count { length self.new.registers ≡ length self.old.registers }
        ensures kept { KeepsTheRest self.old self.new }
    {
        quick_step::<T>(word, &mut self.registers, one_fraction, line, number)
    }

    /// Adds the text of an answer. Precondition: there is room for it.
    #[inline(always)]
    pub(crate) fn push(&mut self, answer: SignedAnswer)
        requires { length self.old.answers + length (answer_text (whole_answer answer)) ≤ self.old.answer_room }
        ensures answers { self.new.answers ≡ self.old.answers ++ answer_text (whole_answer answer) }
        ensures word { self.new.word ≡ self.old.word }
        ensures registers { self.new.registers ≡ self.old.registers }
        ensures kept { KeepsRoom self.old self.new }
    {
        self.answers.push_text(answer);
    }

    /// Returns the word of the declared header, or `None` if there is none. Precondition of `step`: there is one.
    pub fn word(&self) -> Option<WordName>
        ensures { result ≡ self.now.word }
    {
        self.word
    }

    /// Returns whether there is room for the header's registers. Precondition of `declare`: there is.
    pub fn has_room_for(&self, header: &Header<'_>) -> bool
        ensures { IsTrue result ↔ (length header.now.fractions ≤ self.now.register_room) }
    {
        let mut left = self.most;
        let mut fractions = header.fractions();
        while fractions.next().is_some() {
            if left == 0 {
                return false;
            }
            left -= 1;
        }
        true
    }

    /// Returns whether all registers have one number of fraction bits.
    pub(crate) fn has_one_fraction(&self) -> bool
        ensures { result ≡ true → AreEqual (fractions_in self.now.registers) }
    {
        match self.registers.first() {
            Some(first) => have_fraction(&self.registers, first.fraction),
            None => true,
        }
    }

    /// Returns the number of registers.
    pub fn registers(&self) -> usize
        ensures { result ≡ length self.now.registers }
    {
        self.registers.len()
    }

    /// Returns the bits of a register. Precondition: `index` is below the number of registers.
    pub fn bits_at(&self, index: usize) -> i128
        requires { index < length self.now.registers }
        ensures { result ≡ (cell_at self.now.registers index).bits }
    {
        let register = self.registers[index];
        with_sign(register.below_zero, register.magnitude)
    }

    /// Returns the number of fraction bits of a register. Precondition: `index` is below the number of registers.
    pub fn fraction_at(&self, index: usize) -> u32
        requires { index < length self.now.registers }
        ensures { result ≡ (cell_at self.now.registers index).fraction }
    {
        self.registers[index].fraction
    }

    /// Returns the bytes of the answers so far.
    pub fn answers(&self) -> &[u8]
        ensures { result.now ≡ self.now.answers }
    {
        self.answers.bytes()
    }

    /// Turns the room into its answers so far. This does not allocate.
    pub fn into_answers(self) -> Answers
        ensures { result ≡ self.answers }
    {
        Answers::new(self.answers.into_bytes())
    }
}

/// Runs one line of a script: stores its number, if there is one, in the destination, and returns its answer. If the
/// line has a cause, returns that with the given line number and changes no register. A line whose operation takes
/// other operands has the cause `Syntax`. The header and the answers in the room do not change. This does not allocate.
/// Precondition: a header was declared.
pub fn step(room: &mut Room, line: &Line, number: u64) -> Result<Answer, Cause>
    requires { IsSome room.old.word }
    ensures tells { IfSome room.old.word (λ word. IsStepOfLine
        (state_in word room.old.registers) (checked_script_line line.now) number result room.new.registers) }
    ensures kept { KeepsTheRest room.old room.new }
{
    room.step_line(line, number)
}

/// Returns the number of spaces of a piece.
pub(crate) fn spaces_in(piece: &[u8]) -> usize
    ensures { result ≡ spaces_in piece.now }
{
    piece.iter().filter(|byte| **byte == b' ').count()
}

/// Returns the number of spaces of the first piece.
fn spaces_of(script: &[u8]) -> usize
    ensures { result ≡ spaces script.now }
{
    if script.is_empty() {
        return 0;
    }
    spaces_in(&script[..piece_end(script)])
}
