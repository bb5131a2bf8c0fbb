//! Running a whole script in a room.

ghost use Rattle.std.specs.Prelude.{◌≡◌, ◌≤◌, ◌<◌, ◌*◌, ◌+◌, drop, length, true, Some, None, Err, IfOk, IfErr, IfSome, IfNone};
ghost use Rattle.fixed_text.specs.declared.names.WordName.{WordName};
ghost use Rattle.fixed_text.specs.Words.{is_signed, width};
ghost use Rattle.fixed_word.specs.Pieces.{pieces};
ghost use Rattle.fixed_text.specs.inside.Ends.{after, stopped};
ghost use Rattle.fixed_machine.specs.Meaning.{meaning, script_run};
ghost use Rattle.fixed_machine.specs.inside.Lines.{run_lines};
ghost use Rattle.fixed_machine.specs.inside.Moves.{HasMoved, HaveMoved};
ghost use Rattle.fixed_machine.specs.inside.Opened.{IsOpened};
ghost use Rattle.fixed_machine.specs.inside.QuickSteps.{AreEqual, fractions_in};
ghost use Rattle.fixed_machine.specs.Rooms.{KeepsRoom, IsAnswerOfMeaning, IsAnswerOfRun, Suffices, spaces};
ghost use Rattle.fixed_machine.specs.Step.{state_in};

use crate::cause::{Cause, ScriptFault};
use crate::quick::{LONGEST, quick_line};
use crate::room::{Answers, Room, spaces_in};
use fixed_script::{Header, header_of_piece};
use fixed_text::{WordName, piece_end};
use fixed_word::Word;
use std::alloc::Global;

/// Runs the first line of the rest, and returns where it ends.
fn answer_line(rest: &[u8], number: u64, room: &mut Room) -> Result<usize, Cause>
    requires some { 0 < length rest.now }
    requires word { (word : WordName) × (room.old.word ≡ Some word) }
    requires space { length room.old.answers + 2 * length rest.now ≤ room.old.answer_room }
    ensures ok { IfOk result (λ end. (word : WordName) → room.old.word ≡ Some word
        → HasMoved word number rest.now end room.old room.new) }
    ensures err { IfErr result (λ cause. (word : WordName) → room.old.word ≡ Some word
        → IsAnswerOfRun (after room.old.answers (run_lines (state_in word room.old.registers) number
        (pieces rest.now))) (Err cause) room.new) }
    ensures kept { KeepsRoom room.old room.new }
{
    let end = piece_end(rest);
    match room.step_piece(&rest[..end], number) {
        Ok(answer) => {
            room.push(answer);
            Ok(end)
        }
        Err(cause) => Err(cause),
    }
}

/// Runs the first line of the rest, if the fast path reads it and it has no cause, and returns where it ends. If it
/// returns `None`, nothing has changed. Preconditions: as many bytes remain as such a line may have, there are `count`
/// registers or more, and if `one_fraction`, all registers have one number of fraction bits.
#[inline(always)]
fn answer_quick_line<T: Word>(
    word: WordName,
    rest: &[u8],
    count: u8,
    one_fraction: bool,
    number: u64,
    room: &mut Room,
) -> Option<usize>
    requires signed { T.SIGNED ≡ is_signed word }
    requires bits { T.BITS ≡ width word }
    requires long { 64 ≤ length rest.now }
    requires few { count ≤ 100 }
    requires count { count ≤ length room.old.registers }
    requires word { room.old.word ≡ Some word }
    requires one_fraction { one_fraction ≡ true → AreEqual (fractions_in room.old.registers) }
    requires space { length room.old.answers + 2 * length rest.now ≤ room.old.answer_room }
    ensures some { IfSome result (λ end. HasMoved word number rest.now end room.old room.new) }
    ensures none { result ≡ None → room.new ≡ room.old }
    ensures count { length room.new.registers ≡ length room.old.registers }
    ensures kept { KeepsRoom room.old room.new }
{
    let (line, end) = match quick_line(rest, count) {
        Some(found) => found,
        None => return None,
    };
    match room.step_quick_line::<T>(word, one_fraction, line, number) {
        Some(answer) => {
            room.push(answer);
            Some(end)
        }
        None => None,
    }
}

/// Runs the lines from a place on, as long as the fast path reads them and they have no cause. Returns where the next
/// line begins, and its number. If `one_fraction`, all registers have one number of fraction bits.
#[inline(always)]
fn answer_quick_lines<T: Word>(
    word: WordName,
    lines: &[u8],
    one_fraction: bool,
    from: usize,
    first: u64,
    room: &mut Room,
) -> (usize, u64)
    requires signed { T.SIGNED ≡ is_signed word }
    requires bits { T.BITS ≡ width word }
    requires within { from ≤ length lines.now }
    requires number { first ≤ from + 2 }
    requires word { room.old.word ≡ Some word }
    requires one_fraction { one_fraction ≡ true → AreEqual (fractions_in room.old.registers) }
    requires space { length room.old.answers + 2 * length (drop from lines.now) ≤ room.old.answer_room }
    ensures moved { HaveMoved word lines.now from first result.0 result.1 room.old room.new }
    ensures kept { KeepsRoom room.old room.new }
{
    let count = room.registers().min(100) as u8;
    let mut at = from;
    let mut number = first;
    while lines.len() - at >= LONGEST {
        match answer_quick_line::<T>(word, &lines[at..], count, one_fraction, number, room) {
            Some(end) => at += end,
            None => return (at, number),
        }
        number += 1;
    }
    (at, number)
}

/// Runs the lines after the header, on the word of that name and type.
fn answer_lines_as<T: Word>(word: WordName, lines: &[u8], room: &mut Room) -> Result<(), Cause>
    requires signed { T.SIGNED ≡ is_signed word }
    requires bits { T.BITS ≡ width word }
    requires word { room.old.word ≡ Some word }
    requires space { length room.old.answers + 2 * length lines.now ≤ room.old.answer_room }
    ensures tells { IsAnswerOfRun (after room.old.answers
        (run_lines (state_in word room.old.registers) 2 (pieces lines.now))) result room.new }
    ensures kept { KeepsRoom room.old room.new }
{
    let one_fraction = room.has_one_fraction();
    let mut at = 0;
    let mut number = 2;
    while at < lines.len() {
        (at, number) = answer_quick_lines::<T>(word, lines, one_fraction, at, number, room);
        if at < lines.len() {
            match answer_line(&lines[at..], number, room) {
                Ok(end) => at += end,
                Err(cause) => return Err(cause),
            }
            number += 1;
        }
    }
    Ok(())
}

/// Runs the lines after the header.
fn answer_lines(word: WordName, lines: &[u8], room: &mut Room) -> Result<(), Cause>
    requires word { room.old.word ≡ Some word }
    requires space { length room.old.answers + 2 * length lines.now ≤ room.old.answer_room }
    ensures tells { IsAnswerOfRun (after room.old.answers
        (run_lines (state_in word room.old.registers) 2 (pieces lines.now))) result room.new }
    ensures kept { KeepsRoom room.old room.new }
{
    match word {
        WordName::I8 => answer_lines_as::<i8>(word, lines, room),
        WordName::I16 => answer_lines_as::<i16>(word, lines, room),
        WordName::I32 => answer_lines_as::<i32>(word, lines, room),
        WordName::I64 => answer_lines_as::<i64>(word, lines, room),
        WordName::U8 => answer_lines_as::<u8>(word, lines, room),
        WordName::U16 => answer_lines_as::<u16>(word, lines, room),
        WordName::U32 => answer_lines_as::<u32>(word, lines, room),
        WordName::U64 => answer_lines_as::<u64>(word, lines, room),
    }
}

/// Returns the header of a script, and where its lines begin, or `None` if its first piece is not a header.
fn open_script(script: &[u8]) -> Option<(Header<'_>, usize)>
    ensures none { IfNone result (script_run script.now ≡ stopped None (Cause.Syntax 1)) }
    ensures some { IfSome result (λ found. IsOpened script.now found.0 found.1) }
{
    if script.is_empty() {
        return None;
    }
    let end = piece_end(script);
    match header_of_piece(&script[..end]) {
        Some(header) => Some((header, end)),
        None => None,
    }
}

/// Declares the registers of a script's header and runs the lines, which begin at `end`. Precondition: there is room.
fn run_from(script: &[u8], header: &Header<'_>, end: usize, room: &mut Room) -> Result<(), Cause>
    requires opened { IsOpened script.now header.now end }
    requires registers { spaces script.now ≤ room.old.register_room }
    requires answers { 2 * length script.now ≤ room.old.answer_room }
    ensures tells { IsAnswerOfRun (script_run script.now) result room.new }
    ensures kept { KeepsRoom room.old room.new }
{
    match room.declare(header) {
        Ok(()) => answer_lines(header.word(), &script[end..], room),
        Err(cause) => Err(cause),
    }
}

/// Runs a script from a fresh start, without allocation. Leaves all answers in the room. If a line has a cause, returns
/// the first one and leaves the registers and the answers of the lines before it in the room. Precondition: the room
/// suffices for the script, as `suffices` tests.
pub fn run_in(script: &[u8], room: &mut Room) -> Result<(), Cause>
    requires { Suffices script.now room.old }
    ensures tells { IsAnswerOfRun (script_run script.now) result room.new }
    ensures kept { KeepsRoom room.old room.new }
{
    match open_script(script) {
        Some((header, end)) => run_from(script, &header, end, room),
        None => {
            room.clear();
            Err(Cause::Syntax(1))
        }
    }
}

/// Runs a script and returns its answers. Fails with the first cause of a line, or if memory runs out, and then returns
/// no answers.
pub fn run(alloc: Global, script: &[u8]) -> Result<Answers, ScriptFault>
    ensures { IsAnswerOfMeaning (meaning script.now) result }
{
    let Some((header, end)) = open_script(script) else {
        return Err(ScriptFault::Script(Cause::Syntax(1)));
    };
    let mut room = match Room::of_size(alloc, spaces_in(&script[..end]), 2 * script.len()) {
        Ok(room) => room,
        Err(_) => return Err(ScriptFault::Memory),
    };
    match run_from(script, &header, end, &mut room) {
        Ok(()) => Ok(room.into_answers()),
        Err(cause) => Err(ScriptFault::Script(cause)),
    }
}
