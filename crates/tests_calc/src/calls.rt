//! The calls below the top one.

ghost use Rattle.std.specs.Prelude.{IsSome};

use fixed_calc::{
    Answer, Answers, Cause, Line, Op, Policy, Room, Rounding, Script, ScriptFault, Status,
    WordName, parse_header, parse_line, run_in, step,
};
use std::process::Abort;
use std::test::Fail;

/// Asserts that the script runs in the room, which suffices for it, with these answers.
fn runs(rt: &impl Abort, room: &mut Room, script: &str, expected: Result<(), Cause>, want: &str) {
    if room.suffices(script.as_bytes()) {
        let found = run_in(script.as_bytes(), room);
        assert!(rt; found == expected, "the cause of {script}");
        assert!(rt;
            room.answers() == want.as_bytes(),
            "the answers of {script}"
        );
    } else {
        assert!(rt; false, "room for {script}");
    }
}

/// A room for a script has room for its registers and for twice its bytes, and no more.
#[test]
fn room_for_a_script(rt: HostRuntime) -> Result<(), Fail> {
    let alloc = rt.alloc();
    let mut room = Room::for_script(alloc, b"i32 16\n")?;
    assert!(rt; room.registers() == 0);
    for (script, enough) in [
        ("", true),
        ("i32 16\n", true),
        ("abcdefg", true),
        ("a\n     ", true),
        ("abcdefgh", false),
        ("a b c\n", false),
    ] {
        assert!(rt; room.suffices(script.as_bytes()) == enough, "{script}");
    }
    runs(&rt, &mut room, "i32 16\n", Ok(()), "");
    assert!(rt; room.registers() == 1);
    Ok(())
}

/// Whether the room has registers of these bits, and no other.
fn has_registers(room: &Room, bits: &[i128]) -> bool {
    for index in 0..bits.len() {
        if room.registers() <= index || room.bits_at(index) != bits[index] {
            return false;
        }
    }
    room.registers() == bits.len()
}

/// A room serves one script after another: each run leaves its own answers and registers alone.
#[test]
fn one_room_for_many(rt: HostRuntime) -> Result<(), Fail> {
    let alloc = rt.alloc();
    let longest = "i8 4 4\nr0 set 5\nr1 set 7\nr0 strict mul_int r0 100\nr0 set 1\n";
    let mut room = Room::for_script(alloc, longest.as_bytes())?;
    for (script, expected, want, registers) in [
        (
            longest,
            Err(Cause::Overflow(4)),
            "5\n7\n",
            [5_i128, 7].as_slice(),
        ),
        (
            "u8 8\nr0 set 3\nr0 overflowing recip r0\n",
            Ok(()),
            "3\n85 true\n",
            &[85],
        ),
        ("u8 9\n", Err(Cause::OutOfRange(1)), "", &[]),
        ("i16 2\nr0 set -9\n", Ok(()), "-9\n", &[-9]),
        ("", Err(Cause::Syntax(1)), "", &[]),
        (
            "i16 2\nr0 set -9\nr1 set 1\n",
            Err(Cause::OutOfRange(3)),
            "-9\n",
            &[-9],
        ),
        ("i8\n", Err(Cause::Syntax(1)), "", &[]),
    ] {
        runs(&rt, &mut room, script, expected, want);
        assert!(rt; has_registers(&room, registers), "registers of {script}");
    }
    runs(&rt, &mut room, longest, Err(Cause::Overflow(4)), "5\n7\n");
    assert!(rt; room.into_answers().as_bytes() == b"5\n7\n".as_slice());
    Ok(())
}

/// Asserts that the line has this answer or cause, and that register 0 then has these bits.
fn steps(rt: &impl Abort, room: &mut Room, text: &str, expected: Result<Answer, Cause>, bits: i128)
    requires { IsSome room.old.word }
    ensures { IsSome room.new.word }
{
    let found = match parse_line(text.as_bytes()) {
        Some(line) => Some(step(room, &line, 9)),
        None => None,
    };
    let first = if 0 < room.registers() {
        Some(room.bits_at(0))
    } else {
        None
    };
    assert!(rt; found == Some(expected), "{text}");
    assert!(rt; first == Some(bits), "register 0 after {text}: {first:?}");
}

/// Each cause leaves the registers.
fn step_to_causes(rt: &impl Abort, room: &mut Room)
    requires { IsSome room.old.word }
    ensures { IsSome room.new.word }
{
    steps(
        rt,
        room,
        "r0 strict mul_int r0 2",
        Err(Cause::Overflow(9)),
        127,
    );
    steps(
        rt,
        room,
        "r0 wrapping div_int r0 0",
        Err(Cause::ZeroDivisor(9)),
        127,
    );
    steps(
        rt,
        room,
        "r0 wrapping sqrt r1",
        Err(Cause::NegativeRoot(9)),
        127,
    );
    steps(
        rt,
        room,
        "r0 wrapping neg r2",
        Err(Cause::FractionMismatch(9)),
        127,
    );
    steps(
        rt,
        room,
        "r0 wrapping neg r3",
        Err(Cause::OutOfRange(9)),
        127,
    );
    steps(
        rt,
        room,
        "r0 wrapping rem r0 r0",
        Err(Cause::Syntax(9)),
        127,
    );
}

/// Each line after a header answers, stores and leaves the rest.
fn step_each(rt: &impl Abort, room: &mut Room)
    requires { IsSome room.old.word }
{
    steps(rt, room, "r0 set 100", Ok(Answer::Bits(100)), 100);
    steps(rt, room, "r1 set -128", Ok(Answer::Bits(-128)), 100);
    steps(rt, room, "r0 checked mul_int r0 2", Ok(Answer::Absent), 100);
    steps(
        rt,
        room,
        "r0 overflowing neg r1",
        Ok(Answer::Flagged(-128, true)),
        -128,
    );
    steps(
        rt,
        room,
        "r0 overflowing neg r0",
        Ok(Answer::Flagged(-128, true)),
        -128,
    );
    steps(rt, room, "r0 saturating neg r1", Ok(Answer::Bits(127)), 127);
    step_to_causes(rt, room);
    let misshapen = Line::Two {
        dest: 0,
        policy: Policy::Checked,
        op: Op::Neg,
        a: 0,
        b: 0,
        rounding: None,
    };
    let rounded = Line::Two {
        dest: 0,
        policy: Policy::Checked,
        op: Op::Add,
        a: 0,
        b: 0,
        rounding: Some(Rounding::Even),
    };
    let found = step(room, &misshapen, 4);
    assert!(rt; found == Err(Cause::Syntax(4)), "one operand too many");
    let found = step(room, &rounded, 4);
    assert!(rt; found == Err(Cause::Syntax(4)), "nothing to round");
    assert!(rt; room.answers().is_empty(), "a step adds no answer");
}

/// Asserts that declaring the header has this result and leaves so many registers.
fn declares(
    rt: &impl Abort,
    room: &mut Room,
    text: &str,
    expected: Result<(), Cause>,
    registers: usize,
) {
    let found = match parse_header(text.as_bytes()) {
        Some(header) => {
            if room.has_room_for(&header) {
                Some(room.declare(&header))
            } else {
                None
            }
        }
        None => None,
    };
    assert!(rt; found == Some(expected), "{text}");
    assert!(rt; room.registers() == registers, "registers after {text}");
}

/// A room steps by hand: a header is declared, and each line is one call.
#[test]
fn steps_by_hand(rt: HostRuntime) -> Result<(), Fail> {
    let alloc = rt.alloc();
    let mut room = Room::for_script(alloc, b"i8 4 4 2\n")?;
    let four_fit = match parse_header(b"i8 4 4 2 1") {
        Some(header) => room.has_room_for(&header),
        None => true,
    };
    assert!(rt; room.word().is_none() && !four_fit, "four fractions");
    declares(&rt, &mut room, "i8 9", Err(Cause::OutOfRange(1)), 0);
    declares(&rt, &mut room, "u8 8 8", Ok(()), 2);
    declares(&rt, &mut room, "i8 8 9 8", Err(Cause::OutOfRange(1)), 0);
    declares(&rt, &mut room, "i8 4 4 2", Ok(()), 3);
    match parse_header(b"i8 4 4 2") {
        Some(header) => {
            if room.has_room_for(&header) && room.declare(&header).is_ok() {
                step_each(&rt, &mut room);
            } else {
                assert!(rt; false, "a header that fits");
            }
        }
        None => assert!(rt; false, "a header"),
    }
    let last = if 2 < room.registers() {
        Some(room.fraction_at(2))
    } else {
        None
    };
    assert!(rt; room.word() == Some(WordName::I8) && last == Some(2));
    Ok(())
}

/// Bytes go into a script and into answers, and come out again.
#[test]
fn bytes_in_and_out(rt: HostRuntime) -> Result<(), Fail> {
    let alloc = rt.alloc();
    let script = Script::new(b"i8 4\n".to_vec(alloc)?);
    let answers = Answers::new(b"5\n".to_vec(alloc)?);
    let lent = script.as_bytes() == b"i8 4\n".as_slice() && answers.as_bytes() == b"5\n".as_slice();
    let (script, answers) = (script.into_bytes(), answers.into_bytes());
    assert!(rt; lent, "bytes lent");
    assert!(rt;
        script.as_slice() == b"i8 4\n".as_slice(),
        "the bytes of a script"
    );
    assert!(rt;
        answers.as_slice() == b"5\n".as_slice(),
        "the bytes of answers"
    );
    Ok(())
}

/// Each status has its number, and each fault of a run its text.
#[test]
fn texts_and_numbers(rt: HostRuntime) -> Result<(), Fail> {
    let alloc = rt.alloc();
    for (status, code) in [
        (Status::Done, 0),
        (Status::Script(Cause::Syntax(1)), 1),
        (Status::Script(Cause::OutOfRange(2)), 1),
        (Status::Script(Cause::FractionMismatch(3)), 1),
        (Status::Script(Cause::ZeroDivisor(4)), 1),
        (Status::Script(Cause::NegativeRoot(5)), 1),
        (Status::Script(Cause::Overflow(u64::MAX)), 1),
        (Status::Usage, 2),
        (Status::ReadFault, 3),
        (Status::WriteFault, 4),
        (Status::TooLong, 5),
        (Status::Memory, 6),
    ] {
        assert!(rt; status.code() == code, "{status:?}");
    }
    let cause = format!(in alloc; "{}", ScriptFault::Script(Cause::Overflow(3)))?;
    let memory = format!(in alloc; "{}", ScriptFault::Memory)?;
    assert!(rt; cause.as_str() == "a line has a cause", "{cause}");
    assert!(rt; memory.as_str() == "out of memory", "{memory}");
    Ok(())
}
