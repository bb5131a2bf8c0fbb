//! Scripts whose lines are read quickly, and by their tokens as well: a line is read quickly only where 64
//! bytes are left from its start on.

use super::pairs::PAIRS;
use super::programs::outcome;
use super::worked::ANSWERS;
use fixed_calc::Status;
use std::alloc::Global;
use std::process::Abort;
use std::test::Fail;

const BEHIND: &str =
    "r0 set 0\nr0 set 0\nr0 set 0\nr0 set 0\nr0 set 0\nr0 set 0\nr0 set 0\nr0 set 0\n";

/// Asserts that a script answers the same with enough behind it that its last line is read quickly.
fn answers_either_way(rt: &impl Abort, alloc: Global, script: &str) -> Result<(), Fail> {
    let longer = format!(in alloc; "{script}{BEHIND}")?;
    let alone = outcome(alloc, script.as_bytes())?;
    let quick = outcome(alloc, longer.as_bytes())?;
    let done = alone.status == Status::Done && quick.status == Status::Done;
    let same = quick.sink.taken().starts_with(alone.sink.taken());
    assert!(rt; done && same, "{script}");
    Ok(())
}

/// Asserts it of the script up to each of its lines.
fn lines_answer_either_way(rt: &impl Abort, alloc: Global, script: &str) -> Result<(), Fail> {
    let mut text = format!(in alloc; "")?;
    for line in script.lines() {
        text = format!(in alloc; "{text}{line}\n")?;
        answers_either_way(rt, alloc, &text)?;
    }
    Ok(())
}

/// Each pair of a policy and an operation answers the same whichever way its line is read.
#[test]
fn pairs_either_way(rt: HostRuntime) -> Result<(), Fail> {
    let alloc = rt.alloc();
    for (script, _) in PAIRS {
        lines_answer_either_way(&rt, alloc, script)?;
    }
    Ok(())
}

/// So do the scripts with known answers.
#[test]
fn known_either_way(rt: HostRuntime) -> Result<(), Fail> {
    let alloc = rt.alloc();
    for (script, _) in ANSWERS {
        lines_answer_either_way(&rt, alloc, script)?;
    }
    Ok(())
}
