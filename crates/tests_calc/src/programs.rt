//! What no clause says: worked scripts from bytes to bytes, printed texts, and ample memory.

use super::same::left;
use fixed_calc::{Cause, Source, Status, SureSink, SureSource, calc_main};
use std::alloc::Global;
use std::process::Abort;
use std::test::Fail;

/// What a call of the program leaves.
#[derive(Drop)]
pub struct Seen {
    pub status: Status,
    pub sink: SureSink,
    pub errors: SureSink,
}

/// A call with no words, on a source of these bytes.
pub fn outcome(alloc: Global, script: &[u8]) -> Result<Seen, Fail> {
    Ok(outcome_of(alloc, &mut SureSource::new(script.to_vec(alloc)?)))
}

/// A call with no words on that source.
pub fn outcome_of<S: Source>(alloc: Global, source: &mut S) -> Seen {
    let words = Vec::new(alloc);
    let mut sink = SureSink::new(alloc);
    let mut errors = SureSink::new(alloc);
    let status = calc_main(alloc, &words, source, &mut sink, &mut errors);
    Seen {
        status,
        sink,
        errors,
    }
}

/// Asserts that the script is done with these answers.
pub fn answers(rt: &impl Abort, alloc: Global, script: &str, want: &str) -> Result<(), Fail> {
    let seen = outcome(alloc, script.as_bytes())?;
    let found = (seen.status, seen.sink.taken(), seen.errors.taken());
    left(rt, script, found, (Status::Done, want.as_bytes(), b""));
    Ok(())
}

/// Asserts that the script ends with this cause and this line, and that nothing is written.
pub fn refuses(
    rt: &impl Abort,
    alloc: Global,
    script: &[u8],
    cause: Cause,
    line: &str,
) -> Result<(), Fail> {
    let seen = outcome(alloc, script)?;
    let same = seen.errors.taken() == line.as_bytes() && seen.sink.taken().is_empty();
    let status = seen.status;
    assert!(rt;
        status == Status::Script(cause) && same,
        "{status:?} of {script:?}"
    );
    Ok(())
}
