//! The words `demo N`, and words that are no form of the command.

ghost use Rattle.std.specs.Prelude.{◌≤◌};
ghost use Rattle.fixed_calc.specs.CommandLine.{most_lines};

use fixed_calc::{Source, Status, SureSink, SureSource, calc_main, demo_script};
use std::alloc::Global;
use std::process::Abort;
use std::test::Fail;

/// What a call with words leaves.
#[derive(Drop)]
struct Called {
    status: Status,
    source: SureSource,
    sink: SureSink,
    errors: SureSink,
}

/// A call with these words, on a source of a header.
fn call(alloc: Global, texts: &[&str]) -> Result<Called, Fail> {
    let mut words = Vec::new(alloc);
    for text in texts {
        words.push(String::from_str(alloc, text)?)?;
    }
    let mut source = SureSource::new(b"i8 4\n".to_vec(alloc)?);
    let mut sink = SureSink::new(alloc);
    let mut errors = SureSink::new(alloc);
    let status = calc_main(alloc, &words, &mut source, &mut sink, &mut errors);
    Ok(Called {
        status,
        source,
        sink,
        errors,
    })
}

/// Asserts that the call left this status, wrote and told these bytes, and read nothing: the source still has all its
/// bytes.
fn leaves(rt: &impl Abort, seen: &mut Called, texts: &[&str], wanted: (Status, &[u8], &[u8])) {
    let mut left = [0; 8];
    let unread = seen.source.read(&mut left) == Ok(5) && left == *b"i8 4\n\0\0\0";
    let (status, taken, told) = wanted;
    let same = seen.sink.taken() == taken && seen.errors.taken() == told;
    assert!(rt;
        seen.status == status && same && unread,
        "{texts:?}: {:?}",
        seen.status
    );
}

/// Asserts that the words `demo N` write this summary and read nothing.
fn sums_up(rt: &impl Abort, alloc: Global, lines: &str, summary: &str) -> Result<(), Fail> {
    let texts = ["demo", lines];
    let mut seen = call(alloc, &texts)?;
    let wanted = (Status::Done, summary.as_bytes(), b"".as_slice());
    leaves(rt, &mut seen, &texts, wanted);
    Ok(())
}

/// Words that are no form of the command. Then nothing is read.
#[test]
fn faulty_words(rt: HostRuntime) -> Result<(), Fail> {
    let alloc = rt.alloc();
    assert!(rt; Status::Usage.code() == 2);
    for texts in [
        ["x"].as_slice(),
        &[""],
        &["demo"],
        &["demo", "0"],
        &["demo", "01"],
        &["demo", "+1"],
        &["demo", "1", "2"],
        &["demo", "1000001"],
        &["demo", ""],
        &["Demo", "1"],
    ] {
        let mut seen = call(alloc, texts)?;
        let usage = b"usage: fixed_prog [demo N]\n".as_slice();
        let wanted = (Status::Usage, b"".as_slice(), usage);
        leaves(&rt, &mut seen, texts, wanted);
    }
    Ok(())
}

/// Asserts that the script of so many lines is this.
fn makes(rt: &impl Abort, alloc: Global, lines: u32, script: &str) -> Result<(), Fail>
    requires some { 1 ≤ lines }
    requires most { lines ≤ most_lines }
{
    let made = demo_script(alloc, lines)?;
    assert!(rt; made.as_bytes() == script.as_bytes(), "{lines} lines");
    Ok(())
}

/// The first scripts, and their summaries.
#[test]
fn short_demos(rt: HostRuntime) -> Result<(), Fail> {
    let alloc = rt.alloc();
    makes(
        &rt,
        alloc,
        1,
        "i64 32 32 32 32 32 32 32 32\nr6 saturating mul r2 r7\n",
    )?;
    makes(
        &rt,
        alloc,
        2,
        "i64 32 32 32 32 32 32 32 32\nr6 saturating mul r2 r7\nr1 wrapping add r3 r5\n",
    )?;
    sums_up(&rt, alloc, "1", "lines 1\nnone 0\ntrue 0\n")?;
    sums_up(&rt, alloc, "2", "lines 2\nnone 0\ntrue 0\n")
}

/// Many lines, twice.
#[test]
fn a_long_demo(rt: HostRuntime) -> Result<(), Fail> {
    let alloc = rt.alloc();
    sums_up(&rt, alloc, "20000", "lines 20000\nnone 894\ntrue 578\n")?;
    sums_up(&rt, alloc, "20000", "lines 20000\nnone 894\ntrue 578\n")
}
