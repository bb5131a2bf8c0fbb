//! A source, a sink and errors that fail.

use super::devices::Failing;
use super::same::all_hold;
use fixed_calc::{Cause, Sink, Source, Status, SureSink, SureSource, calc_main};
use std::process::Abort;
use std::test::Fail;

/// What a call of the program leaves: its status, the bytes that a device in memory has, and the count that the
/// failing device has.
type Ended<'a> = (Status, &'a [u8], u64);

/// Asserts that a call leaves what is wanted where a device fails after so many calls.
fn ends(rt: &impl Abort, calls: u64, found: Ended, wanted: Ended) {
    let (status, bytes, count) = found;
    let (wanted_status, wanted_bytes, wanted_count) = wanted;
    let same = status == wanted_status && bytes == wanted_bytes && count == wanted_count;
    assert!(rt; same, "after {calls} calls: {status:?}, {bytes:?}, {count}");
}

/// A read that fails, at once or later, ends the work: nothing is written.
#[test]
fn failing_reads(rt: HostRuntime) -> Result<(), Fail> {
    let alloc = rt.alloc();
    assert!(rt; Status::ReadFault.code() == 3);
    for calls in [0, 1, 5] {
        let words = Vec::new(alloc);
        let mut source = Failing::after(calls);
        let mut sink = SureSink::new(alloc);
        let mut errors = SureSink::new(alloc);
        let status = calc_main(alloc, &words, &mut source, &mut sink, &mut errors);
        let found = (status, errors.taken(), source.faults);
        ends(&rt, calls, found, (Status::ReadFault, b"read fault\n", 1));
        assert!(rt; sink.taken().is_empty(), "after {calls} calls");
    }
    Ok(())
}

/// A write that fails, at once or later, ends the work: the sink has taken a part of the output.
#[test]
fn failing_writes(rt: HostRuntime) -> Result<(), Fail> {
    let alloc = rt.alloc();
    assert!(rt; Status::WriteFault.code() == 4);
    for calls in [0, 1, 2] {
        let words = Vec::new(alloc);
        let mut source = SureSource::new(b"i8 4\nr0 set 15\n".to_vec(alloc)?);
        let mut sink = Failing::after(calls);
        let mut errors = SureSink::new(alloc);
        let status = calc_main(alloc, &words, &mut source, &mut sink, &mut errors);
        let found = (status, errors.taken(), sink.taken);
        let wanted = (Status::WriteFault, b"write fault\n".as_slice(), calls);
        ends(&rt, calls, found, wanted);
    }
    Ok(())
}

/// A write of a summary that fails ends the work: the sink has taken a part of the summary.
#[test]
fn failing_summary(rt: HostRuntime) -> Result<(), Fail> {
    let alloc = rt.alloc();
    for calls in [0, 1, 21] {
        let mut words = Vec::new(alloc);
        words.push(String::from_str(alloc, "demo")?)?;
        words.push(String::from_str(alloc, "2")?)?;
        let mut source = Failing::after(0);
        let mut sink = Failing::after(calls);
        let mut errors = SureSink::new(alloc);
        let status = calc_main(alloc, &words, &mut source, &mut sink, &mut errors);
        let found = (status, errors.taken(), sink.taken);
        let wanted = (Status::WriteFault, b"write fault\n".as_slice(), calls);
        ends(&rt, calls, found, wanted);
        assert!(rt; source.faults == 0, "after {calls} calls");
    }
    Ok(())
}

/// The last byte of the output can be the last that the sink takes.
#[test]
fn writes_before_a_fault(rt: HostRuntime) -> Result<(), Fail> {
    let alloc = rt.alloc();
    let words = Vec::new(alloc);
    let mut source = SureSource::new(b"i8 4\nr0 set 15\n".to_vec(alloc)?);
    let mut sink = Failing::after(3);
    let mut errors = SureSink::new(alloc);
    let status = calc_main(alloc, &words, &mut source, &mut sink, &mut errors);
    let found = (status, errors.taken(), sink.taken);
    ends(&rt, 3, found, (Status::Done, b"", 3));
    Ok(())
}

/// Errors that fail change no status.
#[test]
fn failing_errors(rt: HostRuntime) -> Result<(), Fail> {
    let alloc = rt.alloc();
    for calls in [0, 3] {
        let words = Vec::new(alloc);
        let mut source = SureSource::new(b"i8 4\nxx\n".to_vec(alloc)?);
        let mut sink = SureSink::new(alloc);
        let mut errors = Failing::after(calls);
        let status = calc_main(alloc, &words, &mut source, &mut sink, &mut errors);
        let found = (status, sink.taken(), errors.taken);
        let wanted = (Status::Script(Cause::Syntax(2)), b"".as_slice(), calls);
        ends(&rt, calls, found, wanted);
    }
    Ok(())
}

/// A source in memory gives all its bytes and then its end, and a sink in memory takes each piece whole.
#[test]
fn memory_forms(rt: HostRuntime) -> Result<(), Fail> {
    let alloc = rt.alloc();
    let mut source = SureSource::new(b"abcde".to_vec(alloc)?);
    let mut buffer = [0; 4];
    let first = (source.read(&mut buffer), buffer);
    let second = (source.read(&mut buffer), buffer);
    let third = (source.read(&mut buffer), buffer);
    let mut sink = SureSink::new(alloc);
    let whole = sink.write(b"abc");
    let rest = sink.write(b"de");
    all_hold(
        &rt,
        &[
            ("the first read", first == (Ok(4), *b"abcd")),
            ("the second", second == (Ok(1), *b"ebcd")),
            ("the third", third == (Ok(0), *b"ebcd")),
            ("a write", whole == Ok(3)),
            ("another", rest == Ok(2)),
            ("what is taken", sink.taken() == b"abcde".as_slice()),
        ],
    );
    Ok(())
}
