//! Sources and sinks in memory of which any call may fail, a source without an end, and scripts cut short.

use super::devices::Endless;
use super::same::{Left, all_hold, left};
use fixed_calc::{
    Cause, Failed, MemorySink, MemorySource, Refusal, Sink, Source, Status, SureSink, calc_main,
};
use std::alloc::Global;
use std::process::Abort;
use std::test::Fail;

/// A script of 71 bytes in five lines.
const SCRIPT: &[u8] =
    b"u8 4 4\nr0 set 255\nr1 set 32\nr0 checked mul r0 r1\nr1 wrapping add r0 r1\n";

/// Its output, of 15 bytes.
const OUTPUT: &[u8] = b"255\n32\nnone\n31\n";

/// How many bytes a call moves at most, and the number of the one call that fails; 0 is no call's.
#[derive(Clone, Copy, Debug)]
struct Habits {
    most: usize,
    failing: u64,
}

/// Moves all that it can, and never fails.
const FINE: Habits = Habits {
    most: usize::MAX,
    failing: 0,
};

fn one_failing(alloc: Global, call: u64) -> Result<Vec<u64>, Fail> {
    Ok(vec![in alloc; call]?)
}

/// A call with no words on such a source, such a sink and such errors; what it leaves is compared with the
/// status, the bytes in the sink and the bytes in the errors.
fn leaves(
    rt: &impl Abort,
    alloc: Global,
    script: &[u8],
    habits: [Habits; 3],
    want: (Status, &[u8], &[u8]),
) -> Result<(), Fail> {
    let words = Vec::new(alloc);
    let [reads, writes, tells] = habits;
    let failing = one_failing(alloc, reads.failing)?;
    let mut source = MemorySource::new(script.to_vec(alloc)?, reads.most.max(1), failing);
    let failing = one_failing(alloc, writes.failing)?;
    let mut sink = MemorySink::new(alloc, writes.most.max(1), failing);
    let failing = one_failing(alloc, tells.failing)?;
    let mut errors = MemorySink::new(alloc, tells.most.max(1), failing);
    let status = calc_main(alloc, &words, &mut source, &mut sink, &mut errors);
    let (wanted_status, written, told) = want;
    let same = sink.taken() == written && errors.taken() == told;
    assert!(rt; status == wanted_status && same, "{status:?} of {habits:?}");
    Ok(())
}

/// Whichever read fails, nothing is written. With a byte a read the script takes 71 reads, and the next
/// meets its end.
#[test]
fn each_failing_read(rt: HostRuntime) -> Result<(), Fail> {
    let alloc = rt.alloc();
    let want: (Status, &[u8], &[u8]) = (Status::ReadFault, b"", b"read fault\n");
    for failing in [1, 2] {
        let reads = Habits {
            most: usize::MAX,
            failing,
        };
        leaves(&rt, alloc, SCRIPT, [reads, FINE, FINE], want)?;
    }
    for failing in 1..=72 {
        let reads = Habits { most: 1, failing };
        leaves(&rt, alloc, SCRIPT, [reads, FINE, FINE], want)?;
    }
    Ok(())
}

/// Whichever write fails, the sink has what it took before: three bytes a write.
#[test]
fn each_failing_write(rt: HostRuntime) -> Result<(), Fail> {
    let alloc = rt.alloc();
    let line: &[u8] = b"write fault\n";
    let at_once = Habits {
        most: usize::MAX,
        failing: 1,
    };
    let want: (Status, &[u8], &[u8]) = (Status::WriteFault, b"", line);
    leaves(&rt, alloc, SCRIPT, [FINE, at_once, FINE], want)?;
    for (failing, taken) in [(1, 0), (2, 3), (3, 6), (4, 9), (5, 12)] {
        let writes = Habits { most: 3, failing };
        let want = (Status::WriteFault, &OUTPUT[..taken], line);
        leaves(&rt, alloc, SCRIPT, [FINE, writes, FINE], want)?;
    }
    Ok(())
}

/// No read follows the end of input, and no write the last byte of the output.
#[test]
fn no_call_too_many(rt: HostRuntime) -> Result<(), Fail> {
    let reads = Habits {
        most: 1,
        failing: 73,
    };
    let writes = Habits {
        most: 3,
        failing: 6,
    };
    let want: (Status, &[u8], &[u8]) = (Status::Done, OUTPUT, b"");
    leaves(&rt, rt.alloc(), SCRIPT, [reads, writes, FINE], want)
}

/// Errors that fail change no status, and have what they took before.
#[test]
fn failing_line(rt: HostRuntime) -> Result<(), Fail> {
    let tells = Habits {
        most: 3,
        failing: 2,
    };
    let script = b"i8 0\nr0 set 127\nr0 strict mul_int r0 2\nr0 wrapping add r0 r0\n";
    let want: (Status, &[u8], &[u8]) = (Status::Script(Cause::Overflow(3)), b"", b"lin");
    leaves(&rt, rt.alloc(), script, [FINE, FINE, tells], want)
}

/// Reading stops past the limit.
#[test]
fn endless_input(rt: HostRuntime) {
    let alloc = rt.alloc();
    let words = Vec::new(alloc);
    let mut sink = SureSink::new(alloc);
    let mut errors = SureSink::new(alloc);
    let status = calc_main(alloc, &words, &mut Endless, &mut sink, &mut errors);
    let wanted: Left = (Status::TooLong, b"", b"too long\n");
    left(
        &rt,
        "no end",
        (status, sink.taken(), errors.taken()),
        wanted,
    );
}

/// A script that is cut within a line has `Syntax` there; one that is cut after a newline is done.
#[test]
fn each_prefix(rt: HostRuntime) -> Result<(), Fail> {
    let alloc = rt.alloc();
    let words = Vec::new(alloc);
    let mut line = 1;
    let mut ended = false;
    for at in 0..SCRIPT.len() {
        let mut source = MemorySource::new(SCRIPT[..at].to_vec(alloc)?, 4096, Vec::new(alloc));
        let mut sink = SureSink::new(alloc);
        let mut errors = SureSink::new(alloc);
        let status = calc_main(alloc, &words, &mut source, &mut sink, &mut errors);
        let wanted = if ended {
            Status::Done
        } else {
            Status::Script(Cause::Syntax(line))
        };
        assert!(rt; status == wanted, "{status:?} of the first {at} bytes");
        ended = SCRIPT[at] == b'\n';
        if ended {
            line = line.saturating_add(1);
        }
    }
    Ok(())
}

/// Numbers of a thousand digits are out of range where they are decimals, and no decimals with a zero in
/// front.
#[test]
fn thousand_digits(rt: HostRuntime) -> Result<(), Fail> {
    let alloc = rt.alloc();
    for (front, back, cause) in [
        ("i8 ", "\n", Cause::OutOfRange(1)),
        ("i8 4\nr0 set ", "\n", Cause::OutOfRange(2)),
        ("i8 4\nr", " set 0\n", Cause::OutOfRange(2)),
        ("i8 4\nr0 set 0", "\n", Cause::Syntax(2)),
    ] {
        let mut script = front.as_bytes().to_vec(alloc)?;
        for _ in 0..1000 {
            script.push(b'9')?;
        }
        script.extend_from_slice(back.as_bytes())?;
        let words = Vec::new(alloc);
        let mut source = MemorySource::new(script, 4096, Vec::new(alloc));
        let mut sink = SureSink::new(alloc);
        let mut errors = SureSink::new(alloc);
        let status = calc_main(alloc, &words, &mut source, &mut sink, &mut errors);
        let found = (status, sink.taken(), b"".as_slice());
        left(&rt, front, found, (Status::Script(cause), b"", b""));
    }
    Ok(())
}

/// What the memory forms do call by call.
#[test]
fn calls_that_fail(rt: HostRuntime) -> Result<(), Fail> {
    let alloc = rt.alloc();
    let mut source = MemorySource::new(b"abcde".to_vec(alloc)?, 3, one_failing(alloc, 2)?);
    let mut buffer = [0; 4];
    let first = (source.read(&mut buffer), buffer);
    let failed = (source.read(&mut buffer), buffer);
    let second = (source.read(&mut buffer), buffer);
    let end = (source.read(&mut buffer), buffer);
    let mut sink = MemorySink::new(alloc, 2, one_failing(alloc, 2)?);
    let begun = sink.write(b"abc");
    let refused = sink.write(b"c");
    let ended = sink.write(b"c");
    all_hold(
        &rt,
        &[
            ("the first read", first == (Ok(3), *b"abc\0")),
            ("the one that fails", failed == (Err(Failed), *b"abc\0")),
            ("the next", second == (Ok(2), *b"dec\0")),
            ("the end", end == (Ok(0), *b"dec\0")),
            ("the first write", begun == Ok(2)),
            ("the write that fails", refused == Err(Refusal::Failed)),
            ("the next write", ended == Ok(1)),
            ("what is taken", sink.taken() == b"abc".as_slice()),
        ],
    );
    Ok(())
}
