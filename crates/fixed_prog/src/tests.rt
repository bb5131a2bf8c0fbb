//! Tests of each adapter on bytes in memory, and on a device that fails.

use crate::adapters::{StdErrors, StdSink, StdSource};
use fixed_calc::{Cause, Failed, Refusal, Sink, Source, Status, calc_main};
use std::io::{self, ErrorKind, Read, Write};
use std::test::Fail;

/// How a device fails.
#[derive(Clone, Copy, Debug, PartialEq, Eq)]
enum Manner {
    /// Each read and each write fails.
    Broken,
    /// Each write takes nothing.
    Full,
    /// Each write takes all, and each flush fails.
    Unflushed,
}

/// A device that fails.
#[derive(Drop)]
struct Device {
    manner: Manner,
}

impl Read for Device {
    fn read(&mut self, _buf: &mut [u8]) -> io::Result<usize> {
        Err(ErrorKind::BrokenPipe.into())
    }
}

impl Write for Device {
    fn write(&mut self, buf: &[u8]) -> io::Result<usize> {
        match self.manner {
            Manner::Broken => Err(ErrorKind::BrokenPipe.into()),
            Manner::Full => Ok(0),
            Manner::Unflushed => Ok(buf.len()),
        }
    }

    fn flush(&mut self) -> io::Result<()> {
        match self.manner {
            Manner::Unflushed => Err(ErrorKind::BrokenPipe.into()),
            Manner::Broken | Manner::Full => Ok(()),
        }
    }
}

/// A reader's bytes are read in order, up to its end. A writer takes the bytes that it is offered.
#[test]
fn adapters_in_memory(rt: HostRuntime) -> Result<(), Fail> {
    let alloc = rt.alloc();
    let mut source = StdSource::new(b"abcde".as_slice());
    let mut buffer = [0; 4];
    assert_eq!(rt; source.read(&mut buffer), Ok(4));
    assert_eq!(rt; buffer, *b"abcd");
    assert_eq!(rt; source.read(&mut buffer), Ok(1));
    assert_eq!(rt; buffer[0], b'e');
    assert_eq!(rt; source.read(&mut buffer), Ok(0));
    let mut written = Vec::new(alloc);
    let mut sink = StdSink::new(&mut written);
    assert_eq!(rt; sink.write(b"abc"), Ok(3));
    assert_eq!(rt; sink.write(b""), Ok(0));
    assert_eq!(rt; sink.write(b"de"), Ok(2));
    assert_eq!(rt; written.as_slice(), b"abcde".as_slice());
    let mut told = Vec::new(alloc);
    let mut errors = StdErrors::new(&mut told);
    assert_eq!(rt; errors.write(b"line 1"), Ok(6));
    assert_eq!(rt; told.as_slice(), b"line 1".as_slice());
    Ok(())
}

/// Each failed call, each write that takes nothing, and each failed flush is a fault.
#[test]
fn adapters_that_fail(rt: HostRuntime) -> Result<(), Fail> {
    let manner = Manner::Broken;
    let mut source = StdSource::new(Device { manner });
    let mut buffer = [0; 4];
    assert_eq!(rt; source.read(&mut buffer), Err(Failed));
    assert_eq!(rt; source.read(&mut buffer), Err(Failed), "again");
    for manner in [Manner::Broken, Manner::Full, Manner::Unflushed] {
        let mut sink = StdSink::new(Device { manner });
        assert_eq!(rt; sink.write(b"abc"), Err(Refusal::Failed), "{manner:?}");
        assert_eq!(rt;
            sink.write(b"abc"),
            Err(Refusal::Failed),
            "{manner:?}, again"
        );
        let mut errors = StdErrors::new(Device { manner });
        assert_eq!(rt; errors.write(b"abc"), Err(Refusal::Failed), "{manner:?}");
    }
    Ok(())
}

/// The whole program on the adapters: answers, the line for a cause, and faults of each side.
#[test]
fn program_over_adapters(rt: HostRuntime) -> Result<(), Fail> {
    let alloc = rt.alloc();
    let words = Vec::new(alloc);
    for (script, status, answers, line) in [
        ("i8 4\nr0 set 5\n", Status::Done, "5\n", ""),
        (
            "i8 4\nxx\n",
            Status::Script(Cause::Syntax(2)),
            "",
            "line 2: syntax\n",
        ),
    ] {
        let mut written = Vec::new(alloc);
        let mut told = Vec::new(alloc);
        let mut source = StdSource::new(script.as_bytes());
        let mut sink = StdSink::new(&mut written);
        let mut errors = StdErrors::new(&mut told);
        let ended = calc_main(alloc, &words, &mut source, &mut sink, &mut errors);
        assert_eq!(rt; ended, status, "{script}");
        assert_eq!(rt; written.as_slice(), answers.as_bytes(), "{script}");
        assert_eq!(rt; told.as_slice(), line.as_bytes(), "{script}");
    }
    for manner in [Manner::Broken, Manner::Full, Manner::Unflushed] {
        let mut told = Vec::new(alloc);
        let mut source = StdSource::new(b"i8 4\nr0 set 5\n".as_slice());
        let mut sink = StdSink::new(Device { manner });
        let mut errors = StdErrors::new(&mut told);
        let ended = calc_main(alloc, &words, &mut source, &mut sink, &mut errors);
        assert_eq!(rt; ended, Status::WriteFault, "{manner:?}");
        assert_eq!(rt; told.as_slice(), b"write fault\n".as_slice(), "{manner:?}");
    }
    let manner = Manner::Broken;
    let mut written = Vec::new(alloc);
    let mut source = StdSource::new(Device { manner });
    let mut sink = StdSink::new(&mut written);
    let mut errors = StdErrors::new(Device { manner });
    let ended = calc_main(alloc, &words, &mut source, &mut sink, &mut errors);
    assert_eq!(rt; ended, Status::ReadFault);
    assert!(rt; written.is_empty());
    Ok(())
}
