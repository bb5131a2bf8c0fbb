//! Standard input, output and error as a source, a sink and the errors. They do not state which bytes are left or
//! taken. The Rust crate `fixed` does not have them.

ghost use Rattle.std.specs.Prelude.{◌≡◌, ◌≤◌, ◌<◌, None, IfErr, IfOk, length, take};
ghost use Rattle.std.specs.Io.KnownBytes.{Appends, ReadConsumes, WriteAppends};
ghost use Rattle.fixed_calc.specs.Outside.{FaultsAfterRead, CountsAfterWrite, next_count};

use fixed_calc::{Failed, Refusal, Sink, Source};
use std::io::{Read, Write};
use std::marker::Model;

/// A source that reads from a reader, such as standard input. Each failed read increments its count of faults.
#[derive(Drop)]
pub struct StdSource<R> {
    reader: R,
    faults: u64,
}

impl<R> Model for StdSource<R> {
    ghost use Rattle.fixed_prog.specs.Device.{Device};

    ghost Value = { Device R };

    ghost view = { λ s. record { device = s.reader; faults = s.faults } };
}

impl<R: Read> StdSource<R> {
    /// Returns the source of a reader, without faults.
    pub fn new(reader: R) -> StdSource<R>
        ensures device { result.device ≡ reader }
        ensures faults { result.faults ≡ 0 }
    {
        StdSource { reader, faults: 0 }
    }
}

impl<R: Read> Source for StdSource<R> {
    ghost state = { λ s. record { left = None; faults = s.faults } };

    fn read(&mut self, buf: &mut [u8]) -> Result<usize, Failed>
        ensures within { IfOk result (λ k. k ≤ length buf.new) }
        ensures bytes { ReadConsumes None None result buf.new }
        ensures faults { FaultsAfterRead self.old.faults self.new.faults result }
        ensures raised { IfErr result (λ _. self.new.faults ≡ next_count self.old.faults) }
        // The bytes from the reader, if the reader states which it has.
        ensures given { ReadConsumes
            (R.remaining self.old.device) (R.remaining self.new.device) result buf.new }
    {
        match self.reader.read(buf) {
            Ok(count) => Ok(count),
            Err(_) => {
                self.faults = self.faults.saturating_add(1);
                Err(Failed)
            }
        }
    }
}

/// A sink that writes to a writer, such as standard output. Each failed write, each write that takes none of some
/// bytes, and each failed flush increments its count of faults.
#[derive(Drop)]
pub struct StdSink<W> {
    writer: W,
    faults: u64,
}

impl<W> Model for StdSink<W> {
    ghost use Rattle.fixed_prog.specs.Device.{Device};

    ghost Value = { Device W };

    ghost view = { λ s. record { device = s.writer; faults = s.faults } };
}

impl<W: Write> StdSink<W> {
    /// Returns the sink of a writer, without faults.
    pub fn new(writer: W) -> StdSink<W>
        ensures device { result.device ≡ writer }
        ensures faults { result.faults ≡ 0 }
    {
        StdSink { writer, faults: 0 }
    }
}

impl<W: Write> Sink for StdSink<W> {
    ghost state = { λ s. record { taken = None; faults = s.faults; shortages = 0 } };

    fn write(&mut self, bytes: &[u8]) -> Result<usize, Refusal>
        ensures within { IfOk result (λ k. k ≤ length bytes.now) }
        ensures some { 0 < length bytes.now → IfOk result (λ k. 0 < k) }
        ensures bytes { WriteAppends None None result bytes.now }
        ensures counts { CountsAfterWrite
            (record { taken = None; faults = self.old.faults; shortages = 0 })
            (record { taken = None; faults = self.new.faults; shortages = 0 }) result }
        ensures refused { IfErr result (λ refusal. refusal ≡ Refusal.Failed) }
        ensures raised { IfErr result (λ _. self.new.faults ≡ next_count self.old.faults) }
        // The bytes that the writer took, if it states which it has.
        ensures taken { IfOk result (λ k. Appends
            (W.contents self.old.device) (W.contents self.new.device) (take k bytes.now)) }
    {
        match self.writer.write(bytes) {
            Ok(count) => {
                if (count > 0 || bytes.is_empty()) && self.writer.flush().is_ok() {
                    return Ok(count);
                }
            }
            Err(_) => {}
        }
        self.faults = self.faults.saturating_add(1);
        Err(Refusal::Failed)
    }
}

/// A sink that writes to a writer, such as standard error. It counts faults as `StdSink` does.
#[derive(Drop)]
pub struct StdErrors<W> {
    sink: StdSink<W>,
}

impl<W> Model for StdErrors<W> {
    ghost use Rattle.fixed_prog.specs.Device.{Device};

    ghost Value = { Device W };

    ghost view = { λ s. s.sink };
}

impl<W: Write> StdErrors<W> {
    /// Returns the errors of a writer, without faults.
    pub fn new(writer: W) -> StdErrors<W>
        ensures device { result.device ≡ writer }
        ensures faults { result.faults ≡ 0 }
    {
        StdErrors {
            sink: StdSink::new(writer),
        }
    }
}

impl<W: Write> Sink for StdErrors<W> {
    ghost state = { λ s. record { taken = None; faults = s.faults; shortages = 0 } };

    fn write(&mut self, bytes: &[u8]) -> Result<usize, Refusal>
        ensures within { IfOk result (λ k. k ≤ length bytes.now) }
        ensures some { 0 < length bytes.now → IfOk result (λ k. 0 < k) }
        ensures bytes { WriteAppends None None result bytes.now }
        ensures counts { CountsAfterWrite
            (record { taken = None; faults = self.old.faults; shortages = 0 })
            (record { taken = None; faults = self.new.faults; shortages = 0 }) result }
        ensures refused { IfErr result (λ refusal. refusal ≡ Refusal.Failed) }
        ensures raised { IfErr result (λ _. self.new.faults ≡ next_count self.old.faults) }
        // The bytes that the writer took, if it states which it has.
        ensures taken { IfOk result (λ k. Appends
            (W.contents self.old.device) (W.contents self.new.device) (take k bytes.now)) }
    {
        self.sink.write(bytes)
    }
}
