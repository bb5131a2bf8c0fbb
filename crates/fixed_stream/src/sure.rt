//! A source in memory that never fails, and a sink in memory that fails only if memory runs out.

ghost use Rattle.std.specs.Prelude.{◌≡◌, ◌≤◌, ◌<◌, [], drop, length, IfErr, IfOk, IsErrOf, IsOk, Some};
ghost use Rattle.std.specs.Io.KnownBytes.{ReadConsumes, WriteAppends};
ghost use Rattle.fixed_stream.specs.Outside.{FaultsAfterRead, CountsAfterWrite, next_count};

use crate::copy::copy_front;
use crate::outside::{Failed, Refusal, Sink, Source};
use std::alloc::Global;

/// A source in memory that never fails. It returns the bytes that it was created with.
#[derive(Drop)]
pub struct SureSource {
    bytes: Vec<u8>,
    at: usize,
    ghost within: { at ≤ length bytes.items },
}

impl SureSource {
    /// Returns a source of these bytes.
    pub fn new(bytes: Vec<u8>) -> SureSource
        ensures { ⟦<SureSource as Source>⟧.state result
            ≡ record { left = Some bytes.items; faults = 0 } }
    {
        SureSource { bytes, at: 0 }
    }
}

impl Source for SureSource {
    ghost state = { λ s. record { left = Some (drop s.at s.bytes.items); faults = 0 } };

    fn read(&mut self, buf: &mut [u8]) -> Result<usize, Failed>
        ensures within { IfOk result (λ k. k ≤ length buf.new) }
        ensures bytes { ReadConsumes (⟦<SureSource as Source>⟧.state self.old).left
            (⟦<SureSource as Source>⟧.state self.new).left result buf.new }
        ensures faults { FaultsAfterRead 0 0 result }
        ensures sure { IsOk result }
    {
        let rest = &self.bytes[self.at..];
        let count = copy_front(rest, rest.len(), buf);
        self.at += count;
        Ok(count)
    }
}

/// A sink in memory that never returns `Refusal::Failed`. If it runs out of memory, its count of shortages rises.
#[derive(Drop)]
pub struct SureSink {
    bytes: Vec<u8>,
    shortages: u64,
}

impl SureSink {
    /// Returns a sink that has taken no bytes.
    pub fn new(alloc: Global) -> SureSink
        ensures { ⟦<SureSink as Sink>⟧.state result
            ≡ record { taken = Some []; faults = 0; shortages = 0 } }
    {
        SureSink {
            bytes: Vec::new(alloc),
            shortages: 0,
        }
    }

    /// Returns the bytes that the sink has taken.
    pub fn taken(&self) -> &[u8]
        ensures { (⟦<SureSink as Sink>⟧.state self.now).taken ≡ Some result.now }
    {
        &self.bytes
    }
}

impl Sink for SureSink {
    ghost state = { λ s. record { taken = Some s.bytes.items; faults = 0; shortages = s.shortages } };

    fn write(&mut self, bytes: &[u8]) -> Result<usize, Refusal>
        ensures within { IfOk result (λ k. k ≤ length bytes.now) }
        ensures some { 0 < length bytes.now → IfOk result (λ k. 0 < k) }
        ensures bytes { WriteAppends (⟦<SureSink as Sink>⟧.state self.old).taken
            (⟦<SureSink as Sink>⟧.state self.new).taken result bytes.now }
        ensures counts { CountsAfterWrite
            (⟦<SureSink as Sink>⟧.state self.old) (⟦<SureSink as Sink>⟧.state self.new) result }
        ensures sure { IsErrOf result Refusal.Failed → ⊥ }
        ensures short { IfErr result (λ _. (⟦<SureSink as Sink>⟧.state self.new).shortages
            ≡ next_count (⟦<SureSink as Sink>⟧.state self.old).shortages) }
    {
        match self.bytes.extend_from_slice(bytes) {
            Ok(()) => Ok(bytes.len()),
            Err(_) => {
                self.shortages = self.shortages.saturating_add(1);
                Err(Refusal::Memory)
            }
        }
    }
}
