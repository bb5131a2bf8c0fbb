//! A source and a sink in memory that may fail, for tests of how a caller handles failing calls.
//!
//! Calls are numbered from 1. A call fails if its number is listed, and then increments the count of faults. The number
//! of calls and the count of faults saturate at `u64::MAX`. Other calls move as many bytes as they can, at most `most`,
//! unless a write runs out of memory.

ghost use Rattle.std.specs.Prelude.{◌≡◌, ◌≤◌, ◌<◌, [], length, min, IfOk, IsErr, IsErrOf, IsTrue, ◌↔◌, OnErr, OnOk, Some};
ghost use Rattle.std.specs.Io.KnownBytes.{ReadConsumes, WriteAppends};
ghost use Rattle.fixed_stream.specs.Memory.{MemoryReadGives, MemoryWriteGives, is_listed};
ghost use Rattle.fixed_stream.specs.Outside.{SinkState, SourceState, FaultsAfterRead, CountsAfterWrite, next_count};

use crate::copy::copy_front;
use crate::outside::{Failed, Refusal, Sink, Source};
use std::alloc::Global;
use std::marker::Model;

/// A source in memory that may fail. It returns the bytes that it was created with.
#[derive(Drop)]
pub struct MemorySource {
    bytes: Vec<u8>,
    at: usize,
    most: usize,
    failing: Vec<u64>,
    calls: u64,
    faults: u64,
}

impl Model for MemorySource {
    ghost use Rattle.std.specs.Prelude.{◌≤◌, drop, length};
    ghost use Rattle.fixed_stream.specs.Memory.{MemoryInput};

    ghost Value = { MemoryInput };

    ghost view = { λ s. record { left = drop s.at s.bytes.items; most = s.most; failing = s.failing.items; calls = s.calls; faults = s.faults } };

    ghost invariant = { λ s. (s.at ≤ length s.bytes.items) × (1 ≤ s.most) };
}

impl MemorySource {
    /// Returns a source of these bytes. Each read returns at most `most` of them, and fails if its number is listed in
    /// `failing`. Precondition: `most` is at least 1.
    pub fn new(bytes: Vec<u8>, most: usize, failing: Vec<u64>) -> MemorySource
        requires { 1 ≤ most }
        ensures { result ≡ record { left = bytes.items; most = most; failing = failing.items; calls = 0; faults = 0 } }
    {
        MemorySource {
            bytes,
            at: 0,
            most,
            failing,
            calls: 0,
            faults: 0,
        }
    }
}

impl Source for MemorySource {
    ghost state = { λ s. record { left = Some s.left; faults = s.faults } };

    ghost read_gives = { MemoryReadGives };

    fn read(&mut self, buf: &mut [u8]) -> Result<usize, Failed>
        ensures within { IfOk result (λ k. k ≤ length buf.new) }
        ensures bytes { ReadConsumes (Some self.old.left) (Some self.new.left) result buf.new }
        ensures faults { FaultsAfterRead self.old.faults self.new.faults result }
        ensures gives { MemoryReadGives self.old (length buf.old) result self.new }
        ensures numbered { self.new.calls ≡ next_count self.old.calls }
        ensures failed { IsErr result ↔ IsTrue (is_listed self.old.failing self.new.calls) }
        ensures raised { OnErr result (self.new.faults ≡ next_count self.old.faults) }
        ensures count { IfOk result (λ k. k
            ≡ min self.old.most (min (length buf.new) (length self.old.left))) }
        ensures most { self.new.most ≡ self.old.most }
        ensures failing { self.new.failing ≡ self.old.failing }
    {
        self.calls = self.calls.saturating_add(1);
        if self.failing.contains(&self.calls) {
            self.faults = self.faults.saturating_add(1);
            return Err(Failed);
        }
        let count = copy_front(&self.bytes[self.at..], self.most, buf);
        self.at += count;
        Ok(count)
    }
}

/// A sink in memory that may fail, or run out of memory.
#[derive(Drop)]
pub struct MemorySink {
    bytes: Vec<u8>,
    most: usize,
    failing: Vec<u64>,
    calls: u64,
    faults: u64,
    shortages: u64,
}

impl Model for MemorySink {
    ghost use Rattle.std.specs.Prelude.{◌≤◌};
    ghost use Rattle.fixed_stream.specs.Memory.{MemoryOutput};

    ghost Value = { MemoryOutput };

    ghost view = { λ s. record { taken = s.bytes.items; most = s.most; failing = s.failing.items; calls = s.calls; faults = s.faults; shortages = s.shortages } };

    ghost invariant = { λ s. 1 ≤ s.most };
}

impl MemorySink {
    /// Returns a sink that has taken no bytes. Each write takes at most `most` bytes, and fails if its number is listed
    /// in `failing`. Precondition: `most` is at least 1.
    pub fn new(alloc: Global, most: usize, failing: Vec<u64>) -> MemorySink
        requires { 1 ≤ most }
        ensures { result ≡ record { taken = []; most = most; failing = failing.items; calls = 0; faults = 0; shortages = 0 } }
    {
        MemorySink {
            bytes: Vec::new(alloc),
            most,
            failing,
            calls: 0,
            faults: 0,
            shortages: 0,
        }
    }

    /// Returns the bytes that the sink has taken.
    pub fn taken(&self) -> &[u8]
        ensures { result.now ≡ self.now.taken }
    {
        &self.bytes
    }
}

impl Sink for MemorySink {
    ghost state = { λ s. record { taken = Some s.taken; faults = s.faults; shortages = s.shortages } };

    ghost write_gives = { MemoryWriteGives };

    fn write(&mut self, bytes: &[u8]) -> Result<usize, Refusal>
        ensures within { IfOk result (λ k. k ≤ length bytes.now) }
        ensures some { 0 < length bytes.now → IfOk result (λ k. 0 < k) }
        ensures bytes { WriteAppends (Some self.old.taken) (Some self.new.taken) result bytes.now }
        ensures counts { CountsAfterWrite (⟦<MemorySink as Sink>⟧.state self.old)
            (⟦<MemorySink as Sink>⟧.state self.new) result }
        ensures gives { MemoryWriteGives self.old bytes.now result self.new }
        ensures numbered { self.new.calls ≡ next_count self.old.calls }
        ensures failed { IsErrOf result Refusal.Failed
            ↔ IsTrue (is_listed self.old.failing self.new.calls) }
        ensures raised { IsErrOf result Refusal.Failed
            → self.new.faults ≡ next_count self.old.faults }
        ensures short { IsErrOf result Refusal.Memory
            → self.new.shortages ≡ next_count self.old.shortages }
        ensures no_other_fault { IsErrOf result Refusal.Memory → self.new.faults ≡ self.old.faults }
        ensures no_other_shortage { IsErrOf result Refusal.Failed
            → self.new.shortages ≡ self.old.shortages }
        ensures count { IfOk result (λ k. k ≡ min self.old.most (length bytes.now)) }
        ensures most { self.new.most ≡ self.old.most }
        ensures failing { self.new.failing ≡ self.old.failing }
    {
        self.calls = self.calls.saturating_add(1);
        if self.failing.contains(&self.calls) {
            self.faults = self.faults.saturating_add(1);
            return Err(Refusal::Failed);
        }
        let count = self.most.min(bytes.len());
        match self.bytes.extend_from_slice(&bytes[..count]) {
            Ok(()) => Ok(count),
            Err(_) => {
                self.shortages = self.shortages.saturating_add(1);
                Err(Refusal::Memory)
            }
        }
    }
}
