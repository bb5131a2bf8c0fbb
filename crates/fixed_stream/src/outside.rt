//! What a program reads from and writes to.

ghost use Rattle.std.specs.Prelude.{◌≤◌, ◌<◌, length, IfOk, List, ℕ, Result};
ghost use Rattle.std.specs.Io.KnownBytes.{ReadConsumes, WriteAppends};
ghost use Rattle.fixed_stream.specs.Outside.{SinkState, SourceState, FaultsAfterRead, CountsAfterWrite};
ghost use Rattle.fixed_stream.specs.declared.outside.Failed.{Failed};
ghost use Rattle.fixed_stream.specs.declared.outside.Refusal.{Refusal};

/// The error of a read that failed. It consumed nothing.
#[derive(Clone, Copy, Debug, PartialEq, Eq)]
pub struct Failed;

/// Why a write was refused. A refused write takes nothing.
#[derive(Clone, Copy, Debug, PartialEq, Eq)]
pub enum Refusal {
    /// The sink failed.
    Failed,
    /// The sink ran out of memory.
    Memory,
}

/// A source of bytes, such as a script.
pub trait Source {
    // The bytes that remain, if the source states them, and a count of its faults.
    ghost state: { Self → SourceState };

    // What a read may do, by the state before, the buffer's length, the result and the state after. If the source does
    // not define it, anything.
    ghost read_gives: { Self → ℕ → Result ℕ Failed → Self → Type 0 } = { λ _ _ _ _. Unit {0} };

    /// Moves some of the remaining bytes to the front of the buffer, and returns how many. `Ok(0)` on a buffer that is
    /// not empty is the end of input. Fails only if the count of faults rises or is saturated, and then consumes
    /// nothing.
    fn read(&mut self, buf: &mut [u8]) -> Result<usize, Failed>
        ensures within { IfOk result (λ k. k ≤ length buf.new) }
        ensures bytes { ReadConsumes (state self.old).left (state self.new).left result buf.new }
        ensures faults { FaultsAfterRead (state self.old).faults (state self.new).faults result }
        ensures gives { read_gives self.old (length buf.old) result self.new };
}

/// A sink of bytes, such as the output, or the line that reports an error.
pub trait Sink {
    // The bytes that were taken, if the sink states them, and its counts of faults and of shortages of memory.
    ghost state: { Self → SinkState };

    // What a write may do, by the state before, the bytes, the result and the state after. If the sink does not define
    // it, anything.
    ghost write_gives: { Self → List ℕ → Result ℕ Refusal → Self → Type 0 } = { λ _ _ _ _. Unit {0} };

    /// Takes some of the bytes, from the first one on, and returns how many: at least one, unless there are none. Fails
    /// with `Refusal::Failed` only if the count of faults rises or is saturated, and with `Refusal::Memory` only if
    /// that of shortages rises or is saturated. A refused write takes nothing.
    fn write(&mut self, bytes: &[u8]) -> Result<usize, Refusal>
        ensures within { IfOk result (λ k. k ≤ length bytes.now) }
        ensures some { 0 < length bytes.now → IfOk result (λ k. 0 < k) }
        ensures bytes { WriteAppends
            (state self.old).taken (state self.new).taken result bytes.now }
        ensures counts { CountsAfterWrite (state self.old) (state self.new) result }
        ensures gives { write_gives self.old bytes.now result self.new };
}
