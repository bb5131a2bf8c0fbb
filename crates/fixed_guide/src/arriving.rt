//! A source that a user of the library implements: a script arrives a few bytes at a time.

ghost use Rattle.std.specs.Prelude.{◌≡◌, ◌≤◌, IfOk, Some, length};
ghost use Rattle.std.specs.Io.KnownBytes.{ReadConsumes};
ghost use Rattle.fixed_calc.specs.Outside.{FaultsAfterRead};

use fixed_calc::{Failed, Source};

/// A source from which each read takes at most 16 bytes of a script. No read fails.
#[derive(Drop)]
pub struct Arriving<'a> {
    /// The bytes that were not read yet.
    pub left: &'a [u8],
}

impl<'a> Source for Arriving<'a> {
    ghost state = { λ s. record { left = Some s.left.now; faults = 0 } };

    fn read(&mut self, buf: &mut [u8]) -> Result<usize, Failed>
        ensures within { IfOk result (λ k. k ≤ length buf.new) }
        ensures bytes { ReadConsumes (Some self.old.left.now) (Some self.new.left.now) result buf.new }
        ensures faults { FaultsAfterRead 0 0 result }
    {
        let count = buf.len().min(self.left.len()).min(16);
        let (arrived, left) = self.left.split_at(count);
        buf[..count].copy_from_slice(arrived);
        self.left = left;
        Ok(count)
    }
}
