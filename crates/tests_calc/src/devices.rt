//! A source and a sink that fail from some call on, and a source without an end. They do not say
//! which bytes are left or taken.

ghost use Rattle.std.specs.Prelude.{◌≡◌, None};

use fixed_calc::{Failed, Refusal, Sink, Source};

/// A source or a sink of one byte a call, which fails at each call after the first ones. As a source it
/// gives the letter i.
#[derive(Drop)]
pub struct Failing {
    calls: u64,
    pub taken: u64,
    pub faults: u64,
}

impl Failing {
    /// One that fails after so many calls.
    pub fn after(calls: u64) -> Failing {
        Failing {
            calls,
            taken: 0,
            faults: 0,
        }
    }
}

impl Source for Failing {
    ghost state = { λ s. record { left = None; faults = s.faults } };

    fn read(&mut self, buf: &mut [u8]) -> Result<usize, Failed> {
        if self.calls == 0 {
            self.faults = self.faults.saturating_add(1);
            return Err(Failed);
        }
        self.calls -= 1;
        if buf.is_empty() {
            return Ok(0);
        }
        buf[0] = b'i';
        Ok(1)
    }
}

impl Sink for Failing {
    ghost state = { λ s. record { taken = None; faults = s.faults; shortages = 0 } };

    fn write(&mut self, bytes: &[u8]) -> Result<usize, Refusal> {
        if self.calls == 0 {
            self.faults = self.faults.saturating_add(1);
            return Err(Refusal::Failed);
        }
        self.calls -= 1;
        if bytes.is_empty() {
            return Ok(0);
        }
        self.taken = self.taken.saturating_add(1);
        Ok(1)
    }
}

/// A source that fills each buffer and has no end. It never fails.
#[derive(Drop)]
pub struct Endless;

impl Source for Endless {
    ghost state = { λ _. record { left = None; faults = 0 } };

    fn read(&mut self, buf: &mut [u8]) -> Result<usize, Failed> {
        buf.fill(b'a');
        Ok(buf.len())
    }
}
