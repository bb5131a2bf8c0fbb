//! Bases of logarithms.

ghost use Rattle.std.specs.Prelude.{◌≡◌, ◌<◌, ◌≤◌, ℕ, MatchOption};

use std::marker::Model;

/// A base of at least 2. Contracts see it as the number.
#[derive(Clone, Copy, PartialEq, Eq, Hash, Debug)]
pub struct Base {
    base: u32,
}

impl Model for Base {
    ghost Value = { ℕ };

    ghost view = { λ b. b.base };

    ghost inverse = { λ n. record { base = n } };

    ghost invariant = { λ b. 2 ≤ b.base };
}

impl Base {
    /// Base 10.
    pub(crate) const TEN: Base = Base { base: 10 };

    /// Returns the base, or `None` if it is below 2.
    pub fn new(base: u32) -> Option<Base>
        ensures { MatchOption result (base < 2) (λ b. (2 ≤ base) × (b ≡ base)) }
    {
        if base < 2 { None } else { Some(Base { base }) }
    }

    /// Returns the base as a number.
    pub fn get(self) -> u32
        ensures value { result ≡ self }
        ensures at_least_two { 2 ≤ self }
    {
        self.base
    }
}
