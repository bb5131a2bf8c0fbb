//! Unsigned words whose calls are counted.

ghost use Rattle.std.specs.Prelude.{◌≡◌, ◌≤◌, ◌<◌, ◌^◌, ◌+ℤ◌, ◌-ℤ◌, ◌*ℤ◌, ◌≤ℤ◌, ◌↔◌, ℕ, ℤ, IsTrue, false, pos, unsigned_abs};
ghost use Rattle.fixed_word.specs.Format.{InRange, IsWidth, wrap};
ghost use Rattle.fixed_word.specs.Quotient.{floor_quotient};
ghost use Rattle.fixed_word.specs.Digit.{IsLeadingZeros, IsWordOf};
ghost use Rattle.fixed_word.specs.Ticks.{Ticks};
ghost use Rattle.std.specs.Prelude.{refl};
ghost use Rattle.std.proofs.Common.{inl, inr};

use crate::ledger::{Ledger, Steps};
use crate::word::Valued;

/// An unsigned word of n bits. Each call counts one step in a ledger.
pub trait Digits<L: Ledger>: Valued {
    /// The value 0.
    const ZERO: Self;

    ghost ZERO: { Self };

    /// The value 1.
    const ONE: Self;

    ghost ONE: { Self };

    /// Returns the sum, modulo `2^n`.
    fn add(self, other: Self, steps: &mut Steps<L>) -> Self
        ensures value { Self.value result
            ≡ wrap false Self.BITS (Self.value self +ℤ Self.value other) }
        ensures in_range { InRange false Self.BITS (Self.value self) }
        ensures ticks { Ticks L.LAST (L.count steps.old) (L.count steps.new) };

    /// Returns the difference, modulo `2^n`: plus `2^n` if it is negative.
    fn sub(self, other: Self, steps: &mut Steps<L>) -> Self
        ensures value { Self.value result
            ≡ wrap false Self.BITS (Self.value self -ℤ Self.value other) }
        ensures in_range { InRange false Self.BITS (Self.value self) }
        ensures ticks { Ticks L.LAST (L.count steps.old) (L.count steps.new) };

    /// Returns the value times `2^by`, modulo `2^n`. Precondition: `by` is below n.
    fn shl(self, by: u32, steps: &mut Steps<L>) -> Self
        requires { by < Self.BITS }
        ensures value { Self.value result ≡ wrap false Self.BITS (Self.value self *ℤ pos (2 ^ by)) }
        ensures in_range { InRange false Self.BITS (Self.value self) }
        ensures ticks { Ticks L.LAST (L.count steps.old) (L.count steps.new) };

    /// Returns the value over `2^by`, rounded down. Precondition: `by` is below n.
    fn shr(self, by: u32, steps: &mut Steps<L>) -> Self
        requires { by < Self.BITS }
        ensures value { Self.value result ≡ floor_quotient (Self.value self) (2 ^ by) }
        ensures in_range { InRange false Self.BITS (Self.value self) }
        ensures ticks { Ticks L.LAST (L.count steps.old) (L.count steps.new) };

    /// Returns whether the value is at most the other one.
    fn at_most(self, other: Self, steps: &mut Steps<L>) -> bool
        ensures value { IsTrue result ↔ (Self.value self ≤ℤ Self.value other) }
        ensures in_range { InRange false Self.BITS (Self.value self) }
        ensures ticks { Ticks L.LAST (L.count steps.old) (L.count steps.new) };

    /// Returns how many of the most significant bits are 0.
    fn leading_zeros(self, steps: &mut Steps<L>) -> u32
        ensures value { IsLeadingZeros Self.BITS (Self.value self) result }
        ensures in_range { InRange false Self.BITS (Self.value self) }
        ensures ticks { Ticks L.LAST (L.count steps.old) (L.count steps.new) };

    /// Returns the product, or `None` if it does not fit.
    fn times(self, other: Self, steps: &mut Steps<L>) -> Option<Self>
        ensures value { IsWordOf Self.value Self.BITS (Self.value self *ℤ Self.value other) result }
        ensures in_range { InRange false Self.BITS (Self.value self) }
        ensures ticks { Ticks L.LAST (L.count steps.old) (L.count steps.new) };

    /// Returns the word with that value, or `None` if it does not fit.
    fn literal(number: u64, steps: &mut Steps<L>) -> Option<Self>
        ensures value { IsWordOf Self.value Self.BITS (pos number) result }
        ensures ticks { Ticks L.LAST (L.count steps.old) (L.count steps.new) };

    ghost width_law: { IsWidth Self.BITS };

    ghost zero_law: { Self.value ZERO ≡ pos 0 };

    ghost one_law: { Self.value ONE ≡ pos 1 };

    ghost sign_law: { (x : Self) → Self.value x ≡ pos (unsigned_abs (Self.value x)) };
}

impl<L: Ledger> Digits<L> for u8 {
    const ZERO: u8 = 0;

    ghost ZERO = { 0 };

    const ONE: u8 = 1;

    ghost ONE = { 1 };

    fn add(self, other: u8, steps: &mut Steps<L>) -> u8 {
        steps.tick();
        self.wrapping_add(other)
    }

    fn sub(self, other: u8, steps: &mut Steps<L>) -> u8 {
        steps.tick();
        self.wrapping_sub(other)
    }

    fn shl(self, by: u32, steps: &mut Steps<L>) -> u8 {
        steps.tick();
        self << by
    }

    fn shr(self, by: u32, steps: &mut Steps<L>) -> u8 {
        steps.tick();
        self >> by
    }

    fn at_most(self, other: u8, steps: &mut Steps<L>) -> bool {
        steps.tick();
        self <= other
    }

    fn leading_zeros(self, steps: &mut Steps<L>) -> u32 {
        steps.tick();
        self.leading_zeros()
    }

    fn times(self, other: u8, steps: &mut Steps<L>) -> Option<u8> {
        steps.tick();
        self.checked_mul(other)
    }

    fn literal(number: u64, steps: &mut Steps<L>) -> Option<u8> {
        steps.tick();
        if number <= u8::MAX as u64 {
            Some(number as u8)
        } else {
            None
        }
    }

    ghost width_law = { inl refl };

    ghost zero_law = { refl };

    ghost one_law = { refl };

    ghost sign_law = { λ _. refl };
}

impl<L: Ledger> Digits<L> for u16 {
    const ZERO: u16 = 0;

    ghost ZERO = { 0 };

    const ONE: u16 = 1;

    ghost ONE = { 1 };

    fn add(self, other: u16, steps: &mut Steps<L>) -> u16 {
        steps.tick();
        self.wrapping_add(other)
    }

    fn sub(self, other: u16, steps: &mut Steps<L>) -> u16 {
        steps.tick();
        self.wrapping_sub(other)
    }

    fn shl(self, by: u32, steps: &mut Steps<L>) -> u16 {
        steps.tick();
        self << by
    }

    fn shr(self, by: u32, steps: &mut Steps<L>) -> u16 {
        steps.tick();
        self >> by
    }

    fn at_most(self, other: u16, steps: &mut Steps<L>) -> bool {
        steps.tick();
        self <= other
    }

    fn leading_zeros(self, steps: &mut Steps<L>) -> u32 {
        steps.tick();
        self.leading_zeros()
    }

    fn times(self, other: u16, steps: &mut Steps<L>) -> Option<u16> {
        steps.tick();
        self.checked_mul(other)
    }

    fn literal(number: u64, steps: &mut Steps<L>) -> Option<u16> {
        steps.tick();
        if number <= u16::MAX as u64 {
            Some(number as u16)
        } else {
            None
        }
    }

    ghost width_law = { inr (inl refl) };

    ghost zero_law = { refl };

    ghost one_law = { refl };

    ghost sign_law = { λ _. refl };
}

impl<L: Ledger> Digits<L> for u32 {
    const ZERO: u32 = 0;

    ghost ZERO = { 0 };

    const ONE: u32 = 1;

    ghost ONE = { 1 };

    fn add(self, other: u32, steps: &mut Steps<L>) -> u32 {
        steps.tick();
        self.wrapping_add(other)
    }

    fn sub(self, other: u32, steps: &mut Steps<L>) -> u32 {
        steps.tick();
        self.wrapping_sub(other)
    }

    fn shl(self, by: u32, steps: &mut Steps<L>) -> u32 {
        steps.tick();
        self << by
    }

    fn shr(self, by: u32, steps: &mut Steps<L>) -> u32 {
        steps.tick();
        self >> by
    }

    fn at_most(self, other: u32, steps: &mut Steps<L>) -> bool {
        steps.tick();
        self <= other
    }

    fn leading_zeros(self, steps: &mut Steps<L>) -> u32 {
        steps.tick();
        self.leading_zeros()
    }

    fn times(self, other: u32, steps: &mut Steps<L>) -> Option<u32> {
        steps.tick();
        self.checked_mul(other)
    }

    fn literal(number: u64, steps: &mut Steps<L>) -> Option<u32> {
        steps.tick();
        if number <= u32::MAX as u64 {
            Some(number as u32)
        } else {
            None
        }
    }

    ghost width_law = { inr (inr (inl refl)) };

    ghost zero_law = { refl };

    ghost one_law = { refl };

    ghost sign_law = { λ _. refl };
}

impl<L: Ledger> Digits<L> for u64 {
    const ZERO: u64 = 0;

    ghost ZERO = { 0 };

    const ONE: u64 = 1;

    ghost ONE = { 1 };

    fn add(self, other: u64, steps: &mut Steps<L>) -> u64 {
        steps.tick();
        self.wrapping_add(other)
    }

    fn sub(self, other: u64, steps: &mut Steps<L>) -> u64 {
        steps.tick();
        self.wrapping_sub(other)
    }

    fn shl(self, by: u32, steps: &mut Steps<L>) -> u64 {
        steps.tick();
        self << by
    }

    fn shr(self, by: u32, steps: &mut Steps<L>) -> u64 {
        steps.tick();
        self >> by
    }

    fn at_most(self, other: u64, steps: &mut Steps<L>) -> bool {
        steps.tick();
        self <= other
    }

    fn leading_zeros(self, steps: &mut Steps<L>) -> u32 {
        steps.tick();
        self.leading_zeros()
    }

    fn times(self, other: u64, steps: &mut Steps<L>) -> Option<u64> {
        steps.tick();
        self.checked_mul(other)
    }

    fn literal(number: u64, steps: &mut Steps<L>) -> Option<u64> {
        steps.tick();
        Some(number)
    }

    ghost width_law = { inr (inr (inr refl)) };

    ghost zero_law = { refl };

    ghost one_law = { refl };

    ghost sign_law = { λ _. refl };
}
