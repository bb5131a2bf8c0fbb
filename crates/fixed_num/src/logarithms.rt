//! Logarithms of numbers, rounded down to integers.

ghost use Rattle.std.specs.Prelude.{◌≡◌, ◌⊎◌, ◌+◌, ◌*◌, ◌<◌, ◌≤◌, ◌↔◌, ◌<ℤ◌, ◌≤ℤ◌, pos, nat_abs, IfSome, IsNone, IsTrue};
ghost use Rattle.fixed_word.specs.Ticks.{RisesAtMost};
ghost use Rattle.fixed_logs.specs.Logarithm.{IsLog, log2};

use crate::format::Fixed;
use crate::log_argument::{LogArgument, log_argument_of};
use fixed_logs::{Base, frac_log10_part, frac_part, int_log10_part, int_part};
use fixed_word::{Digits, Ledger, RawWord, Silent, Steps, Word};

/// Returns the logarithm of a positive number, rounded down.
fn log_of<L: Ledger, D: Digits<L>>(val: D, frac: u32, base: Base, steps: &mut Steps<L>) -> i32
    requires above_zero { 1 ≤ nat_abs (D.value val) }
    requires fraction { frac ≤ D.BITS }
    requires base { 2 ≤ base }
    ensures value { IsLog (nat_abs (D.value val)) frac base result }
    ensures ticks { RisesAtMost (12 * log2 D.BITS + 16) (L.count steps.old) (L.count steps.new) }
{
    match log_argument_of(val, frac, steps) {
        LogArgument::Whole(whole) => int_part(whole, base, steps),
        LogArgument::Raised(raised) => frac_part(raised, base, steps),
    }
}

/// Returns the logarithm of a positive number to base 10, rounded down.
fn log10_of<L: Ledger, D: Digits<L>>(val: D, frac: u32, steps: &mut Steps<L>) -> i32
    requires above_zero { 1 ≤ nat_abs (D.value val) }
    requires fraction { frac ≤ D.BITS }
    ensures { IsLog (nat_abs (D.value val)) frac 10 result }
{
    match log_argument_of(val, frac, steps) {
        LogArgument::Whole(whole) => int_log10_part(whole, steps),
        LogArgument::Raised(raised) => frac_log10_part(raised, steps),
    }
}

/// Returns whether a word is positive.
fn is_above_zero<T: Word>(bits: T) -> bool
    ensures { IsTrue result ↔ (pos 0 <ℤ T.value bits) }
{
    !bits.is_below_zero() && bits != T::ZERO
}

/// Returns a positive word as an unsigned word.
fn above_zero<T: Word>(bits: T) -> T::Unsigned
    requires { pos 0 <ℤ T.value bits }
    ensures same { T.Unsigned.value result ≡ T.value bits }
    ensures at_least_one { 1 ≤ nat_abs (T.value bits) }
    ensures width { T.Unsigned.BITS ≡ T.BITS }
{
    bits.to_unsigned()
}

impl<T: Word, const F: u32> Fixed<T, F> {
    /// Returns the logarithm to base 2, rounded down: the integer k with `2^k <= bits / 2^F < 2^(k+1)`.
    /// Preconditions: the number is positive, and F is at most the width.
    pub fn int_log2(self) -> i32
        requires above_zero { pos 0 <ℤ T.value self.bits }
        requires fraction { F ≤ T.BITS }
        ensures { IsLog (nat_abs (T.value self.bits)) F 2 result }
    {
        self.int_log(2)
    }

    /// Returns the logarithm to base 10, rounded down: the integer k with `10^k <= bits / 2^F < 10^(k+1)`.
    /// Preconditions: the number is positive, and F is at most the width.
    pub fn int_log10(self) -> i32
        requires above_zero { pos 0 <ℤ T.value self.bits }
        requires fraction { F ≤ T.BITS }
        ensures { IsLog (nat_abs (T.value self.bits)) F 10 result }
    {
        log10_of(above_zero(self.bits), F, &mut Steps::new(Silent::new()))
    }

    /// Returns the logarithm to a base, rounded down: the integer k with `base^k <= bits / 2^F < base^(k+1)`.
    /// Preconditions: the number is positive, F is at most the width, and the base is at least 2.
    pub fn int_log(self, base: u32) -> i32
        requires above_zero { pos 0 <ℤ T.value self.bits }
        requires fraction { F ≤ T.BITS }
        requires base { 2 ≤ base }
        ensures { IsLog (nat_abs (T.value self.bits)) F base result }
    {
        self.int_log_counted(base, &mut Steps::new(Silent::new()))
    }

    /// Returns the same as `int_log`, and counts its steps. Preconditions: the number is positive, F is at most the
    /// width n, and the base is at least 2. The count of steps rises by at most `12 log2(n) + 16`. (`fixed` does not
    /// have this call.)
    pub fn int_log_counted<L: Ledger>(self, base: u32, steps: &mut Steps<L>) -> i32
    where
        T::Unsigned: Digits<L>,
        requires above_zero { pos 0 <ℤ T.value self.bits }
        requires fraction { F ≤ T.BITS }
        requires base { 2 ≤ base }
        ensures value { IsLog (nat_abs (T.value self.bits)) F base result }
        ensures ticks { RisesAtMost
            (12 * log2 T.BITS + 16) (L.count steps.old) (L.count steps.new) }
    {
        match Base::new(base) {
            Some(base) => log_of(above_zero(self.bits), F, base, steps),
            None => unreachable!(),
        }
    }

    /// Returns the logarithm to base 2, rounded down, or `None` if the number is not positive. Precondition: F is at
    /// most the width.
    pub fn checked_int_log2(self) -> Option<i32>
        requires { F ≤ T.BITS }
        ensures none { IsNone result ↔ (T.value self.bits ≤ℤ pos 0) }
        ensures value { IfSome result (λ k. IsLog (nat_abs (T.value self.bits)) F 2 k) }
    {
        if is_above_zero(self.bits) {
            Some(self.int_log2())
        } else {
            None
        }
    }

    /// Returns the logarithm to base 10, rounded down, or `None` if the number is not positive. Precondition: F is at
    /// most the width.
    pub fn checked_int_log10(self) -> Option<i32>
        requires { F ≤ T.BITS }
        ensures none { IsNone result ↔ (T.value self.bits ≤ℤ pos 0) }
        ensures value { IfSome result (λ k. IsLog (nat_abs (T.value self.bits)) F 10 k) }
    {
        if is_above_zero(self.bits) {
            Some(self.int_log10())
        } else {
            None
        }
    }

    /// Returns the logarithm to a base, rounded down, or `None` if the number is not positive or the base is below 2.
    /// Precondition: F is at most the width.
    pub fn checked_int_log(self, base: u32) -> Option<i32>
        requires { F ≤ T.BITS }
        ensures none { IsNone result ↔ ((T.value self.bits ≤ℤ pos 0) ⊎ (base < 2)) }
        ensures value { IfSome result (λ k. IsLog (nat_abs (T.value self.bits)) F base k) }
    {
        if is_above_zero(self.bits) && base >= 2 {
            Some(self.int_log(base))
        } else {
            None
        }
    }
}
