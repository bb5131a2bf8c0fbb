//! The `checked_` calls of logarithms and powers. The Rust crate `fixed` does not have them.

ghost use Rattle.std.specs.Prelude.{◌≡◌, ◌≤◌, ◌≤ℤ◌, ◌<ℤ◌, ℤ, None, Some, option_map, pos};
ghost use Rattle.fixed_word.specs.Policies.{checked};
ghost use Rattle.fixed_natural.specs.Exps.{IsExp};
ghost use Rattle.fixed_natural.specs.Logs.{IsLn, IsLog10, log_room};
ghost use Rattle.fixed_natural.specs.Pows.{IsPow};

use crate::exponentials::exp_of;
use crate::logarithms::{ln_of, log10_of};
use crate::numbers::is_above_zero;
use crate::powers::pow_of;
use fixed_num::{Fixed, Held, Number, checked_number};
use fixed_word::{RawWord, Word};

/// The `checked_` calls of logarithms and powers. If the result does not fit, they return `None`. Operands and results
/// are in units of `2^-F`. Precondition of each call: F is at most the width.
pub trait CheckedNatural: Number {
    /// Returns the natural logarithm, rounded down, or `None` if the number is not above 0 or the result does not fit.
    ///
    /// For the result r and the exact logarithm l in units, `r - 2^-k <= l < r + 1`, where k is 24 on words of up to 32
    /// bits and 32 on words of 64 bits. So r is the logarithm rounded down, or one unit more if l is at most `2^-k`
    /// below a whole number. The logarithm of 1 is exactly 0.
    fn checked_ln(self) -> Option<Self>
        requires { Self.FRACTION ≤ Self.BITS }
        ensures none { Self.number self ≤ℤ pos 0 → result ≡ None }
        ensures ln { pos 0 <ℤ Self.number self
            → (r : ℤ) × IsLn (log_room Self.BITS) (Self.number self) Self.FRACTION r
            × (option_map Self.number result ≡ checked Self.SIGNED Self.BITS (Some r)) };

    /// Returns the logarithm to the base 10, rounded down, or `None` if the number is not above 0 or the result does
    /// not fit.
    ///
    /// For the result r and the exact logarithm l in units, `r - 2^-k <= l < r + 1`, where k is 24 on words of up to 32
    /// bits and 32 on words of 64 bits. So r is the logarithm rounded down, or one unit more if l is at most `2^-k`
    /// below a whole number. The logarithm of a power of 10 is exact.
    fn checked_log10(self) -> Option<Self>
        requires { Self.FRACTION ≤ Self.BITS }
        ensures none { Self.number self ≤ℤ pos 0 → result ≡ None }
        ensures log10 { pos 0 <ℤ Self.number self
            → (r : ℤ) × IsLog10 (log_room Self.BITS) (Self.number self) Self.FRACTION r
            × (option_map Self.number result ≡ checked Self.SIGNED Self.BITS (Some r)) };

    /// Returns e to the power of the number, rounded down, or `None` if it does not fit.
    ///
    /// For the result r and the exact power p in units, `r <= p 2^(2^-61)` and `p < r + 1`. On words of up to 32 bits,
    /// r is the power rounded down, or one unit more if p is less than `2^-29` below a whole number. On words of 64
    /// bits, r is at most 6 units more than the power rounded down. e to the power of 0 is exactly 1.
    fn checked_exp(self) -> Option<Self>
        requires { Self.FRACTION ≤ Self.BITS }
        ensures { (r : ℤ) × IsExp (Self.number self) Self.FRACTION r
            × (option_map Self.number result ≡ checked Self.SIGNED Self.BITS (Some r)) };

    /// Returns the number to the power of `exponent`, rounded down, or `None` if the number is not above 0 or the
    /// result does not fit.
    ///
    /// For the result r and the exact power p in units, `r <= p 2^(2^-55)` and `p < r + 1`. On words of up to 32 bits,
    /// r is the power rounded down, or one unit more if p is less than `2^-23` below a whole number. On words of 64
    /// bits, r is at most 355 units more than the power rounded down. A power that is a whole number of up to `2^54`
    /// units is exact.
    fn checked_pow(self, exponent: Self) -> Option<Self>
        requires { Self.FRACTION ≤ Self.BITS }
        ensures none { Self.number self ≤ℤ pos 0 → result ≡ None }
        ensures pow { pos 0 <ℤ Self.number self
            → (r : ℤ) × IsPow (Self.number self) (Self.number exponent) Self.FRACTION r
            × (option_map Self.number result ≡ checked Self.SIGNED Self.BITS (Some r)) };
}

impl<T: Word, const F: u32> CheckedNatural for Fixed<T, F> {
    fn checked_ln(self) -> Option<Self> {
        if !is_above_zero(self.bits) {
            return None;
        }
        checked_number(ln_of(self.bits, F))
    }

    fn checked_log10(self) -> Option<Self> {
        if !is_above_zero(self.bits) {
            return None;
        }
        checked_number(log10_of(self.bits, F))
    }

    fn checked_exp(self) -> Option<Self> {
        checked_number(exp_of(self.bits, F))
    }

    fn checked_pow(self, exponent: Self) -> Option<Self> {
        if !is_above_zero(self.bits) {
            return None;
        }
        checked_number(pow_of(self.bits, exponent.bits, F))
    }
}
