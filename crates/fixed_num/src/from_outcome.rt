//! The number that each policy makes of an outcome. The Rust crate `fixed` does not have these calls.

ghost use Rattle.std.specs.Prelude.{◌≡◌, ℤ, Some, option_map};
ghost use Rattle.fixed_word.specs.Format.{InRange};
ghost use Rattle.fixed_word.specs.Policies.{checked, overflowing, saturating, wrapping};
ghost use Rattle.fixed_word.specs.Standing.{StandsFor};

use crate::format::Fixed;
use fixed_word::{Outcome, Word, checked_of, overflowing_of, saturating_of, wrapping_of};

/// Returns the number that the outcome stands for. Precondition: it fits. Strict calls and operators call it.
/// (`fixed` does not have this call.)
pub fn exact_number<T: Word, const F: u32>(outcome: Outcome<T>) -> Fixed<T, F>
    ensures { (x : ℤ) → StandsFor T.value T.SIGNED T.BITS x outcome → InRange T.SIGNED T.BITS x
        → T.value result.bits ≡ x }
{
    Fixed {
        bits: outcome.wrapped,
    }
}

/// Returns the number that the outcome stands for, or `None` if it does not fit. (`fixed` does not have this call.)
#[inline]
pub fn checked_number<T: Word, const F: u32>(outcome: Outcome<T>) -> Option<Fixed<T, F>>
    ensures { (x : ℤ) → StandsFor T.value T.SIGNED T.BITS x outcome
        → option_map (λ r. T.value r.bits) result ≡ checked T.SIGNED T.BITS (Some x) }
{
    match checked_of(outcome) {
        Some(bits) => Some(Fixed { bits }),
        None => None,
    }
}

/// Returns the number nearest to the one that the outcome stands for. (`fixed` does not have this call.)
#[inline]
pub fn saturating_number<T: Word, const F: u32>(outcome: Outcome<T>) -> Fixed<T, F>
    ensures { (x : ℤ) → StandsFor T.value T.SIGNED T.BITS x outcome
        → Some (T.value result.bits) ≡ saturating T.SIGNED T.BITS (Some x) }
{
    Fixed {
        bits: saturating_of(outcome),
    }
}

/// Returns the number that the outcome stands for, wrapped to the word. (`fixed` does not have this call.)
#[inline]
pub fn wrapping_number<T: Word, const F: u32>(outcome: Outcome<T>) -> Fixed<T, F>
    ensures { (x : ℤ) → StandsFor T.value T.SIGNED T.BITS x outcome
        → Some (T.value result.bits) ≡ wrapping T.SIGNED T.BITS (Some x) }
{
    Fixed {
        bits: wrapping_of(outcome),
    }
}

/// Returns the wrapped number, and whether the exact one does not fit. (`fixed` does not have this call.)
#[inline]
pub fn overflowing_number<T: Word, const F: u32>(outcome: Outcome<T>) -> (Fixed<T, F>, bool)
    ensures { (x : ℤ) → StandsFor T.value T.SIGNED T.BITS x outcome
        → Some (T.value result.0.bits, result.1) ≡ overflowing T.SIGNED T.BITS (Some x) }
{
    let (bits, overflows) = overflowing_of(outcome);
    (Fixed { bits }, overflows)
}
