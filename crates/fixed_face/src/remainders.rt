//! Remainders and multiples. Operands and results are bits, in units of `2^-frac`.
#![tactic(auto, unfolding(crate::specs::Calls::IsResultOf, crate::specs::Answers::at_fraction, crate::specs::Answers::row_or))]

ghost use Rattle.std.specs.Prelude.{◌≡◌};
ghost use Rattle.fixed_word.specs.Quotient.{euclidean_remainder};
ghost use Rattle.fixed_kernel.specs.Rows.{by_divisor, exact_next_multiple_of, exact_rem, units};
ghost use Rattle.fixed_face.specs.declared.answer.Code.TheVariants.{ZeroDivisor};
ghost use Rattle.fixed_face.specs.Answers.{at_fraction, row_or};
ghost use Rattle.fixed_face.specs.Calls.{IsResultOf};

use crate::answer::Code;
use crate::quotients::is_zero;
use fixed_kernel::{next_multiple_of_of, rem_euclid_int_of, rem_euclid_of, rem_int_of, rem_of};
use fixed_word::{Outcome, Word};

/// Returns `a - b q`, where q is the quotient of `a` and `b`, rounded toward zero. Fails with `ZeroDivisor` if `b` is
/// 0.
#[inline]
pub(crate) fn rem<T: Word>(a: T, b: T) -> Result<Outcome<T>, Code>
    ensures { IsResultOf T.value T.SIGNED T.BITS
        (row_or ZeroDivisor (by_divisor (T.value b) (exact_rem (T.value a) (T.value b)))) result }
{
    if is_zero(b) {
        return Err(Code::ZeroDivisor);
    }
    Ok(rem_of(a, b))
}

/// Returns `a - d q` for `d = k 2^frac`, where q is the quotient of `a` and d, rounded toward zero. Fails with
/// `FractionPastWidth` if `frac` is greater than the width, and with `ZeroDivisor` if `k` is 0.
#[inline]
pub(crate) fn rem_int<T: Word>(a: T, k: T, frac: u32) -> Result<Outcome<T>, Code>
    ensures { IsResultOf T.value T.SIGNED T.BITS
        (at_fraction T.BITS frac (row_or ZeroDivisor (by_divisor (T.value k) (exact_rem (T.value a) (units (T.value k) frac))))) result }
{
    if frac > T::BITS {
        return Err(Code::FractionPastWidth);
    }
    if is_zero(k) {
        return Err(Code::ZeroDivisor);
    }
    Ok(rem_int_of(a, k, frac))
}

/// Returns the Euclidean remainder of `a` and `b`, which is never negative. Fails with `ZeroDivisor` if `b` is 0.
#[inline]
pub(crate) fn rem_euclid<T: Word>(a: T, b: T) -> Result<Outcome<T>, Code>
    ensures { IsResultOf T.value T.SIGNED T.BITS
        (row_or ZeroDivisor (by_divisor (T.value b) (euclidean_remainder (T.value a) (T.value b)))) result }
{
    if is_zero(b) {
        return Err(Code::ZeroDivisor);
    }
    Ok(rem_euclid_of(a, b))
}

/// Returns the Euclidean remainder of `a` and `k 2^frac`, which is never negative. Fails with `FractionPastWidth` if
/// `frac` is greater than the width, and with `ZeroDivisor` if `k` is 0.
#[inline]
pub(crate) fn rem_euclid_int<T: Word>(a: T, k: T, frac: u32) -> Result<Outcome<T>, Code>
    ensures { IsResultOf T.value T.SIGNED T.BITS
        (at_fraction T.BITS frac (row_or ZeroDivisor (by_divisor (T.value k) (euclidean_remainder (T.value a) (units (T.value k) frac))))) result }
{
    if frac > T::BITS {
        return Err(Code::FractionPastWidth);
    }
    if is_zero(k) {
        return Err(Code::ZeroDivisor);
    }
    Ok(rem_euclid_int_of(a, k, frac))
}

/// Returns the smallest multiple of `b` that is at least `a` if `b` is positive, and the largest one that is at most
/// `a` if `b` is negative. Fails with `ZeroDivisor` if `b` is 0.
#[inline]
pub(crate) fn next_multiple_of<T: Word>(a: T, b: T) -> Result<Outcome<T>, Code>
    ensures { IsResultOf T.value T.SIGNED T.BITS
        (row_or ZeroDivisor (by_divisor (T.value b) (exact_next_multiple_of (T.value a) (T.value b)))) result }
{
    if is_zero(b) {
        return Err(Code::ZeroDivisor);
    }
    Ok(next_multiple_of_of(a, b))
}
