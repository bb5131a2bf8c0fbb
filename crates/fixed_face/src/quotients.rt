//! Quotients, rounded toward zero, and Euclidean quotients. Operands and results are bits, in units of `2^-frac`.
#![tactic(auto, unfolding(crate::specs::Calls::IsResultOf, crate::specs::Answers::at_fraction, crate::specs::Answers::row_or))]

ghost use Rattle.std.specs.Prelude.{◌≡◌, pos};
ghost use Rattle.std.specs.Ordering.{int_eq};
ghost use Rattle.fixed_word.specs.Quotient.{truncated_quotient};
ghost use Rattle.fixed_kernel.specs.Rows.{by_divisor, exact_div, exact_div_euclid, exact_recip, units};
ghost use Rattle.fixed_face.specs.declared.answer.Code.TheVariants.{ZeroDivisor};
ghost use Rattle.fixed_face.specs.Answers.{at_fraction, row_or};
ghost use Rattle.fixed_face.specs.Calls.{IsResultOf};

use crate::answer::Code;
use fixed_kernel::{div_euclid_int_of, div_euclid_of, div_int_of, div_of, recip_of};
use fixed_word::{Outcome, RawWord, Word};

/// Returns whether the divisor `b` is 0.
#[inline]
pub(crate) fn is_zero<T: RawWord>(b: T) -> bool
    ensures { result ≡ int_eq (T.value b) (pos 0) }
{
    b.magnitude() == 0
}

/// Returns `a 2^frac / b`, rounded toward zero. Fails with `FractionPastWidth` if `frac` is greater than the width, and
/// with `ZeroDivisor` if `b` is 0.
#[inline]
pub(crate) fn div<T: Word>(a: T, b: T, frac: u32) -> Result<Outcome<T>, Code>
    ensures { IsResultOf T.value T.SIGNED T.BITS
        (at_fraction T.BITS frac (row_or ZeroDivisor (by_divisor (T.value b) (exact_div (T.value a) (T.value b) frac)))) result }
{
    if frac > T::BITS {
        return Err(Code::FractionPastWidth);
    }
    if is_zero(b) {
        return Err(Code::ZeroDivisor);
    }
    Ok(div_of(a, b, frac))
}

/// Returns `a / k`, rounded toward zero, for an integer `k`. Fails with `ZeroDivisor` if `k` is 0.
#[inline]
pub(crate) fn div_int<T: Word>(a: T, k: T) -> Result<Outcome<T>, Code>
    ensures { IsResultOf T.value T.SIGNED T.BITS
        (row_or ZeroDivisor (by_divisor (T.value k) (truncated_quotient (T.value a) (T.value k)))) result }
{
    if is_zero(k) {
        return Err(Code::ZeroDivisor);
    }
    Ok(div_int_of(a, k))
}

/// Returns `2^(2 frac) / a`, rounded toward zero. Fails with `FractionPastWidth` if `frac` is greater than the width,
/// and with `ZeroDivisor` if `a` is 0.
#[inline]
pub(crate) fn recip<T: Word>(a: T, frac: u32) -> Result<Outcome<T>, Code>
    ensures { IsResultOf T.value T.SIGNED T.BITS
        (at_fraction T.BITS frac (row_or ZeroDivisor (by_divisor (T.value a) (exact_recip (T.value a) frac)))) result }
{
    if frac > T::BITS {
        return Err(Code::FractionPastWidth);
    }
    if is_zero(a) {
        return Err(Code::ZeroDivisor);
    }
    Ok(recip_of(a, frac))
}

/// Returns the Euclidean quotient of `a` and `b`, which is an integer, times `2^frac`. Fails with `FractionPastWidth`
/// if `frac` is greater than the width, and with `ZeroDivisor` if `b` is 0.
#[inline]
pub(crate) fn div_euclid<T: Word>(a: T, b: T, frac: u32) -> Result<Outcome<T>, Code>
    ensures { IsResultOf T.value T.SIGNED T.BITS
        (at_fraction T.BITS frac (row_or ZeroDivisor (by_divisor (T.value b) (exact_div_euclid (T.value a) (T.value b) frac)))) result }
{
    if frac > T::BITS {
        return Err(Code::FractionPastWidth);
    }
    if is_zero(b) {
        return Err(Code::ZeroDivisor);
    }
    Ok(div_euclid_of(a, b, frac))
}

/// Returns the Euclidean quotient of `a` and `k 2^frac`, which is an integer, times `2^frac`. Fails with
/// `FractionPastWidth` if `frac` is greater than the width, and with `ZeroDivisor` if `k` is 0.
#[inline]
pub(crate) fn div_euclid_int<T: Word>(a: T, k: T, frac: u32) -> Result<Outcome<T>, Code>
    ensures { IsResultOf T.value T.SIGNED T.BITS
        (at_fraction T.BITS frac (row_or ZeroDivisor (by_divisor (T.value k) (exact_div_euclid (T.value a) (units (T.value k) frac) frac)))) result }
{
    if frac > T::BITS {
        return Err(Code::FractionPastWidth);
    }
    if is_zero(k) {
        return Err(Code::ZeroDivisor);
    }
    Ok(div_euclid_int_of(a, k, frac))
}
