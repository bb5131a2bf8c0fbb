//! The sum of the products of two blocks, which is rounded once.

ghost use Rattle.std.specs.Prelude.{ℕ, ◌≡◌, ◌≤◌, ◌<◌, ◌+◌, ◌*◌, ◌^◌, ◌+ℤ◌, ◌*ℤ◌, true, false, IfSome, IsNone, length, map, nat_abs, pos};
ghost use Rattle.fixed_word.specs.Format.{InRange};
ghost use Rattle.fixed_word.specs.Quotient.{floor_quotient};
ghost use Rattle.fixed_word.specs.Standing.{StandsFor};
ghost use Rattle.fixed_block.specs.Dots.{SumsFit, exact_dot, partial_sum};

use crate::chunks::short_sum;
use fixed_convert::Castable;
use fixed_word::{Integer, Outcome, RawWord, Valued, outcome_of_magnitude};

/// Returns the sum plus the product of two numbers of 64 bits, or `None` if that does not fit.
#[inline(always)]
fn signed_added(sum: i128, x: i128, y: i128) -> Option<i128>
    requires x { nat_abs x ≤ 2 ^ 63 }
    requires y { nat_abs y ≤ 2 ^ 63 }
    ensures some { IfSome result (λ more. more ≡ sum +ℤ x *ℤ y) }
    ensures none { IsNone result → InRange true 128 (sum +ℤ x *ℤ y) → ⊥ }
{
    sum.checked_add(x * y)
}

/// Returns the same for unsigned numbers.
#[inline(always)]
fn unsigned_added(sum: u128, x: u64, y: u64) -> Option<u128>
    ensures some { IfSome result (λ more. more ≡ sum + x * y) }
    ensures none { IsNone result → sum + x * y < 2 ^ 128 → ⊥ }
{
    let more = sum.wrapping_add(u128::from(x) * u128::from(y));
    if more < sum { None } else { Some(more) }
}

/// Returns the sum of the products of signed words of at most 32 bits.
#[inline(always)]
fn signed_middle_sum<T: Castable>(a: &[T], b: &[T]) -> i128
    requires sign { T.SIGNED ≡ true }
    requires width { T.BITS ≤ 32 }
    requires lengths { length a.now ≡ length b.now }
    ensures { result ≡ partial_sum (map T.value a.now) (map T.value b.now) (length a.now) }
{
    let mut sum: i128 = 0;
    for at in 0..a.len() {
        sum += a[at].to_wide() * b[at].to_wide();
    }
    sum
}

/// Returns the sum of the products of unsigned words of at most 32 bits.
#[inline(always)]
fn unsigned_middle_sum<T: Castable>(a: &[T], b: &[T]) -> u128
    requires sign { T.SIGNED ≡ false }
    requires width { T.BITS ≤ 32 }
    requires lengths { length a.now ≡ length b.now }
    ensures { pos result ≡ partial_sum (map T.value a.now) (map T.value b.now) (length a.now) }
{
    let mut sum: u128 = 0;
    for at in 0..a.len() {
        sum += u128::from(a[at].magnitude()) * u128::from(b[at].magnitude());
    }
    sum
}

/// Returns a number plus the sum of the products of signed words, or `None` if the number plus a partial sum does not
/// fit.
#[inline(always)]
fn signed_sum_from<T: Castable>(from: i128, a: &[T], b: &[T]) -> Option<i128>
    requires sign { T.SIGNED ≡ true }
    requires lengths { length a.now ≡ length b.now }
    ensures sum { IfSome result (λ sum.
        sum ≡ from +ℤ partial_sum (map T.value a.now) (map T.value b.now) (length a.now)) }
    ensures none { IsNone result → ((k : ℕ) → k ≤ length a.now
        → InRange true 128 (from +ℤ partial_sum (map T.value a.now) (map T.value b.now) k)) → ⊥ }
{
    let mut sum = from;
    for at in 0..a.len() {
        match signed_added(sum, a[at].to_wide(), b[at].to_wide()) {
            Some(more) => sum = more,
            None => return None,
        }
    }
    Some(sum)
}

/// Returns the sum of the products of signed words, or `None` if a partial sum does not fit. It takes four products at
/// a time, which saves about a fifth of the time.
#[inline(always)]
fn signed_sum<T: Castable>(a: &[T], b: &[T]) -> Option<i128>
    requires sign { T.SIGNED ≡ true }
    requires lengths { length a.now ≡ length b.now }
    ensures sum { IfSome result (λ sum. sum ≡ partial_sum (map T.value a.now) (map T.value b.now) (length a.now)) }
    ensures none { IsNone result → SumsFit true (map T.value a.now) (map T.value b.now) → ⊥ }
{
    let mut sum: i128 = 0;
    let mut at = 0;
    while a.len() - at >= 4 {
        match signed_sum_from(sum, &a[at..at + 4], &b[at..at + 4]) {
            Some(more) => sum = more,
            None => return None,
        }
        at += 4;
    }
    signed_sum_from(sum, &a[at..], &b[at..])
}

/// Returns the sum of the products of unsigned words, or `None` if a partial sum does not fit.
#[inline(always)]
fn unsigned_sum<T: Castable>(a: &[T], b: &[T]) -> Option<u128>
    requires sign { T.SIGNED ≡ false }
    requires lengths { length a.now ≡ length b.now }
    ensures sum { IfSome result (λ sum. pos sum ≡ partial_sum (map T.value a.now) (map T.value b.now) (length a.now)) }
    ensures none { IsNone result → SumsFit false (map T.value a.now) (map T.value b.now) → ⊥ }
{
    let mut sum: u128 = 0;
    for at in 0..a.len() {
        match unsigned_added(sum, a[at].magnitude(), b[at].magnitude()) {
            Some(more) => sum = more,
            None => return None,
        }
    }
    Some(sum)
}

/// Returns the outcome of a sum over `2^frac`, rounded down. Precondition: `frac` is at most the width.
#[inline(always)]
fn outcome_of_sum<T: Castable>(sum: i128, frac: u32) -> Outcome<T>
    requires { frac ≤ T.BITS }
    ensures { StandsFor T.value T.SIGNED T.BITS (floor_quotient sum (2 ^ frac)) result }
{
    let moved = sum.floored(frac);
    outcome_of_magnitude(moved < 0, moved.unsigned_abs())
}

/// Returns the outcome of the sum of the products of the numbers at the same places, over `2^frac` and rounded down
/// once. Preconditions: the words have at most 32 bits, both blocks have the same length, and `frac` is at most the
/// width.
#[inline(always)]
fn middle_dot<T: Castable>(a: &[T], b: &[T], frac: u32) -> Outcome<T>
    requires width { T.BITS ≤ 32 }
    requires lengths { length a.now ≡ length b.now }
    requires frac { frac ≤ T.BITS }
    ensures { StandsFor T.value T.SIGNED T.BITS (exact_dot (map T.value a.now) (map T.value b.now) frac) result }
{
    if T::SIGNED {
        outcome_of_sum(signed_middle_sum(a, b), frac)
    } else {
        outcome_of_magnitude(false, unsigned_middle_sum(a, b).floored(frac))
    }
}

/// Returns the outcome of the sum of the products of the numbers at the same places, over `2^frac` and rounded down
/// once. Returns `None` only if a partial sum of the products does not fit in an integer of 128 bits, which is signed
/// if the words are. For words of up to 32 bits, every slice is too short for that. Preconditions: both blocks have the
/// same length, and `frac` is at most the width.
pub fn dot_of<T: Castable>(a: &[T], b: &[T], frac: u32) -> Option<Outcome<T>>
    requires lengths { length a.now ≡ length b.now }
    requires frac { frac ≤ T.BITS }
    ensures dot { IfSome result (λ outcome. StandsFor T.value T.SIGNED T.BITS
        (exact_dot (map T.value a.now) (map T.value b.now) frac) outcome) }
    ensures none { IsNone result → SumsFit T.SIGNED (map T.value a.now) (map T.value b.now) → ⊥ }
{
    if T::BITS < 32 {
        Some(outcome_of_sum(short_sum(a, b), frac))
    } else if T::BITS == 32 {
        Some(middle_dot(a, b, frac))
    } else if T::SIGNED {
        match signed_sum(a, b) {
            Some(sum) => Some(outcome_of_sum(sum, frac)),
            None => None,
        }
    } else {
        match unsigned_sum(a, b) {
            Some(sum) => Some(outcome_of_magnitude(false, sum.floored(frac))),
            None => None,
        }
    }
}
