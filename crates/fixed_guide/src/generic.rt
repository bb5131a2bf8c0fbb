//! Code for numbers of every word and every number of fraction bits.

ghost use Rattle.std.specs.Prelude.{◌≡◌, ◌⊎◌, ◌↔◌, ◌||◌, ◌+ℤ◌, ◌-ℤ◌, false, IfSome, IsNone, Some, not, option_map, pos};
ghost use Rattle.std.specs.Int.{int_max};
ghost use Rattle.fixed_word.specs.Format.{InRange, clamp, fits, wrap};
ghost use Rattle.fixed_word.specs.Policies.{checked};

use fixed::{Checked, Overflowing, Saturating, Strict, Unwrapped, Wrapping};

/// Returns the sum of three numbers of one format. Returns `None` if and only if the sum of the first two, or of all
/// three, does not fit.
pub fn sum_of_three<N: Checked>(a: N, b: N, c: N) -> Option<N>
    ensures sum { IfSome result (λ sum. N.number sum ≡ N.number a +ℤ N.number b +ℤ N.number c) }
    ensures none { IsNone result
        ↔ ((fits N.SIGNED N.BITS (N.number a +ℤ N.number b) ≡ false)
        ⊎ (fits N.SIGNED N.BITS (N.number a +ℤ N.number b +ℤ N.number c) ≡ false)) }
{
    let sum = a.checked_add(b)?;
    let total = sum.checked_add(c)?;
    Some(total)
}

/// Returns the sum of three numbers, where each partial sum saturates.
pub fn saturating_sum_of_three<N: Saturating>(a: N, b: N, c: N) -> N
    ensures { N.number result ≡ clamp N.SIGNED N.BITS
        (clamp N.SIGNED N.BITS (N.number a +ℤ N.number b) +ℤ N.number c) }
{
    a.saturating_add(b).saturating_add(c)
}

/// Returns the sum of three numbers, wrapped. That the first partial sum wraps makes no difference.
pub fn wrapping_sum_of_three<N: Wrapping>(a: N, b: N, c: N) -> N
    ensures { N.number result ≡ wrap N.SIGNED N.BITS (N.number a +ℤ N.number b +ℤ N.number c) }
{
    a.wrapping_add(b).wrapping_add(c)
}

/// Returns the sum of three numbers, wrapped, and whether a partial sum does not fit. If each fits, the sum is exact.
pub fn overflowing_sum_of_three<N: Overflowing>(a: N, b: N, c: N) -> (N, bool)
    ensures sum { N.number result.0 ≡ wrap N.SIGNED N.BITS (N.number a +ℤ N.number b +ℤ N.number c) }
    ensures exact { result.1 ≡ false → N.number result.0 ≡ N.number a +ℤ N.number b +ℤ N.number c }
    ensures verdict { result.1 ≡ not (fits N.SIGNED N.BITS (N.number a +ℤ N.number b))
        || not (fits N.SIGNED N.BITS (wrap N.SIGNED N.BITS (N.number a +ℤ N.number b) +ℤ N.number c)) }
{
    let (sum, first) = a.overflowing_add(b);
    let (total, second) = sum.overflowing_add(c);
    (total, first || second)
}

/// Returns the sum of three numbers. Precondition: each partial sum fits.
pub fn strict_sum_of_three<N: Strict>(a: N, b: N, c: N) -> N
    requires first { InRange N.SIGNED N.BITS (N.number a +ℤ N.number b) }
    requires all { InRange N.SIGNED N.BITS (N.number a +ℤ N.number b +ℤ N.number c) }
    ensures { N.number result ≡ N.number a +ℤ N.number b +ℤ N.number c }
{
    a.strict_add(b).strict_add(c)
}

/// Returns the sum of three numbers. Precondition: each partial sum fits.
pub fn unwrapped_sum_of_three<N: Unwrapped>(a: N, b: N, c: N) -> N
    requires first { InRange N.SIGNED N.BITS (N.number a +ℤ N.number b) }
    requires all { InRange N.SIGNED N.BITS (N.number a +ℤ N.number b +ℤ N.number c) }
    ensures { N.number result ≡ N.number a +ℤ N.number b +ℤ N.number c }
{
    a.unwrapped_add(b).unwrapped_add(c)
}

/// Returns what is left of a stock: the difference, or 0 if more is taken than there is. Returns `None` if and only if
/// that does not fit.
pub fn left_of<N: Checked>(stock: N, taken: N) -> Option<N>
    ensures { option_map N.number result
        ≡ checked N.SIGNED N.BITS (Some (int_max (N.number stock -ℤ N.number taken) (pos 0))) }
{
    if stock < taken {
        return Some(N::ZERO);
    }
    stock.checked_sub(taken)
}
