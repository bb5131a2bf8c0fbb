//! Products and quotients that return the wrapped word, and whether the exact result does not fit.

ghost use Rattle.std.specs.Prelude.{◌≡◌, ◌≢◌, ◌≤◌, ◌*◌, ◌≤ℤ◌, Some, pos, neg_ℤ};
ghost use Rattle.fixed_word.specs.Policies.{overflowing};
ghost use Rattle.fixed_kernel.specs.Rows.{exact_add_prod_at, exact_div, exact_mul};

use crate::products::{add_prod_at, mul_of};
use crate::quotients::div_of;
use fixed_word::{Word, overflowing_of};

/// Returns `lhs rhs / 2^frac_nbits`, rounded down and wrapped, and whether the exact result does not fit. Operands
/// and result are bits. Precondition: `frac_nbits` is at most the width. (This is `overflowing_mul` of `fixed`.)
pub fn overflowing_mul<T: Word>(lhs: T, rhs: T, frac_nbits: u32) -> (T, bool)
    requires { frac_nbits ≤ T.BITS }
    ensures { Some (T.value result.0, result.1)
        ≡ overflowing T.SIGNED T.BITS (Some (exact_mul (T.value lhs) (T.value rhs) frac_nbits)) }
{
    overflowing_of(mul_of(lhs, rhs, frac_nbits))
}

/// Returns `lhs 2^frac_nbits / rhs`, rounded toward zero and wrapped, and whether the exact result does not fit.
/// Operands and result are bits. Preconditions: `frac_nbits` is at most the width, and `rhs` is not 0. (This is
/// `overflowing_div` of `fixed`.)
pub fn overflowing_div<T: Word>(lhs: T, rhs: T, frac_nbits: u32) -> (T, bool)
    requires frac_nbits { frac_nbits ≤ T.BITS }
    requires divisor { T.value rhs ≢ pos 0 }
    ensures { Some (T.value result.0, result.1)
        ≡ overflowing T.SIGNED T.BITS (Some (exact_div (T.value lhs) (T.value rhs) frac_nbits)) }
{
    overflowing_of(div_of(lhs, rhs, frac_nbits))
}

/// Returns `lhs mul / 2^frac_nbits`, rounded down, plus `add`, wrapped, and whether the exact sum does not fit. The
/// product alone may be out of range. Operands and result are bits. If `frac_nbits` is negative, the product is
/// shifted left. Precondition: `frac_nbits` is from `-n` to `2n`, where n is the width. (This is
/// `overflowing_mul_add` of `fixed`.)
pub fn overflowing_mul_add<T: Word>(lhs: T, mul: T, add: T, frac_nbits: i32) -> (T, bool)
    requires lower { neg_ℤ (pos T.BITS) ≤ℤ frac_nbits }
    requires upper { frac_nbits ≤ℤ pos (2 * T.BITS) }
    ensures { Some (T.value result.0, result.1) ≡ overflowing T.SIGNED T.BITS
        (Some (exact_add_prod_at (T.value add) (T.value lhs) (T.value mul) frac_nbits)) }
{
    overflowing_of(add_prod_at(add, lhs, mul, frac_nbits))
}
