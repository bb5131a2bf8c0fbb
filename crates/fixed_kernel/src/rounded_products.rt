//! Products with a named rounding.

ghost use Rattle.std.specs.Prelude.{◌≡◌, ◌<◌, ◌≤◌, ◌*◌, ◌≤ℤ◌, pos, neg_ℤ};
ghost use Rattle.fixed_word.specs.Standing.{StandsFor};
ghost use Rattle.fixed_kernel.specs.RoundedRows.{rounded_add_prod, rounded_add_prod_at, rounded_mul, rounded_mul_add};

use crate::products::add_prod_of;
use crate::wide::Wide;
use fixed_word::{Outcome, Rounding, Word};

/// Returns `a b / 2^frac`, rounded as named. Precondition: `frac` is at most the width.
pub fn mul_round_of<T: Word>(a: T, b: T, frac: u32, rounding: Rounding) -> Outcome<T>
    requires { frac ≤ T.BITS }
    ensures { StandsFor T.value T.SIGNED T.BITS
        (rounded_mul (T.value a) (T.value b) frac rounding) result }
{
    Wide::product(a, b).rounded_at(frac, rounding).outcome()
}

/// Returns `a mul / 2^mul_frac`, rounded as named, plus `add`. Precondition: `mul_frac` is at most the width.
pub fn mul_add_round_of<T: Word>(
    a: T,
    mul: T,
    add: T,
    mul_frac: u32,
    rounding: Rounding,
) -> Outcome<T>
    requires { mul_frac ≤ T.BITS }
    ensures { StandsFor T.value T.SIGNED T.BITS
        (rounded_mul_add (T.value a) (T.value mul) (T.value add) mul_frac rounding) result }
{
    Wide::product(a, mul)
        .rounded_at(mul_frac, rounding)
        .plus(Wide::of(add))
        .outcome()
}

/// Returns `c` plus the product of `a` and `b`, which is rounded as named to the fraction bits of `c`. A product that
/// is shifted left is not rounded; it may need 192 bits, and is never held. Precondition: each number of fraction
/// bits is at most the width.
pub fn add_prod_round_of<T: Word>(
    c: T,
    a: T,
    b: T,
    c_frac: u32,
    a_frac: u32,
    b_frac: u32,
    rounding: Rounding,
) -> Outcome<T>
    requires c_frac { c_frac ≤ T.BITS }
    requires a_frac { a_frac ≤ T.BITS }
    requires b_frac { b_frac ≤ T.BITS }
    ensures { StandsFor T.value T.SIGNED T.BITS
        (rounded_add_prod (T.value c) (T.value a) (T.value b) c_frac a_frac b_frac rounding) result }
{
    if a_frac + b_frac >= c_frac {
        add_prod_rounded(c, a, b, a_frac + b_frac - c_frac, rounding)
    } else {
        add_prod_of(c, a, b, c_frac, a_frac, b_frac)
    }
}

/// Returns `c` plus the product of `a` and `b` over `2^by`, rounded as named.
fn add_prod_rounded<T: Word>(c: T, a: T, b: T, by: u32, rounding: Rounding) -> Outcome<T>
    requires { by ≤ 128 }
    ensures { StandsFor T.value T.SIGNED T.BITS
        (rounded_add_prod_at (T.value c) (T.value a) (T.value b) (pos by) rounding) result }
{
    Wide::product(a, b)
        .rounded_at(by, rounding)
        .plus(Wide::of(c))
        .outcome()
}
