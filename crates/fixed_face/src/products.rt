//! Products, rounded down. Operands and results are bits, in units of `2^-frac` unless a comment names another unit.
#![tactic(auto, unfolding(crate::specs::Calls::IsResultOf, crate::specs::Answers::at_fraction))]

ghost use Rattle.std.specs.Prelude.{◌≡◌, ◌≤◌, Ok};
ghost use Rattle.fixed_word.specs.Standing.{StandsFor};
ghost use Rattle.fixed_kernel.specs.Rows.{exact_add_prod, exact_mul, exact_mul_add};
ghost use Rattle.fixed_face.specs.Answers.{at_fraction};
ghost use Rattle.fixed_face.specs.Calls.{IsResultOf};

use crate::answer::Code;
use fixed_kernel::{add_prod_of, mul_add_of, mul_of};
use fixed_word::{Outcome, Word};

/// Returns `a b / 2^frac`, rounded down. Fails with `FractionPastWidth` if `frac` is greater than the width.
#[inline]
pub(crate) fn mul<T: Word>(a: T, b: T, frac: u32) -> Result<Outcome<T>, Code>
    ensures { IsResultOf T.value T.SIGNED T.BITS
        (at_fraction T.BITS frac (Ok (exact_mul (T.value a) (T.value b) frac))) result }
{
    if frac > T::BITS {
        return Err(Code::FractionPastWidth);
    }
    Ok(mul_of(a, b, frac))
}

/// Returns `a mul / 2^mul_frac`, rounded down, plus `add`. The factor `mul` has `mul_frac` fraction bits, and the other
/// operands and the result have one unit, which may be any. Fails with `FractionPastWidth` if `mul_frac` is greater
/// than the width.
#[inline]
pub(crate) fn mul_add<T: Word>(a: T, mul: T, add: T, mul_frac: u32) -> Result<Outcome<T>, Code>
    ensures { IsResultOf T.value T.SIGNED T.BITS
        (at_fraction T.BITS mul_frac (Ok (exact_mul_add (T.value a) (T.value mul) (T.value add) mul_frac))) result }
{
    if mul_frac > T::BITS {
        return Err(Code::FractionPastWidth);
    }
    Ok(mul_add_of(a, mul, add, mul_frac))
}

/// Returns `c` plus the product of `a` and `b`, which is rounded down to the fraction bits of `c`. Each operand has its
/// own number of fraction bits, and the result has that of `c`. Fails with `FractionPastWidth` if one of these numbers
/// is greater than the width.
#[inline]
pub(crate) fn add_prod<T: Word>(
    c: T,
    a: T,
    b: T,
    c_frac: u32,
    a_frac: u32,
    b_frac: u32,
) -> Result<Outcome<T>, Code>
    ensures { IsResultOf T.value T.SIGNED T.BITS
        (at_fraction T.BITS c_frac (at_fraction T.BITS a_frac (at_fraction T.BITS b_frac
        (Ok (exact_add_prod (T.value c) (T.value a) (T.value b) c_frac a_frac b_frac))))) result }
{
    if c_frac > T::BITS || a_frac > T::BITS || b_frac > T::BITS {
        return Err(Code::FractionPastWidth);
    }
    let outcome = sum_of_product(c, a, b, c_frac, a_frac, b_frac);
    Ok(outcome)
}

/// Returns the outcome of `c` plus the product of `a` and `b`, which is rounded down to the fraction bits of `c`. A
/// product that is shifted right by at most the width, as most are, takes one shift. Precondition: each number of
/// fraction bits is at most the width.
#[inline]
#[tactic(auto, using(crate::proofs::Moved::moved_down))]
fn sum_of_product<T: Word>(c: T, a: T, b: T, c_frac: u32, a_frac: u32, b_frac: u32) -> Outcome<T>
    requires c_frac { c_frac ≤ T.BITS }
    requires a_frac { a_frac ≤ T.BITS }
    requires b_frac { b_frac ≤ T.BITS }
    ensures { StandsFor T.value T.SIGNED T.BITS
        (exact_add_prod (T.value c) (T.value a) (T.value b) c_frac a_frac b_frac) result }
{
    let both = a_frac + b_frac;
    if c_frac <= both && both - c_frac <= T::BITS {
        mul_add_of(a, b, c, both - c_frac)
    } else {
        add_prod_of(c, a, b, c_frac, a_frac, b_frac)
    }
}
