//! Products of words of any two formats, in a third format.

ghost use Rattle.std.specs.Prelude.{◌≡◌, ◌≤◌, ◌<◌, ◌+◌, ◌*ℤ◌, IsTrue, pos};
ghost use Rattle.fixed_word.specs.Standing.{StandsFor};
ghost use Rattle.fixed_convert.specs.Convert.{rounded_convert, rounded_mul_into};
ghost use Rattle.fixed_convert.specs.inside.Narrow.{digits_of};

use crate::castable::Castable;
use crate::convert::convert_round_of;
use crate::long_products::long_product_of;
use fixed_word::{Integer, Outcome, RawWord, Rounding, Valued};

/// Returns the outcome of `a / 2^a_frac` times `b / 2^b_frac` in units of `2^-to`, rounded once. Precondition: the
/// fractions of both factors are at most their widths.
#[inline]
pub fn mul_into_of<A: Castable, B: Castable, T: Castable>(
    a: A,
    a_frac: u32,
    b: B,
    b_frac: u32,
    to: u32,
    rounding: Rounding,
) -> Outcome<T>
    requires a_frac { a_frac ≤ A.BITS }
    requires b_frac { b_frac ≤ B.BITS }
    ensures { StandsFor T.value T.SIGNED T.BITS
        (rounded_mul_into (A.value a) a_frac (B.value b) b_frac to rounding) result }
{
    let from = a_frac + b_frac;
    if digits::<A>() + digits::<B>() < 63 {
        convert_round_of(short_product(a, b), from, to, rounding)
    } else {
        long_product_of(a, b, from, to, rounding)
    }
}

/// Returns the largest number of bits of the magnitudes of a word, without the smallest number of a signed word.
#[inline]
fn digits<T: Castable>() -> u32
    ensures digits { result ≡ digits_of T.SIGNED T.BITS }
    ensures most { result ≤ 64 }
{
    if T::SIGNED { T::BITS - 1 } else { T::BITS }
}

/// Returns the product of two short words, which loops compute for several pairs at once.
#[inline]
fn short_product<A: Castable, B: Castable>(a: A, b: B) -> i64
    requires { digits_of A.SIGNED A.BITS + digits_of B.SIGNED B.BITS < 63 }
    ensures { result ≡ A.value a *ℤ B.value b }
{
    i64::from_wide(a.to_wide()).times(i64::from_wide(b.to_wide()))
}
