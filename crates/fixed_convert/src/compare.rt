//! Comparisons of numbers of two formats.

ghost use Rattle.std.specs.Prelude.{◌≡◌, ℤ};
ghost use Rattle.std.specs.Ordering.{int_cmp};
ghost use Rattle.fixed_word.specs.Standing.{StandsFor};
ghost use Rattle.fixed_convert.specs.Convert.{exact_order};

use crate::castable::Castable;
use crate::moved::raised;
use fixed_word::{Outcome, RawWord, Side};
use std::cmp::Ordering;

/// Returns the order of `a / 2^a_frac` and `b / 2^b_frac`. The number with the larger unit is converted to the format
/// of the other; it need not fit.
#[inline(always)]
pub fn compare_of<A: Castable, B: Castable>(a: A, a_frac: u32, b: B, b_frac: u32) -> Ordering
    ensures { result ≡ exact_order (A.value a) a_frac (B.value b) b_frac }
{
    if b_frac <= a_frac {
        beside(a, raised(b, a_frac - b_frac))
    } else {
        beside(b, raised(a, b_frac - a_frac)).reverse()
    }
}

/// Returns the order of a word and the number of an outcome.
#[inline(always)]
fn beside<T: Castable>(word: T, outcome: Outcome<T>) -> Ordering
    ensures { (x : ℤ) → StandsFor T.value T.SIGNED T.BITS x outcome
        → result ≡ int_cmp (T.value word) x }
{
    // That it is in range bounds the word.
    let _sign = word.is_below_zero();
    match outcome.side {
        Side::Above => Ordering::Less,
        Side::Below => Ordering::Greater,
        Side::Fits => order_of(word, outcome.wrapped),
    }
}

/// Returns the order of two words.
#[inline(always)]
fn order_of<T: Castable>(a: T, b: T) -> Ordering
    ensures { result ≡ int_cmp (T.value a) (T.value b) }
{
    a.to_wide().cmp(&b.to_wide())
}
