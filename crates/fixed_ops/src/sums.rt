//! Sums and products of slices.

ghost use Rattle.std.specs.Prelude.{◌≡◌, ◌≤◌, fold, map};
ghost use Rattle.fixed_ops.specs.Folds.{EachFits, ProductsFit, SumsFit, product_of, sum_of, times};

use fixed_num::{Constants, Fixed};
use fixed_word::{RawWord, Valued, Word};

/// Returns the sum of the numbers, added to 0 in order. Precondition: each partial sum fits. (This is `Sum` of
/// `fixed`.)
pub fn sum<T: Word, const F: u32>(items: &[Fixed<T, F>]) -> Fixed<T, F>
    requires { SumsFit T.SIGNED T.BITS (map (λ x. T.value x.bits) items.now) }
    ensures { T.value result.bits ≡ sum_of (map (λ x. T.value x.bits) items.now) }
{
    let mut total = Fixed::<T, F>::ZERO;
    for item in items {
        total += *item;
    }
    total
}

/// Returns the product of the numbers, multiplied in order, with each step rounded down. Returns 1 if there are no
/// numbers. Preconditions: F is at most the width, and each partial product fits, or 1 if there are no numbers. (This
/// is `Product` of `fixed`.)
pub fn product<T: Word, const F: u32>(items: &[Fixed<T, F>]) -> Fixed<T, F>
    requires fraction { F ≤ T.BITS }
    requires fits { ProductsFit T.SIGNED T.BITS F (map (λ x. T.value x.bits) items.now) }
    ensures { T.value result.bits ≡ product_of F (map (λ x. T.value x.bits) items.now) }
{
    match items {
        [] => Fixed::one(),
        [first, rest @ ..] => product_from(*first, rest),
    }
}

/// Returns the product of a number and all numbers of a slice.
fn product_from<T: Word, const F: u32>(first: Fixed<T, F>, rest: &[Fixed<T, F>]) -> Fixed<T, F>
    requires fraction { F ≤ T.BITS }
    requires fits { EachFits T.SIGNED T.BITS
        (times F) (T.value first.bits) (map (λ x. T.value x.bits) rest.now) }
    ensures { T.value result.bits
        ≡ fold (times F) (T.value first.bits) (map (λ x. T.value x.bits) rest.now) }
{
    let mut total = first;
    for item in rest {
        total *= *item;
    }
    total
}
