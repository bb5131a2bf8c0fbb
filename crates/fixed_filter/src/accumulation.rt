//! The sum of the products of taps and samples.

ghost use Rattle.std.specs.Prelude.{◌≡◌, ◌≤◌, Some, length, pos};
ghost use Rattle.std.specs.Option.{option_map};
ghost use Rattle.fixed_word.specs.Policies.{checked};
ghost use Rattle.fixed_word.specs.Format.{wrap};
ghost use Rattle.fixed_kernel.specs.Rows.{exact_add_prod, exact_mul_add};
ghost use Rattle.fixed_policy.specs.DotProduct.{pairs};
ghost use Rattle.fixed_filter.specs.Replies.{accumulator, filter_reply, reply_map};
ghost use Rattle.fixed_filter.specs.Banks.{IsShape, places_of};

use crate::reply::Reply;
use crate::sample::Sample;
use crate::shape::Shape;
use fixed_kernel::{add_prod_of, mul_add_of};
use fixed_word::{RawWord, Word, checked_of};

/// Returns the sum plus the product of a tap and a sample, which is rounded down, or `None` if that does not fit. If
/// the product is shifted right by at most the width, as most products are, one shift is enough. Precondition: each
/// number of fraction bits is at most the width.
#[inline]
#[tactic(auto, using(crate::proofs::Sums::moved_down))]
pub(crate) fn checked_add_prod<T: Word>(sum: T, tap: T, sample: T, shape: &Shape) -> Option<T>
    requires { IsShape T.BITS shape.now }
    ensures { option_map T.value result ≡ checked T.SIGNED T.BITS
        (Some (exact_add_prod (T.value sum) (T.value tap) (T.value sample)
        shape.now.out_frac shape.now.coef_frac shape.now.sample_frac)) }
{
    let down = shape.coef_frac + shape.sample_frac;
    if shape.out_frac <= down && down - shape.out_frac <= T::BITS {
        checked_of(mul_add_of(tap, sample, sum, down - shape.out_frac))
    } else {
        checked_of(add_prod_of(
            sum,
            tap,
            sample,
            shape.out_frac,
            shape.coef_frac,
            shape.sample_frac,
        ))
    }
}

/// Returns the output of a filter with these taps after these samples, the newest first: the sum of the products of
/// taps and samples, each rounded down. Taps are in units of `2^-coef_frac`, samples of `2^-sample_frac`, and outputs
/// of `2^-out_frac`. If a partial sum does not fit, the reply is `Overflow` with the index of the first such tap.
/// Without taps, the output is 0. Preconditions: there are as many samples as taps, and each number of fraction bits is
/// at most the width.
pub fn output_of<T: Word>(shape: &Shape, taps: &[T], past: &[T]) -> Reply<T>
    requires shape { IsShape T.BITS shape.now }
    requires lengths { length taps.now ≡ length past.now }
    ensures { reply_map T.value result ≡ filter_reply T.SIGNED T.BITS
        (places_of shape.now) (pairs T.value T.value taps.now past.now) }
{
    output_of_past(shape, taps, past)
}

/// Returns the same as `output_of`, from types that hold the words. Preconditions: those of `output_of`.
#[inline]
pub(crate) fn output_of_past<T: Word, A: Sample<T>, B: Sample<T>>(
    shape: &Shape,
    taps: &[A],
    past: &[B],
) -> Reply<T>
    requires shape { IsShape T.BITS shape.now }
    requires lengths { length taps.now ≡ length past.now }
    ensures { reply_map T.value result ≡ filter_reply T.SIGNED T.BITS (places_of shape.now)
        (pairs (λ a. T.value (A.held a)) (λ b. T.value (B.held b)) taps.now past.now) }
{
    // One check of the length here spares one at each tap.
    let past = &past[..taps.len()];
    let mut sum = T::ZERO;
    for i in 0..taps.len() {
        let tap = taps[i].to_word();
        let sample = past[i].to_word();
        match checked_add_prod(sum, tap, sample, shape) {
            Some(next) => sum = next,
            None => return Reply::Overflow(i),
        }
    }
    Reply::Value(sum)
}

/// Returns the sum of the products of these taps and samples, the newest first, each shifted right by `down` and rounded
/// down. The sum is wrapped, and no partial sum is tested, so that the loop is vectorised. Preconditions: there are as
/// many samples as taps, and `down` is at most the width.
#[inline]
pub(crate) fn wrapped_sum_of_past<T: Word>(down: u32, taps: &[T], past: &[T]) -> T
    requires lengths { length taps.now ≡ length past.now }
    requires down { down ≤ T.BITS }
    ensures { T.value result ≡ wrap T.SIGNED T.BITS
        (accumulator (pos down) (pairs T.value T.value taps.now past.now) (length taps.now)) }
{
    let past = &past[..taps.len()];
    let mut sum = T::ZERO;
    for i in 0..taps.len() {
        sum = wrapped_add_prod(sum, taps[i], past[i], down);
    }
    sum
}

/// Returns the sum plus the product of a tap and a sample, which is shifted right by `down` and rounded down, wrapped.
/// Precondition: `down` is at most the width.
#[inline]
pub(crate) fn wrapped_add_prod<T: Word>(sum: T, tap: T, sample: T, down: u32) -> T
    requires { down ≤ T.BITS }
    ensures { T.value result ≡ wrap T.SIGNED T.BITS
        (exact_mul_add (T.value tap) (T.value sample) (T.value sum) down) }
{
    mul_add_of(tap, sample, sum, down).wrapped
}
