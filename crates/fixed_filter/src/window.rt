//! The output of a filter inside a block.

ghost use Rattle.std.specs.Prelude.{◌≡◌, ◌≤◌, length, pos, reverse};
ghost use Rattle.fixed_word.specs.Format.{wrap};
ghost use Rattle.fixed_policy.specs.DotProduct.{pairs};
ghost use Rattle.fixed_filter.specs.Replies.{accumulator, filter_reply, reply_map};
ghost use Rattle.fixed_filter.specs.Banks.{IsShape, places_of};

use crate::accumulation::{checked_add_prod, wrapped_add_prod};
use crate::reply::Reply;
use crate::sample::Sample;
use crate::shape::Shape;
use fixed_word::{RawWord, Word};

/// Returns the output of a filter with these taps after these samples, the newest last. It is the same as that of
/// [`output_of`](crate::output_of) after the samples in reverse order. Preconditions: there are as many samples as
/// taps, and each number of fraction bits is at most the width.
#[inline]
pub(crate) fn output_of_window<T: Word, A: Sample<T>, B: Sample<T>>(
    shape: &Shape,
    taps: &[A],
    window: &[B],
) -> Reply<T>
    requires shape { IsShape T.BITS shape.now }
    requires lengths { length taps.now ≡ length window.now }
    ensures { reply_map T.value result ≡ filter_reply T.SIGNED T.BITS (places_of shape.now)
        (pairs (λ a. T.value (A.held a)) (λ b. T.value (B.held b)) taps.now (reverse window.now)) }
{
    let window = &window[..taps.len()];
    let mut sum = T::ZERO;
    for i in 0..taps.len() {
        let tap = taps[i].to_word();
        let back = taps.len() - 1 - i;
        let sample = window[back].to_word();
        match checked_add_prod(sum, tap, sample, shape) {
            Some(next) => sum = next,
            None => return Reply::Overflow(i),
        }
    }
    Reply::Value(sum)
}

/// Returns the sum of the products of these taps and samples, the newest last, each shifted right by `down` and rounded
/// down. The sum is wrapped, and no partial sum is tested, so that the loop is vectorised. Preconditions: there are as
/// many samples as taps, and `down` is at most the width.
#[inline]
pub(crate) fn wrapped_sum_of_window<T: Word, A: Sample<T>, B: Sample<T>>(
    down: u32,
    taps: &[A],
    window: &[B],
) -> T
    requires lengths { length taps.now ≡ length window.now }
    requires down { down ≤ T.BITS }
    ensures { T.value result ≡ wrap T.SIGNED T.BITS (accumulator (pos down)
        (pairs (λ a. T.value (A.held a)) (λ b. T.value (B.held b)) taps.now (reverse window.now)) (length taps.now)) }
{
    let window = &window[..taps.len()];
    let mut sum = T::ZERO;
    for i in 0..taps.len() {
        let tap = taps[i].to_word();
        let back = taps.len() - 1 - i;
        let sample = window[back].to_word();
        sum = wrapped_add_prod(sum, tap, sample, down);
    }
    sum
}
