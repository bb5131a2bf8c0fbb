//! Filters over blocks of samples.

ghost use Rattle.std.specs.Prelude.{◌≡◌, ◌+◌, ◌-◌, ◌<◌, ◌≤◌, ◌∷◌, IfErr, IfSome, drop, get_or, length, reverse, slice_range, take};
ghost use Rattle.fixed_filter.specs.Replies.{reply_map};
ghost use Rattle.fixed_filter.specs.Banks.{IsShape, places_of};
ghost use Rattle.fixed_filter.specs.Blocks.{AreReplies, StopsAt, outputs_of, past_after, reply_to, taken_of};
ghost use Rattle.fixed_filter.specs.inside.Headroom.{IsUntested};

use crate::accumulation::output_of_past;
use crate::headroom::untested_places;
use crate::overflow::BlockOverflow;
use crate::reply::Reply;
use crate::sample::Sample;
use crate::samples::put_in_front;
use crate::shape::Shape;
use crate::window::{output_of_window, wrapped_sum_of_window};
use fixed_word::{RawWord, Word};

/// Filters a block of samples, the oldest first, and writes the output after each sample. For each sample this does the
/// same as [`put_in_front`](crate::put_in_front) and [`output_of`](crate::output_of): `past` takes the sample, and
/// keeps the newest samples, the newest first. Taps are in units of `2^-coef_frac`, samples of `2^-sample_frac`, and
/// outputs of `2^-out_frac`. If an output does not fit, this fails with the indices of its sample and of the first tap
/// whose partial sum does not fit. Then `past` has taken that sample and those before it, and the outputs from that
/// sample on are unchanged. Without taps, each output is 0. Preconditions: there are as many past samples as taps, and
/// as many outputs as samples; each number of fraction bits is at most the width.
pub fn filter_block<T: Word>(
    shape: &Shape,
    taps: &[T],
    past: &mut [T],
    input: &[T],
    output: &mut [T],
) -> Result<(), BlockOverflow>
    requires shape { IsShape T.BITS shape.now }
    requires lengths { length taps.now ≡ length past.old }
    requires room { length input.now ≡ length output.old }
    ensures outputs { let reply = reply_to T.value T.value T.SIGNED T.BITS (places_of shape.now) taps.now
        in AreReplies reply T.value past.old input.now output.new (outputs_of (length input.now) result) }
    ensures unchanged { let done = outputs_of (length input.now) result
        in drop done output.new ≡ drop done output.old }
    ensures past { past.new ≡ past_after past.old (take (taken_of (length input.now) result) input.now) }
    ensures stop { let reply = reply_to T.value T.value T.SIGNED T.BITS (places_of shape.now) taps.now
        in IfErr result (StopsAt reply past.old input.now) }
{
    block(shape, taps, past, input, output)
}

/// Does the same as `filter_block`, over types that hold the words. Preconditions: those of `filter_block`.
#[inline]
pub(crate) fn block<T: Word, A: Sample<T>, B: Sample<T>, C: Sample<T>>(
    shape: &Shape,
    taps: &[A],
    past: &mut [B],
    input: &[B],
    output: &mut [C],
) -> Result<(), BlockOverflow>
    requires shape { IsShape T.BITS shape.now }
    requires lengths { length taps.now ≡ length past.old }
    requires room { length input.now ≡ length output.old }
    ensures outputs { let reply = reply_to (λ a. T.value (A.held a)) (λ b. T.value (B.held b)) T.SIGNED T.BITS (places_of shape.now) taps.now
        in AreReplies reply (λ c. T.value (C.held c)) past.old input.now output.new (outputs_of (length input.now) result) }
    ensures unchanged { let done = outputs_of (length input.now) result
        in drop done output.new ≡ drop done output.old }
    ensures past { past.new ≡ past_after past.old (take (taken_of (length input.now) result) input.now) }
    ensures stop { let reply = reply_to (λ a. T.value (A.held a)) (λ b. T.value (B.held b)) T.SIGNED T.BITS (places_of shape.now) taps.now
        in IfErr result (StopsAt reply past.old input.now) }
{
    let result = outputs(shape, taps, past, input, output);
    let count = taken(&result, input.len());
    keep_newest(&input[..count], past);
    result
}

/// Returns how many samples of a block of `count` samples were taken. Precondition: the sample of an error is below
/// `count`.
fn taken(end: &Result<(), BlockOverflow>, count: usize) -> usize
    requires { IfErr end.now (λ stop. stop.sample < count) }
    ensures value { result ≡ taken_of count end.now }
    ensures most { result ≤ count }
{
    match *end {
        Ok(()) => count,
        Err(stop) => stop.sample + 1,
    }
}

/// Writes the outputs of a block, as `block` does. But `past` takes only the first samples, as many as it has room for.
fn outputs<T: Word, A: Sample<T>, B: Sample<T>, C: Sample<T>>(
    shape: &Shape,
    taps: &[A],
    past: &mut [B],
    input: &[B],
    output: &mut [C],
) -> Result<(), BlockOverflow>
    requires shape { IsShape T.BITS shape.now }
    requires lengths { length taps.now ≡ length past.old }
    requires room { length input.now ≡ length output.old }
    ensures outputs { let reply = reply_to (λ a. T.value (A.held a)) (λ b. T.value (B.held b)) T.SIGNED T.BITS (places_of shape.now) taps.now
        in AreReplies reply (λ c. T.value (C.held c)) past.old input.now output.new (outputs_of (length input.now) result) }
    ensures unchanged { let done = outputs_of (length input.now) result
        in drop done output.new ≡ drop done output.old }
    ensures past { past.new
        ≡ past_after past.old (take (length past.old) (take (taken_of (length input.now) result) input.now)) }
    ensures stop { let reply = reply_to (λ a. T.value (A.held a)) (λ b. T.value (B.held b)) T.SIGNED T.BITS (places_of shape.now) taps.now
        in IfErr result (StopsAt reply past.old input.now) }
    ensures within { IfErr result (λ stop. stop.sample < length input.now) }
{
    let untested = untested_places(shape, taps, input);
    for i in 0..input.len() {
        match output_at(shape, untested, taps, past, input, i) {
            Reply::Value(word) => output[i] = C::from_word(word),
            Reply::Overflow(tap) => return Err(BlockOverflow { sample: i, tap }),
        }
    }
    Ok(())
}

/// Returns the output after sample `i` of a block. If `i` is below the number of taps, `past` takes the sample, and the
/// output is that of the taps and `past`. Otherwise the taps reach only samples of the block, and `past` is unchanged;
/// no partial sum is tested where `untested` is that of the block. Preconditions: `i` is below the number of samples,
/// there are as many past samples as taps, and each number of fraction bits is at most the width.
#[inline]
fn output_at<T: Word, A: Sample<T>, B: Sample<T>>(
    shape: &Shape,
    untested: Option<u32>,
    taps: &[A],
    past: &mut [B],
    input: &[B],
    i: usize,
) -> Reply<T>
    requires shape { IsShape T.BITS shape.now }
    requires lengths { length taps.now ≡ length past.old }
    requires index { i < length input.now }
    requires untested { IfSome untested (IsUntested (λ a. T.value (A.held a)) (λ b. T.value (B.held b)) T.SIGNED T.BITS
        (places_of shape.now) taps.now input.now) }
    ensures near { i < length taps.now
        → (sample : B) → sample ≡ get_or input.now i sample → past.new ≡ sample ∷ take (length past.old - 1) past.old }
    ensures near_reply { i < length taps.now → reply_map T.value result
        ≡ reply_to (λ a. T.value (A.held a)) (λ b. T.value (B.held b)) T.SIGNED T.BITS (places_of shape.now) taps.now past.new }
    ensures far { length taps.now ≤ i → past.new ≡ past.old }
    ensures far_reply { length taps.now ≤ i → reply_map T.value result
        ≡ reply_to (λ a. T.value (A.held a)) (λ b. T.value (B.held b)) T.SIGNED T.BITS (places_of shape.now) taps.now
        (reverse (slice_range input.now (i + 1 - length taps.now) (i + 1))) }
{
    if i < taps.len() {
        step(shape, taps, past, input[i])
    } else {
        let window = &input[i + 1 - taps.len()..i + 1];
        match untested {
            Some(down) => Reply::Value(wrapped_sum_of_window(down, taps, window)),
            None => output_of_window(shape, taps, window),
        }
    }
}

/// Puts a sample in front of the past samples, drops the oldest one, and returns the output. Preconditions: there is a
/// tap, there are as many past samples as taps, and each number of fraction bits is at most the width.
#[inline]
pub(crate) fn step<T: Word, A: Sample<T>, B: Sample<T>>(
    shape: &Shape,
    taps: &[A],
    past: &mut [B],
    sample: B,
) -> Reply<T>
    requires shape { IsShape T.BITS shape.now }
    requires some { 0 < length past.old }
    requires lengths { length taps.now ≡ length past.old }
    ensures past { past.new ≡ sample ∷ take (length past.old - 1) past.old }
    ensures reply { reply_map T.value result
        ≡ reply_to (λ a. T.value (A.held a)) (λ b. T.value (B.held b)) T.SIGNED T.BITS (places_of shape.now) taps.now past.new }
{
    put_in_front(sample, past);
    output_of_past(shape, taps, past)
}

/// Replaces the past samples by the newest of these samples, the newest first, if there are more of these than past
/// samples. Otherwise `past` is unchanged.
fn keep_newest<B: Copy>(samples: &[B], past: &mut [B])
    ensures newest { length past.old < length samples.now
        → past.new ≡ reverse (drop (length samples.now - length past.old) samples.now) }
    ensures kept { length samples.now ≤ length past.old → past.new ≡ past.old }
{
    if past.len() < samples.len() {
        past.copy_from_slice(&samples[samples.len() - past.len()..]);
        past.reverse();
    }
}
