//! Finite filters over typed numbers.

ghost use Rattle.std.specs.Prelude.{◌≡◌, ◌<◌, ◌≤◌, IfErr, drop, length, map, replicate, take};
ghost use Rattle.fixed_filter.specs.Replies.{as_result, reply_map, result_map};
ghost use Rattle.fixed_filter.specs.Banks.{fresh, places_of, reply_of, shape_with, with_sample};
ghost use Rattle.fixed_filter.specs.Blocks.{AreReplies, StopsAt, outputs_of, past_after, reply_to, taken_of};

use crate::block::{block, step};
use crate::overflow::{BlockOverflow, TapOverflow};
use crate::reply::Reply;
use crate::shape::Shape;
use fixed_num::Fixed;
use fixed_word::{RawWord, Word};
use std::marker::Model;

/// A finite filter over typed numbers. Its taps have TAP fraction bits, its samples IN, and its outputs OUT. The caller
/// lends the slice of past samples, and the filter does not allocate. Contracts see it as the channel of a `Bank` with
/// the same words.
#[derive(Drop)]
pub struct Fir<'t, 'p, T: Word, const OUT: u32, const TAP: u32, const IN: u32> {
    taps: &'t [Fixed<T, TAP>],
    past: &'p mut [Fixed<T, IN>],
}

impl<'t, 'p, T: Word, const OUT: u32, const TAP: u32, const IN: u32> Model
    for Fir<'t, 'p, T, OUT, TAP, IN> {
    ghost use Rattle.std.specs.Prelude.{◌≡◌, ◌<◌, ◌≤◌, length, map};
    ghost use Rattle.fixed_filter.specs.Banks.{Filter};

    ghost Value = { Filter T };

    ghost view = { λ f. record {
      taps = map (λ t. t.bits) f.taps.now;
      past = map (λ x. x.bits) f.past.now;
    } };

    ghost invariant = { λ f. (length f.taps.now ≡ length f.past.now) × (0 < length f.taps.now)
        × (OUT ≤ T.BITS) × (TAP ≤ T.BITS) × (IN ≤ T.BITS) };
}

impl<'t, 'p, T: Word, const OUT: u32, const TAP: u32, const IN: u32> Fir<'t, 'p, T, OUT, TAP, IN> {
    /// Returns the filter with these taps and past samples. The first tap is that of the newest sample, which is the
    /// first of the past samples. Preconditions: there is a tap, there are as many past samples as taps, and OUT, TAP
    /// and IN are at most the width.
    pub fn new(taps: &'t [Fixed<T, TAP>], past: &'p mut [Fixed<T, IN>]) -> Self
        requires some { 0 < length taps.now }
        requires lengths { length taps.now ≡ length past.old }
        requires output { OUT ≤ T.BITS }
        requires tap { TAP ≤ T.BITS }
        requires sample { IN ≤ T.BITS }
        ensures taps { result.taps ≡ map (λ t. t.bits) taps.now }
        ensures past { result.past ≡ map (λ x. x.bits) past.old }
    {
        Fir { taps, past }
    }

    /// Takes a sample and returns the output: the sum of the products of taps and past samples, each rounded down. If a
    /// partial sum does not fit, this fails with the index of the first such tap. In either case, the past samples have
    /// the new one in front, and the oldest one is dropped. By [`output_law`](crate::laws::output_law), the output lies
    /// at or below the exact sum, by less than a unit for each tap.
    pub fn push(&mut self, sample: Fixed<T, IN>) -> Result<Fixed<T, OUT>, TapOverflow>
        ensures held { self.new ≡ with_sample sample.bits self.old }
        ensures reply { result_map (λ y. T.value y.bits) result
            ≡ as_result (reply_of T.value T.SIGNED T.BITS (shape_with OUT TAP IN) self.new) }
    {
        let shape = Self::shape();
        numbered(step(&shape, self.taps, self.past, sample))
    }

    /// Takes the samples of a block, the oldest first, and writes the output after each sample, as [`push`](Self::push)
    /// returns it. If an output does not fit, this fails with the indices of its sample and of the first tap whose
    /// partial sum does not fit. Then the filter has taken that sample and those before it, and the outputs from that
    /// sample on are unchanged. Precondition: there are as many outputs as samples.
    pub fn push_block(
        &mut self,
        input: &[Fixed<T, IN>],
        output: &mut [Fixed<T, OUT>],
    ) -> Result<(), BlockOverflow>
        requires { length input.now ≡ length output.old }
        ensures outputs { let reply = reply_to T.value T.value T.SIGNED T.BITS (places_of (shape_with OUT TAP IN)) self.old.taps
            in AreReplies reply (λ y. T.value y.bits) self.old.past (map (λ x. x.bits) input.now) output.new
            (outputs_of (length input.now) result) }
        ensures unchanged { let done = outputs_of (length input.now) result
            in drop done output.new ≡ drop done output.old }
        ensures taps { self.new.taps ≡ self.old.taps }
        ensures past { self.new.past
            ≡ past_after self.old.past (take (taken_of (length input.now) result) (map (λ x. x.bits) input.now)) }
        ensures stop { let reply = reply_to T.value T.value T.SIGNED T.BITS (places_of (shape_with OUT TAP IN)) self.old.taps
            in IfErr result (StopsAt reply self.old.past (map (λ x. x.bits) input.now)) }
    {
        let shape = Self::shape();
        block(&shape, self.taps, self.past, input, output)
    }

    /// Sets each past sample to 0. The taps are unchanged.
    pub fn reset(&mut self)
        ensures { self.new ≡ fresh T.ZERO self.old.taps }
    {
        clear(self.past);
    }

    /// Returns the numbers of fraction bits.
    fn shape() -> Shape
        ensures { result ≡ shape_with OUT TAP IN }
    {
        Shape {
            out_frac: OUT,
            coef_frac: TAP,
            sample_frac: IN,
        }
    }
}

/// Returns a reply as a result: a number, or an error with the tap.
#[inline]
fn numbered<T: RawWord, const F: u32>(reply: Reply<T>) -> Result<Fixed<T, F>, TapOverflow>
    ensures { result_map (λ y. T.value y.bits) result ≡ as_result (reply_map T.value reply) }
{
    match reply {
        Reply::Value(bits) => Ok(Fixed { bits }),
        Reply::Overflow(tap) => Err(TapOverflow { tap }),
    }
}

/// Sets each sample to 0.
fn clear<T: RawWord, const F: u32>(past: &mut [Fixed<T, F>])
    ensures { past.new ≡ replicate (length past.old) (record { bits = T.ZERO }) }
{
    for i in 0..past.len() {
        past[i] = Fixed { bits: T::ZERO };
    }
}
