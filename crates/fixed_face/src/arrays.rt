//! A polynomial, and filters, on arrays of the caller.
#![tactic(auto, unfolding(crate::specs::Answers::at_fraction, crate::specs::Places::with_some, crate::specs::Places::with_as_many, crate::specs::Places::PlaceAnswers, crate::specs::Polynomials::horner_in, crate::specs::Filters::taking, crate::specs::Filters::output_in, crate::specs::Filters::past_after, crate::specs::FilterBlocks::taking_block, crate::specs::FilterBlocks::TakenAnswers, crate::specs::FilterBlocks::EndAnswers))]

ghost use Rattle.std.specs.Prelude.{◌≡◌};
ghost use Rattle.fixed_face.specs.Places.{PlaceAnswers};
ghost use Rattle.fixed_face.specs.Polynomials.{horner_in};
ghost use Rattle.fixed_face.specs.Filters.{filter_of, output_in, past_after};
ghost use Rattle.fixed_face.specs.FilterBlocks.{FilterBlockAnswers, left_of};

use crate::answer::Code;
use fixed_filter::{Reply, Shape, output_of, put_in_front};
use fixed_poly::{PolyReply, horner_of};
use fixed_word::Word;

/// Writes the value at `x` of the polynomial with these coefficients, the lowest first, and returns 0. All numbers are
/// in units of `2^-frac`. Each step, from the highest coefficient on, multiplies by `x`, rounds the product down, and
/// adds the coefficient before.
///
/// Fails with `FractionPastWidth` if `frac` is greater than the width, with `NoElement` if there is no coefficient, and
/// with `OutOfRange` if the value of a step does not fit: `step` is then the index of the coefficient that the first
/// such step adds.
#[inline]
pub fn horner<T: Word>(coefs: &[T], x: T, frac: u32, value: &mut T, step: &mut usize) -> i32
    ensures { PlaceAnswers T.value (horner_in T.value T.SIGNED T.BITS frac x coefs.now)
        (value.old, step.old) (value.new, step.new) result }
{
    if frac > T::BITS {
        return Code::FractionPastWidth.number();
    }
    if coefs.is_empty() {
        return Code::NoElement.number();
    }
    match horner_of(coefs, x, frac) {
        PolyReply::Value(found) => {
            *value = found;
            0
        }
        PolyReply::Overflow(place) => {
            *step = place;
            Code::OutOfRange.number()
        }
    }
}

/// Puts the sample in front of the past samples, which are ordered from the newest to the oldest, drops the oldest,
/// writes the output, and returns 0. The output is the sum of the products of taps and samples, each rounded down to
/// the fraction bits of the output. The shape has the numbers of fraction bits of the output, the taps and the samples.
///
/// Fails with `FractionPastWidth` if one of these numbers is greater than the width, with `NoElement` if there is no
/// tap, and with `CountsDiffer` if there are not as many past samples as taps: the past samples are then unchanged.
/// Fails with `OutOfRange` if a partial sum does not fit: `tap` is then the index of the first such tap, and the sample
/// is in front.
#[inline]
pub fn filter<T: Word>(
    taps: &[T],
    past: &mut [T],
    sample: T,
    shape: Shape,
    output: &mut T,
    tap: &mut usize,
) -> i32
    ensures answer { PlaceAnswers T.value
        (output_in T.value T.SIGNED T.BITS shape sample (filter_of taps.now past.old))
        (output.old, tap.old) (output.new, tap.new) result }
    ensures past { past.new ≡ past_after T.BITS shape sample (filter_of taps.now past.old) }
{
    if shape.out_frac > T::BITS || shape.coef_frac > T::BITS || shape.sample_frac > T::BITS {
        return Code::FractionPastWidth.number();
    }
    if taps.is_empty() {
        return Code::NoElement.number();
    }
    if taps.len() != past.len() {
        return Code::CountsDiffer.number();
    }
    put_in_front(sample, past);
    match output_of(&shape, taps, past) {
        Reply::Value(found) => {
            *output = found;
            0
        }
        Reply::Overflow(place) => {
            *tap = place;
            Code::OutOfRange.number()
        }
    }
}

/// Filters a block of samples, the oldest first, writes the output after each, and returns 0: as many steps of
/// [`filter`].
///
/// Fails with `FractionPastWidth` if a number of fraction bits is greater than the width, with `NoElement` if there is
/// no tap, and with `CountsDiffer` if there are not as many past samples as taps, or not as many outputs as samples:
/// nothing is then written. Fails with `OutOfRange` if a partial sum does not fit: `sample` is then the index of the
/// first such sample, which is in front of the past samples, and `tap` the index of its first such tap. The outputs
/// from there on are unchanged.
#[inline]
pub fn filter_block<T: Word>(
    taps: &[T],
    past: &mut [T],
    input: &[T],
    output: &mut [T],
    shape: Shape,
    sample: &mut usize,
    tap: &mut usize,
) -> i32
    ensures { FilterBlockAnswers T.value T.SIGNED T.BITS shape taps.now input.now
        (left_of past.old output.old sample.old tap.old) (left_of past.new output.new sample.new tap.new) result }
{
    if shape.out_frac > T::BITS || shape.coef_frac > T::BITS || shape.sample_frac > T::BITS {
        return Code::FractionPastWidth.number();
    }
    if taps.is_empty() {
        return Code::NoElement.number();
    }
    if taps.len() != past.len() || input.len() != output.len() {
        return Code::CountsDiffer.number();
    }
    match fixed_filter::filter_block(&shape, taps, past, input, output) {
        Ok(()) => 0,
        Err(stop) => {
            *sample = stop.sample;
            *tap = stop.tap;
            Code::OutOfRange.number()
        }
    }
}
