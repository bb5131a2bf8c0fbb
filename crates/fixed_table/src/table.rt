//! Tables of values.

ghost use Rattle.std.specs.Prelude.{◌≡◌, ◌-◌, ◌*◌, ◌/◌, ◌^◌, ◌<◌, ◌-ℤ◌, Some, None, get_or, length, map, nat_le, pos, if◌then◌else◌};
ghost use Rattle.std.specs.Option.{option_map};
ghost use Rattle.fixed_table.specs.Interpolation.{above_zero, interpolated, is_between_ends};

use crate::distance::units_above;
use crate::line::interpolate_of;
use fixed_num::Fixed;
use fixed_word::{RawWord, Valued, Word};

/// A function by the table of its values. Its arguments have G fraction bits, and its values have F. The first value is
/// that at the point `first`, and each next value is that at a point `2^step` units of the argument further.
#[derive(Drop)]
pub struct Table<'a, X: RawWord, const G: u32, T: Word, const F: u32> {
    /// The first point.
    pub first: Fixed<X, G>,
    /// The binary logarithm of the distance between two points, in units of the argument.
    pub step: u32,
    /// The values at the points.
    pub values: &'a [Fixed<T, F>],
}

impl<'a, X: RawWord, const G: u32, T: Word, const F: u32> Table<'a, X, G, T, F> {
    /// Returns the value at `x` on the line between the points around `x`, rounded down, so that less than one unit is
    /// lost. If `x` lies below the first point, returns the first value, and if `x` lies above the last point, the last
    /// value. Preconditions: there is a value, and `step` is below the width of values.
    pub fn at(&self, x: Fixed<X, G>) -> Fixed<T, F>
        requires some { 0 < length self.now.values.now }
        requires step { self.now.step < T.BITS }
        ensures { T.value result.bits ≡ interpolated self.now.step (map (λ v. T.value v.bits) self.now.values.now)
            (above_zero (X.value x.bits -ℤ X.value self.now.first.bits)) }
    {
        let units = units_above(x.bits, self.first.bits);
        let index = units >> self.step;
        let last = self.values.len() - 1;
        if index >= last as u64 {
            return Fixed {
                bits: value_at(self.values, last),
            };
        }
        let at = index as usize;
        let start = value_at(self.values, at);
        let end = value_at(self.values, at + 1);
        Fixed {
            bits: interpolate_of(start, end, part_past(units, self.step), self.step),
        }
    }

    /// Returns the value at `x`, as `at` does, or `None` if `x` lies below the first point or above the last one.
    /// Preconditions: there is a value, and `step` is below the width of values.
    pub fn checked_at(&self, x: Fixed<X, G>) -> Option<Fixed<T, F>>
        requires some { 0 < length self.now.values.now }
        requires step { self.now.step < T.BITS }
        ensures { option_map (λ v. T.value v.bits) result
            ≡ (if is_between_ends self.now.step (length self.now.values.now) (X.value self.now.first.bits) (X.value x.bits)
            then Some (interpolated self.now.step (map (λ v. T.value v.bits) self.now.values.now)
            (above_zero (X.value x.bits -ℤ X.value self.now.first.bits))) else None) }
    {
        if self.contains(x) {
            Some(self.at(x))
        } else {
            None
        }
    }

    /// Returns whether `x` lies between the first point and the last, or is one of them. Preconditions: there is a
    /// value, and `step` is below the width of values.
    pub fn contains(&self, x: Fixed<X, G>) -> bool
        requires some { 0 < length self.now.values.now }
        requires step { self.now.step < T.BITS }
        ensures { result ≡ is_between_ends self.now.step (length self.now.values.now)
            (X.value self.now.first.bits) (X.value x.bits) }
    {
        let units = units_above(x.bits, self.first.bits);
        let last = self.values.len() as u64 - 1;
        units_above(self.first.bits, x.bits) == 0 && reaches(last, self.step, units)
    }
}

/// Returns whether `last` times `2^step` is at least `units`.
fn reaches(last: u64, step: u32, units: u64) -> bool
    requires { step < 64 }
    ensures { result ≡ nat_le units (last * 2 ^ step) }
{
    let index = units >> step;
    index < last || (index == last && index << step == units)
}

/// Returns the value at the point `at`.
#[inline]
fn value_at<T: RawWord, const F: u32>(values: &[Fixed<T, F>], at: usize) -> T
    requires { at < length values.now }
    ensures { T.value result ≡ get_or (map (λ v. T.value v.bits) values.now) at (pos 0) }
{
    values[at].bits
}

/// Returns how many units are left over from whole steps.
#[inline]
fn part_past(units: u64, step: u32) -> u64
    requires { step < 64 }
    ensures rest { result ≡ units - units / 2 ^ step * 2 ^ step }
    ensures small { result < 2 ^ step }
{
    units - (units >> step << step)
}
