//! Points on the line between two values.

ghost use Rattle.std.specs.Prelude.{◌≡◌, ◌<◌, ◌-◌, ◌^◌, ◌*ℤ◌, pos};
ghost use Rattle.fixed_word.specs.Format.{InRange};
ghost use Rattle.fixed_word.specs.Quotient.{floor_quotient};
ghost use Rattle.fixed_table.specs.Interpolation.{on_line};

use fixed_word::{Arithmetic, Integer, RawWord, Valued, Word};

/// Returns the value on the line from `start` to `end`, `part` of `2^step` units past the start, rounded down. It
/// always fits. Preconditions: `step` is below the width, and `part` is below `2^step`.
pub fn interpolate_of<T: Word>(start: T, end: T, part: u64, step: u32) -> T
    requires step { step < T.BITS }
    requires part { part < 2 ^ step }
    ensures { T.value result ≡ floor_quotient (on_line (T.value start) (T.value end) step part) (2 ^ step) }
{
    if part == 0 {
        return start;
    }
    let rest = power_of_two(step) - part;
    let sum = weighted(start, rest).plus(weighted(end, part));
    T::cut(sum.floored(step))
}

/// Returns a value times a weight that the word holds.
#[inline]
fn weighted<T: Arithmetic>(value: T, weight: u64) -> T::Whole
    requires { weight < 2 ^ (T.BITS - 1) }
    ensures product { T.Whole.value result ≡ T.value value *ℤ pos weight }
    ensures in_range { InRange T.SIGNED T.BITS (T.value value) }
{
    let factor = T::residue(false, weight as u128);
    value.whole().times(factor.whole())
}

/// Returns `2^step`.
#[inline]
fn power_of_two(step: u32) -> u64
    requires { step < 64 }
    ensures { result ≡ 2 ^ step }
{
    1 << step
}
