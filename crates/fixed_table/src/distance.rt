//! How far a number lies above another.

ghost use Rattle.std.specs.Prelude.{◌≡◌, ◌-ℤ◌};
ghost use Rattle.fixed_table.specs.Interpolation.{above_zero};

use fixed_word::RawWord;

/// Returns how far `x` lies above `first`, and 0 if it does not.
pub(crate) fn units_above<T: RawWord>(x: T, first: T) -> u64
    ensures { result ≡ above_zero (T.value x -ℤ T.value first) }
{
    match (first.is_below_zero(), x.is_below_zero()) {
        (false, true) => 0,
        (true, false) => first.magnitude() + x.magnitude(),
        (false, false) => x.magnitude().saturating_sub(first.magnitude()),
        (true, true) => first.magnitude().saturating_sub(x.magnitude()),
    }
}
