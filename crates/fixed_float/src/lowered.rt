//! Magnitudes shifted right, with a rounding.

ghost use Rattle.std.specs.Prelude.{◌≡◌, ◌+◌, ◌*◌, ◌/◌, ◌%◌, ◌<◌, ◌≤◌, ◌^◌};
ghost use Rattle.fixed_kernel.specs.inside.Steps.{rounding_step};

use fixed_word::Rounding;

/// Returns the magnitude of a number over `2^by`, rounded as named. The number is negative if `below_zero`.
#[inline]
pub(crate) fn lowered(below_zero: bool, magnitude: u64, by: u32, rounding: Rounding) -> u64
    requires { by < 64 }
    ensures { result ≡ magnitude / 2 ^ by
        + rounding_step rounding below_zero (magnitude / 2 ^ by) (magnitude % 2 ^ by) (2 ^ by) }
{
    let unit = 1 << by;
    let (quotient, remainder) = (magnitude >> by, magnitude % unit);
    quotient + step(rounding, below_zero, quotient, remainder, unit)
}

/// Returns 1 if the rounding makes the magnitude greater than `quotient`, and otherwise 0.
#[inline]
fn step(rounding: Rounding, below_zero: bool, quotient: u64, remainder: u64, unit: u64) -> u64
    requires { 2 * remainder + 1 < 2 ^ 64 }
    ensures { result ≡ rounding_step rounding below_zero quotient remainder unit }
{
    let past = match rounding {
        Rounding::Down => below_zero && remainder > 0,
        Rounding::Zero => false,
        Rounding::Even => 2 * remainder + quotient % 2 > unit,
    };
    past as u64
}
