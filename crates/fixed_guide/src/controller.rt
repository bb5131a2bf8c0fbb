//! A step of a controller, which saturates and never wraps.

ghost use Rattle.std.specs.Prelude.{◌≡◌, Some, true};
ghost use Rattle.fixed.specs.Policies.{saturating};
ghost use Rattle.fixed.specs.Rows.{exact_mul_add};

use fixed::{FixedI16, SaturatingMulAdd};

/// An error, a bias or an output, in units of `2^-8`.
pub type Signal = FixedI16<8>;

/// A gain, in units of `2^-12`. It has more fraction bits than a signal.
pub type Gain = FixedI16<12>;

/// Returns the product of the error and the gain, rounded down, plus the bias. If that does not fit, returns the
/// nearest number that fits. The product alone may be out of range.
pub fn output(error: Signal, gain: Gain, bias: Signal) -> Signal
    ensures { Some result.bits ≡ saturating true 16
        (Some (exact_mul_add error.bits gain.bits bias.bits 12)) }
{
    error.saturating_mul_add(gain, bias)
}
