//! A low-pass filter that never overshoots.

ghost use Rattle.std.specs.Prelude.{◌≡◌, ◌^◌, ◌≤ℤ◌, ◌-ℤ◌, Some, pos, true};
ghost use Rattle.fixed.specs.Format.{clamp};
ghost use Rattle.fixed.specs.Policies.{saturating};
ghost use Rattle.fixed.specs.Rows.{exact_add_prod};
ghost use Rattle.fixed_guide.specs.Between.{IsBetween};

use fixed::{FixedI32, Saturating, SaturatingProducts};

/// A level or a sample, in units of `2^-16`.
pub type Level = FixedI32<16>;

/// A gain, in units of `2^-30`. It has more fraction bits than a level.
pub type Gain = FixedI32<30>;

/// Returns the level plus the product of the gain and the distance from the level to the sample, rounded down. The
/// distance saturates. The new level lies between the old one and the sample. Precondition: the gain is from 0 to 1.
pub fn low_pass(level: Level, sample: Level, gain: Gain) -> Level
    requires from_zero { pos 0 ≤ℤ gain.bits }
    requires to_one { gain.bits ≤ℤ pos (2 ^ 30) }
    ensures between { IsBetween level.bits sample.bits result.bits }
    // The distance saturates, and the product is rounded down.
    ensures step { Some result.bits ≡ saturating true 32 (Some (exact_add_prod level.bits
        (clamp true 32 (sample.bits -ℤ level.bits)) gain.bits 16 16 30)) }
{
    let distance = sample.saturating_sub(level);
    level.saturating_add_prod(distance, gain)
}
