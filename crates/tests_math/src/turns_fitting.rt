//! Callers that know that each sine and each angle fits.

ghost use Rattle.std.specs.Prelude.{◌≡◌, ◌≢◌, pos};
ghost use Rattle.fixed_turns.specs.Angles.{IsAngleOf};
ghost use Rattle.fixed_turns.specs.RadianAngles.{IsRadianAngle};
ghost use Rattle.fixed_turns.specs.Radians.{IsRadianCosine, IsRadianSine};
ghost use Rattle.fixed_turns.specs.Sines.{IsCosine, IsSine};

use fixed_num::FixedI32;
use fixed_turns::laws::{angle_law, cosine_law, radian_angle_law, radian_law, sine_law};
use fixed_turns::{StrictRadians, StrictTurns, UnwrappedRadians, UnwrappedTurns};

/// The sine and the cosine of an angle in turns with 16 fraction bits, in 32 bits.
pub fn sine_and_cosine(angle: FixedI32<16>) -> (FixedI32<16>, FixedI32<16>)
    ensures sine { IsSine 41 angle.bits 16 result.0.bits }
    ensures cosine { IsCosine 41 angle.bits 16 result.1.bits }
{
    sine_law();
    cosine_law();
    (angle.strict_sin_turns(), angle.unwrapped_cos_turns())
}

/// The sine and the cosine of an angle in radians with 16 fraction bits, in 32 bits.
pub fn sine_and_cosine_in_radians(angle: FixedI32<16>) -> (FixedI32<16>, FixedI32<16>)
    ensures sine { IsRadianSine 41 angle.bits 16 result.0.bits }
    ensures cosine { IsRadianCosine 41 angle.bits 16 result.1.bits }
{
    radian_law();
    (angle.strict_sin(), angle.unwrapped_cos())
}

/// The angle of a point with 16 fraction bits, in 32 bits.
pub fn angle_of(y: FixedI32<16>, x: FixedI32<16>) -> FixedI32<16>
    requires { x.bits ≡ pos 0 → y.bits ≢ pos 0 }
    ensures { IsAngleOf 40 x.bits y.bits 16 result.bits }
{
    angle_law();
    y.strict_atan2_turns(x)
}

/// The angle of a point in radians with 16 fraction bits, in 32 bits, twice.
pub fn angle_in_radians(y: FixedI32<16>, x: FixedI32<16>) -> (FixedI32<16>, FixedI32<16>)
    requires { x.bits ≡ pos 0 → y.bits ≢ pos 0 }
    ensures first { IsRadianAngle 41 x.bits y.bits 16 result.0.bits }
    ensures second { IsRadianAngle 41 x.bits y.bits 16 result.1.bits }
{
    radian_angle_law();
    (y.strict_atan2(x), y.unwrapped_atan2(x))
}
