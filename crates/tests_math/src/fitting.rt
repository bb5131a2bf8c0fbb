//! A caller that knows that each logarithm fits.

ghost use Rattle.std.specs.Prelude.{◌≡◌, ◌≤ℤ◌, ◌<ℤ◌, pos};
ghost use Rattle.fixed_elementary.specs.Log2.{IsLog2Of};
ghost use Rattle.fixed_natural.specs.Exps.{IsExp};
ghost use Rattle.fixed_natural.specs.Logs.{IsLn};

use fixed_elementary::laws::log2_law;
use fixed_math::StrictMath;
use fixed_natural::StrictNatural;
use fixed_natural::laws::{exp_law, ln_law};
use fixed_num::FixedI32;

/// The logarithm of a number with 16 fraction bits, in 32 bits, which lies from -16 to 15.
pub fn log2_with_16(number: FixedI32<16>) -> FixedI32<16>
    requires { pos 0 <ℤ number.bits }
    ensures { IsLog2Of 62 number.bits 16 result.bits }
{
    log2_law();
    number.strict_log2()
}

/// The natural logarithm of a number with 16 fraction bits, in 32 bits, which lies from -12 to 11.
pub fn ln_with_16(number: FixedI32<16>) -> FixedI32<16>
    requires { pos 0 <ℤ number.bits }
    ensures { IsLn 24 number.bits 16 result.bits }
{
    ln_law();
    number.strict_ln()
}

/// e to the power of a number that is not above 0, which is 1 at most.
pub fn decay_with_16(number: FixedI32<16>) -> FixedI32<16>
    requires { number.bits ≤ℤ pos 0 }
    ensures { IsExp number.bits 16 result.bits }
{
    exp_law();
    number.strict_exp()
}
