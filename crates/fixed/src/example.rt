//! A user's first function, with a contract that uses the definitions of this crate.

ghost use Rattle.std.specs.Prelude.{◌≡◌, Some, option_map, true};
ghost use Rattle.fixed_word.specs.Policies.{checked};
ghost use Rattle.fixed_kernel.specs.Rows.{exact_mul};

use crate::{Checked, FixedI32};

/// Returns a sample times a gain, rounded down, in units of `2^-16`, or `None` if that does not fit.
pub fn scaled(sample: FixedI32<16>, gain: FixedI32<16>) -> Option<FixedI32<16>>
    ensures { option_map (λ x. x.bits) result
        ≡ checked true 32 (Some (exact_mul sample.bits gain.bits 16)) }
{
    sample.checked_mul(gain)
}
