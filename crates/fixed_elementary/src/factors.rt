//! Factors that bring a mantissa near 1, with their logarithms.

ghost use Rattle.std.specs.Prelude.{◌≤◌, ◌<◌, ◌+◌, ◌*◌, ◌^◌};
ghost use Rattle.fixed_elementary.specs.inside.Reduced.{IsFactor, IsNearFactor};

use crate::factor_table::FACTORS;
use crate::log_table::LOGS;

/// A factor in units of `2^-63`, and minus its logarithm in units of `2^-126`.
#[derive(Clone, Copy)]
pub(crate) struct Factor {
    pub factor: u64,
    pub log: u128,
}

/// Returns the factor for the mantissas from `1 + digit / 128^(group+1)` up to where the next digit begins. Its product
/// by such a mantissa is at least 1, and hardly above `1 + 1 / 128^(group+1)`.
#[inline]
pub(crate) fn factor_of(digit: u64, group: u32) -> Factor
    requires group { group < 6 }
    requires digit { digit < 128 }
    ensures near { IsNearFactor (128 ^ (group + 1)) digit result.factor }
    ensures log { IsFactor 126 result.factor result.log }
{
    let row = 128 * group as usize + digit as usize;
    Factor {
        factor: FACTORS[row],
        log: LOGS[row],
    }
}
