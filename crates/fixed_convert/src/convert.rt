//! Numbers of one format in another.

ghost use Rattle.std.specs.Prelude.{◌≡◌};
ghost use Rattle.fixed_word.specs.Format.{clamp};
ghost use Rattle.fixed_word.specs.Standing.{StandsFor};
ghost use Rattle.fixed_convert.specs.Convert.{exact_convert, rounded_convert};

use crate::castable::Castable;
use crate::moved::{lowered, lowered_clamped, lowered_round, raised};
use fixed_word::{Outcome, Rounding, nearest_of};

/// Returns `a / 2^from` in units of `2^-to`, rounded down.
#[inline]
pub fn convert_of<S: Castable, T: Castable>(a: S, from: u32, to: u32) -> Outcome<T>
    ensures { StandsFor T.value T.SIGNED T.BITS (exact_convert (S.value a) from to) result }
{
    if from <= to {
        raised(a, to - from)
    } else {
        lowered(a, from - to)
    }
}

/// Returns `a / 2^from` in units of `2^-to`, rounded as named.
#[inline]
pub fn convert_round_of<S: Castable, T: Castable>(
    a: S,
    from: u32,
    to: u32,
    rounding: Rounding,
) -> Outcome<T>
    ensures { StandsFor T.value T.SIGNED T.BITS
        (rounded_convert (S.value a) from to rounding) result }
{
    if from <= to {
        raised(a, to - from)
    } else {
        lowered_round(a, from - to, rounding)
    }
}

/// Returns the word nearest to `a / 2^from` in units of `2^-to`, rounded as named.
#[inline]
pub fn saturating_convert_of<S: Castable, T: Castable>(
    a: S,
    from: u32,
    to: u32,
    rounding: Rounding,
) -> T
    ensures { T.value result
        ≡ clamp T.SIGNED T.BITS (rounded_convert (S.value a) from to rounding) }
{
    if from <= to {
        nearest_of(raised(a, to - from))
    } else {
        lowered_clamped(a, from - to, rounding)
    }
}
