//! Conversions from `bool`: `true` is 1 and `false` is 0.

ghost use Rattle.std.specs.Prelude.{Some, refl, pos, if◌then◌else◌};
ghost use Rattle.fixed_word.specs.Policies.{saturating};
ghost use Rattle.fixed_word.specs.declared.rounding.Rounding.TheVariants.{Down};
ghost use Rattle.fixed_convert.specs.Convert.{rounded_convert};

use crate::source::Source;
use fixed_convert::Castable;
use fixed_word::{Outcome, Rounding};

impl Source for bool {
    const DEFAULT: Rounding = Rounding::Down;

    ghost DEFAULT = { Down };

    ghost exact = { λ x g r. Some (rounded_convert (pos (if x then 1 else 0)) 0 g r) };

    ghost saturated = { λ s n x g r.
        saturating s n (Some (rounded_convert (pos (if x then 1 else 0)) 0 g r)) };

    #[inline]
    fn outcome<T: Castable>(self, frac: u32, rounding: Rounding) -> Option<Outcome<T>> {
        u8::from(self).outcome(frac, rounding)
    }

    #[inline]
    fn saturated<T: Castable>(self, frac: u32, rounding: Rounding) -> T {
        u8::from(self).saturated(frac, rounding)
    }

    ghost saturated_law = { λ s n x g r h. refl };
}
