//! Conversions between floats and numbers of a format or integers.

ghost use Rattle.std.specs.Prelude.{◌≡◌, ◌≤◌};
ghost use Rattle.fixed_word.specs.declared.rounding.Rounding.TheVariants.{Even};
ghost use Rattle.fixed_float.specs.Rows.{nearest_float, saturated_float, units_of_float};
ghost use Rattle.fixed_cast.specs.inside.Saturated.{saturated_is};

use crate::numeric::Numeric;
use crate::source::Source;
use fixed_convert::Castable;
use fixed_float::{Binary, from_float_round_of, saturating_float_of, to_float_of};
use fixed_word::{Outcome, Rounding};

impl Source for f32 {
    const DEFAULT: Rounding = Rounding::Even;

    ghost DEFAULT = { Even };

    ghost exact = { units_of_float };

    ghost saturated = { saturated_float };

    #[inline]
    fn outcome<T: Castable>(self, frac: u32, rounding: Rounding) -> Option<Outcome<T>> {
        from_float_round_of(self, frac, rounding)
    }

    #[inline]
    fn saturated<T: Castable>(self, frac: u32, rounding: Rounding) -> T {
        saturating_float_of(self, frac, rounding)
    }

    ghost saturated_law = { saturated_is };
}

impl Source for f64 {
    const DEFAULT: Rounding = Rounding::Even;

    ghost DEFAULT = { Even };

    ghost exact = { units_of_float };

    ghost saturated = { saturated_float };

    #[inline]
    fn outcome<T: Castable>(self, frac: u32, rounding: Rounding) -> Option<Outcome<T>> {
        from_float_round_of(self, frac, rounding)
    }

    #[inline]
    fn saturated<T: Castable>(self, frac: u32, rounding: Rounding) -> T {
        saturating_float_of(self, frac, rounding)
    }

    ghost saturated_law = { saturated_is };
}

/// Conversions of numbers of a format and integers to floats. (In `fixed` these are calls of `to_num`.)
pub trait ToFloat: Numeric {
    /// Returns the nearest float, ties to even.
    fn to_float<X: Binary>(self) -> X
        requires { Self.FRACTION ≤ Self.Word.BITS }
        ensures { X.float result ≡ nearest_float X.format (Self.units self) Self.FRACTION };
}

impl<N: Numeric> ToFloat for N {
    #[inline]
    fn to_float<X: Binary>(self) -> X {
        to_float_of(self.to_word(), N::FRACTION)
    }
}
