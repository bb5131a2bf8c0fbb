//! What conversions take.

ghost use Rattle.std.specs.Prelude.{◌≡◌, ℕ, ℤ, Bool, Option, Some, IsSome, refl, option_map};
ghost use Rattle.fixed_word.specs.Policies.{saturating};
ghost use Rattle.fixed_word.specs.Standing.{IsOutcomeOfRow};
ghost use Rattle.fixed_word.specs.declared.rounding.Rounding.{Rounding};
ghost use Rattle.fixed_word.specs.declared.rounding.Rounding.TheVariants.{Down};
ghost use Rattle.fixed_convert.specs.Convert.{rounded_convert};

use crate::numeric::Numeric;
use fixed_convert::{Castable, convert_round_of, saturating_convert_of};
use fixed_word::{Outcome, Rounding};

/// A value that conversions take: a number of a format, an integer, a float or a `bool`. (`fixed` does not have this
/// trait.)
pub trait Source: Copy {
    /// The rounding of conversions that do not name one.
    const DEFAULT: Rounding;

    ghost DEFAULT: { Rounding };

    // the number in units of 2^-g, rounded, or nothing where there is no number
    ghost exact: { Self → ℕ → Rounding → Option ℤ };

    // the same, held at the ends of a range, for an infinity the end on its side
    ghost saturated: { Bool → ℕ → Self → ℕ → Rounding → Option ℤ };

    /// Returns the outcome of the number in units of `2^-frac`, rounded, or `None` if there is no number, as for a
    /// NaN.
    fn outcome<T: Castable>(self, frac: u32, rounding: Rounding) -> Option<Outcome<T>>
        ensures { IsOutcomeOfRow T.value T.SIGNED T.BITS (exact self frac rounding) result };

    /// Returns the word that is nearest to the number in units of `2^-frac`, rounded.
    fn saturated<T: Castable>(self, frac: u32, rounding: Rounding) -> T
        requires { IsSome (saturated T.SIGNED T.BITS self frac rounding) }
        ensures { Some (T.value result) ≡ saturated T.SIGNED T.BITS self frac rounding };

    ghost saturated_law: { (signed : Bool) (n : ℕ) (x : Self) (g : ℕ) (r : Rounding)
        → IsSome (exact x g r) → saturated signed n x g r ≡ saturating signed n (exact x g r) };
}

impl<N: Numeric> Source for N {
    const DEFAULT: Rounding = Rounding::Down;

    ghost DEFAULT = { Down };

    ghost exact = { λ x g r. Some (rounded_convert (N.units x) N.FRACTION g r) };

    ghost saturated = { λ s n x g r.
        saturating s n (Some (rounded_convert (N.units x) N.FRACTION g r)) };

    #[inline]
    fn outcome<T: Castable>(self, frac: u32, rounding: Rounding) -> Option<Outcome<T>> {
        Some(convert_round_of(self.to_word(), N::FRACTION, frac, rounding))
    }

    #[inline]
    fn saturated<T: Castable>(self, frac: u32, rounding: Rounding) -> T {
        saturating_convert_of(self.to_word(), N::FRACTION, frac, rounding)
    }

    ghost saturated_law = { λ s n x g r h. refl };
}
