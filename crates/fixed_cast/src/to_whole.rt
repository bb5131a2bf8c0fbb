//! Rounding to whole numbers.

ghost use Rattle.std.specs.Prelude.{◌≡◌, ◌≤◌, Some, option_map};
ghost use Rattle.fixed_word.specs.Format.{InRange};
ghost use Rattle.fixed_word.specs.Policies.{checked, overflowing, saturating, wrapping};
ghost use Rattle.fixed_convert.specs.WholeNumber.{exact_ceil, exact_floor, exact_frac, exact_round, exact_round_ties_even};

use crate::beside::{
    Beside, checked_whole, exact_whole, overflowing_whole, saturating_whole, strict_whole,
    wrapping_frac, wrapping_whole,
};
use crate::numeric::Numeric;
use fixed_convert::Castable;
use fixed_num::Fixed;

/// Rounding to whole numbers of the number's own format, by each policy. Precondition of each call: the fraction is
/// at most the width.
pub trait ToWhole: Numeric {
    /// Returns the largest whole number that is at most the number, wrapped. If every bit is a fraction bit, it is 0,
    /// also for a negative number.
    fn int(self) -> Self
        requires { Self.FRACTION ≤ Self.Word.BITS }
        ensures { Some (Self.units result) ≡ wrapping Self.Word.SIGNED Self.Word.BITS
            (Some (exact_floor (Self.units self) Self.FRACTION)) };

    /// Returns the number minus `floor`, wrapped.
    fn frac(self) -> Self
        requires { Self.FRACTION ≤ Self.Word.BITS }
        ensures { Some (Self.units result) ≡ wrapping Self.Word.SIGNED Self.Word.BITS
            (Some (exact_frac (Self.units self) Self.FRACTION)) };

    /// Returns the largest whole number that is at most the number. Precondition: it fits.
    fn floor(self) -> Self
        requires fraction { Self.FRACTION ≤ Self.Word.BITS }
        requires fits { InRange Self.Word.SIGNED Self.Word.BITS (exact_floor (Self.units self) Self.FRACTION) }
        ensures { Self.units result ≡ exact_floor (Self.units self) Self.FRACTION };

    /// Returns the smallest whole number that is at least the number. Precondition: it fits.
    fn ceil(self) -> Self
        requires fraction { Self.FRACTION ≤ Self.Word.BITS }
        requires fits { InRange Self.Word.SIGNED Self.Word.BITS (exact_ceil (Self.units self) Self.FRACTION) }
        ensures { Self.units result ≡ exact_ceil (Self.units self) Self.FRACTION };

    /// Returns the nearest whole number, ties away from 0. Precondition: it fits.
    fn round(self) -> Self
        requires fraction { Self.FRACTION ≤ Self.Word.BITS }
        requires fits { InRange Self.Word.SIGNED Self.Word.BITS (exact_round (Self.units self) Self.FRACTION) }
        ensures { Self.units result ≡ exact_round (Self.units self) Self.FRACTION };

    /// Returns the nearest whole number, ties to even. Precondition: it fits.
    fn round_ties_even(self) -> Self
        requires fraction { Self.FRACTION ≤ Self.Word.BITS }
        requires fits { InRange Self.Word.SIGNED Self.Word.BITS (exact_round_ties_even (Self.units self) Self.FRACTION) }
        ensures { Self.units result ≡ exact_round_ties_even (Self.units self) Self.FRACTION };

    /// Returns the largest whole number that is at most the number, or `None` if it does not fit.
    fn checked_floor(self) -> Option<Self>
        requires { Self.FRACTION ≤ Self.Word.BITS }
        ensures { option_map Self.units result
            ≡ checked Self.Word.SIGNED Self.Word.BITS (Some (exact_floor (Self.units self) Self.FRACTION)) };

    /// Returns the smallest whole number that is at least the number, or `None` if it does not fit.
    fn checked_ceil(self) -> Option<Self>
        requires { Self.FRACTION ≤ Self.Word.BITS }
        ensures { option_map Self.units result
            ≡ checked Self.Word.SIGNED Self.Word.BITS (Some (exact_ceil (Self.units self) Self.FRACTION)) };

    /// Returns the nearest whole number, ties away from 0, or `None` if it does not fit.
    fn checked_round(self) -> Option<Self>
        requires { Self.FRACTION ≤ Self.Word.BITS }
        ensures { option_map Self.units result
            ≡ checked Self.Word.SIGNED Self.Word.BITS (Some (exact_round (Self.units self) Self.FRACTION)) };

    /// Returns the nearest whole number, ties to even, or `None` if it does not fit.
    fn checked_round_ties_even(self) -> Option<Self>
        requires { Self.FRACTION ≤ Self.Word.BITS }
        ensures { option_map Self.units result
            ≡ checked Self.Word.SIGNED Self.Word.BITS (Some (exact_round_ties_even (Self.units self) Self.FRACTION)) };

    /// Returns the largest whole number that is at most the number, wrapped, and whether it does not fit.
    fn overflowing_floor(self) -> (Self, bool)
        requires { Self.FRACTION ≤ Self.Word.BITS }
        ensures { Some (Self.units result.0, result.1)
            ≡ overflowing Self.Word.SIGNED Self.Word.BITS (Some (exact_floor (Self.units self) Self.FRACTION)) };

    /// Returns the smallest whole number that is at least the number, wrapped, and whether it does not fit.
    fn overflowing_ceil(self) -> (Self, bool)
        requires { Self.FRACTION ≤ Self.Word.BITS }
        ensures { Some (Self.units result.0, result.1)
            ≡ overflowing Self.Word.SIGNED Self.Word.BITS (Some (exact_ceil (Self.units self) Self.FRACTION)) };

    /// Returns the nearest whole number, ties away from 0, wrapped, and whether it does not fit.
    fn overflowing_round(self) -> (Self, bool)
        requires { Self.FRACTION ≤ Self.Word.BITS }
        ensures { Some (Self.units result.0, result.1)
            ≡ overflowing Self.Word.SIGNED Self.Word.BITS (Some (exact_round (Self.units self) Self.FRACTION)) };

    /// Returns the nearest whole number, ties to even, wrapped, and whether it does not fit.
    fn overflowing_round_ties_even(self) -> (Self, bool)
        requires { Self.FRACTION ≤ Self.Word.BITS }
        ensures { Some (Self.units result.0, result.1)
            ≡ overflowing Self.Word.SIGNED Self.Word.BITS (Some (exact_round_ties_even (Self.units self) Self.FRACTION)) };

    /// Returns the largest whole number that is at most the number, wrapped.
    fn wrapping_floor(self) -> Self
        requires { Self.FRACTION ≤ Self.Word.BITS }
        ensures { Some (Self.units result)
            ≡ wrapping Self.Word.SIGNED Self.Word.BITS (Some (exact_floor (Self.units self) Self.FRACTION)) };

    /// Returns the smallest whole number that is at least the number, wrapped.
    fn wrapping_ceil(self) -> Self
        requires { Self.FRACTION ≤ Self.Word.BITS }
        ensures { Some (Self.units result)
            ≡ wrapping Self.Word.SIGNED Self.Word.BITS (Some (exact_ceil (Self.units self) Self.FRACTION)) };

    /// Returns the nearest whole number, ties away from 0, wrapped.
    fn wrapping_round(self) -> Self
        requires { Self.FRACTION ≤ Self.Word.BITS }
        ensures { Some (Self.units result)
            ≡ wrapping Self.Word.SIGNED Self.Word.BITS (Some (exact_round (Self.units self) Self.FRACTION)) };

    /// Returns the nearest whole number, ties to even, wrapped.
    fn wrapping_round_ties_even(self) -> Self
        requires { Self.FRACTION ≤ Self.Word.BITS }
        ensures { Some (Self.units result)
            ≡ wrapping Self.Word.SIGNED Self.Word.BITS (Some (exact_round_ties_even (Self.units self) Self.FRACTION)) };

    /// Returns the largest whole number that is at most the number, saturated.
    fn saturating_floor(self) -> Self
        requires { Self.FRACTION ≤ Self.Word.BITS }
        ensures { Some (Self.units result)
            ≡ saturating Self.Word.SIGNED Self.Word.BITS (Some (exact_floor (Self.units self) Self.FRACTION)) };

    /// Returns the smallest whole number that is at least the number, saturated.
    fn saturating_ceil(self) -> Self
        requires { Self.FRACTION ≤ Self.Word.BITS }
        ensures { Some (Self.units result)
            ≡ saturating Self.Word.SIGNED Self.Word.BITS (Some (exact_ceil (Self.units self) Self.FRACTION)) };

    /// Returns the nearest whole number, ties away from 0, saturated.
    fn saturating_round(self) -> Self
        requires { Self.FRACTION ≤ Self.Word.BITS }
        ensures { Some (Self.units result)
            ≡ saturating Self.Word.SIGNED Self.Word.BITS (Some (exact_round (Self.units self) Self.FRACTION)) };

    /// Returns the nearest whole number, ties to even, saturated.
    fn saturating_round_ties_even(self) -> Self
        requires { Self.FRACTION ≤ Self.Word.BITS }
        ensures { Some (Self.units result)
            ≡ saturating Self.Word.SIGNED Self.Word.BITS (Some (exact_round_ties_even (Self.units self) Self.FRACTION)) };

    /// Returns the largest whole number that is at most the number. Precondition: it fits.
    fn strict_floor(self) -> Self
        requires fraction { Self.FRACTION ≤ Self.Word.BITS }
        requires fits { InRange Self.Word.SIGNED Self.Word.BITS (exact_floor (Self.units self) Self.FRACTION) }
        ensures { Self.units result ≡ exact_floor (Self.units self) Self.FRACTION };

    /// Returns the smallest whole number that is at least the number. Precondition: it fits.
    fn strict_ceil(self) -> Self
        requires fraction { Self.FRACTION ≤ Self.Word.BITS }
        requires fits { InRange Self.Word.SIGNED Self.Word.BITS (exact_ceil (Self.units self) Self.FRACTION) }
        ensures { Self.units result ≡ exact_ceil (Self.units self) Self.FRACTION };

    /// Returns the nearest whole number, ties away from 0. Precondition: it fits.
    fn strict_round(self) -> Self
        requires fraction { Self.FRACTION ≤ Self.Word.BITS }
        requires fits { InRange Self.Word.SIGNED Self.Word.BITS (exact_round (Self.units self) Self.FRACTION) }
        ensures { Self.units result ≡ exact_round (Self.units self) Self.FRACTION };

    /// Returns the nearest whole number, ties to even. Precondition: it fits.
    fn strict_round_ties_even(self) -> Self
        requires fraction { Self.FRACTION ≤ Self.Word.BITS }
        requires fits { InRange Self.Word.SIGNED Self.Word.BITS (exact_round_ties_even (Self.units self) Self.FRACTION) }
        ensures { Self.units result ≡ exact_round_ties_even (Self.units self) Self.FRACTION };

    /// Returns the largest whole number that is at most the number. Precondition: it fits.
    fn unwrapped_floor(self) -> Self
        requires fraction { Self.FRACTION ≤ Self.Word.BITS }
        requires fits { InRange Self.Word.SIGNED Self.Word.BITS (exact_floor (Self.units self) Self.FRACTION) }
        ensures { Self.units result ≡ exact_floor (Self.units self) Self.FRACTION };

    /// Returns the smallest whole number that is at least the number. Precondition: it fits.
    fn unwrapped_ceil(self) -> Self
        requires fraction { Self.FRACTION ≤ Self.Word.BITS }
        requires fits { InRange Self.Word.SIGNED Self.Word.BITS (exact_ceil (Self.units self) Self.FRACTION) }
        ensures { Self.units result ≡ exact_ceil (Self.units self) Self.FRACTION };

    /// Returns the nearest whole number, ties away from 0. Precondition: it fits.
    fn unwrapped_round(self) -> Self
        requires fraction { Self.FRACTION ≤ Self.Word.BITS }
        requires fits { InRange Self.Word.SIGNED Self.Word.BITS (exact_round (Self.units self) Self.FRACTION) }
        ensures { Self.units result ≡ exact_round (Self.units self) Self.FRACTION };

    /// Returns the nearest whole number, ties to even. Precondition: it fits.
    fn unwrapped_round_ties_even(self) -> Self
        requires fraction { Self.FRACTION ≤ Self.Word.BITS }
        requires fits { InRange Self.Word.SIGNED Self.Word.BITS (exact_round_ties_even (Self.units self) Self.FRACTION) }
        ensures { Self.units result ≡ exact_round_ties_even (Self.units self) Self.FRACTION };
}

impl<T: Castable, const F: u32> ToWhole for Fixed<T, F> {
    #[inline]
    fn int(self) -> Self {
        wrapping_whole(self, Beside::Floor)
    }

    #[inline]
    fn frac(self) -> Self {
        wrapping_frac(self)
    }

    #[inline]
    fn floor(self) -> Self {
        exact_whole(self, Beside::Floor)
    }

    #[inline]
    fn ceil(self) -> Self {
        exact_whole(self, Beside::Ceil)
    }

    #[inline]
    fn round(self) -> Self {
        exact_whole(self, Beside::Round)
    }

    #[inline]
    fn round_ties_even(self) -> Self {
        exact_whole(self, Beside::RoundTiesEven)
    }

    #[inline]
    fn checked_floor(self) -> Option<Self> {
        checked_whole(self, Beside::Floor)
    }

    #[inline]
    fn checked_ceil(self) -> Option<Self> {
        checked_whole(self, Beside::Ceil)
    }

    #[inline]
    fn checked_round(self) -> Option<Self> {
        checked_whole(self, Beside::Round)
    }

    #[inline]
    fn checked_round_ties_even(self) -> Option<Self> {
        checked_whole(self, Beside::RoundTiesEven)
    }

    #[inline]
    fn overflowing_floor(self) -> (Self, bool) {
        overflowing_whole(self, Beside::Floor)
    }

    #[inline]
    fn overflowing_ceil(self) -> (Self, bool) {
        overflowing_whole(self, Beside::Ceil)
    }

    #[inline]
    fn overflowing_round(self) -> (Self, bool) {
        overflowing_whole(self, Beside::Round)
    }

    #[inline]
    fn overflowing_round_ties_even(self) -> (Self, bool) {
        overflowing_whole(self, Beside::RoundTiesEven)
    }

    #[inline]
    fn wrapping_floor(self) -> Self {
        wrapping_whole(self, Beside::Floor)
    }

    #[inline]
    fn wrapping_ceil(self) -> Self {
        wrapping_whole(self, Beside::Ceil)
    }

    #[inline]
    fn wrapping_round(self) -> Self {
        wrapping_whole(self, Beside::Round)
    }

    #[inline]
    fn wrapping_round_ties_even(self) -> Self {
        wrapping_whole(self, Beside::RoundTiesEven)
    }

    #[inline]
    fn saturating_floor(self) -> Self {
        saturating_whole(self, Beside::Floor)
    }

    #[inline]
    fn saturating_ceil(self) -> Self {
        saturating_whole(self, Beside::Ceil)
    }

    #[inline]
    fn saturating_round(self) -> Self {
        saturating_whole(self, Beside::Round)
    }

    #[inline]
    fn saturating_round_ties_even(self) -> Self {
        saturating_whole(self, Beside::RoundTiesEven)
    }

    #[inline]
    fn strict_floor(self) -> Self {
        strict_whole(self, Beside::Floor)
    }

    #[inline]
    fn strict_ceil(self) -> Self {
        strict_whole(self, Beside::Ceil)
    }

    #[inline]
    fn strict_round(self) -> Self {
        strict_whole(self, Beside::Round)
    }

    #[inline]
    fn strict_round_ties_even(self) -> Self {
        strict_whole(self, Beside::RoundTiesEven)
    }

    #[inline]
    fn unwrapped_floor(self) -> Self {
        strict_whole(self, Beside::Floor)
    }

    #[inline]
    fn unwrapped_ceil(self) -> Self {
        strict_whole(self, Beside::Ceil)
    }

    #[inline]
    fn unwrapped_round(self) -> Self {
        strict_whole(self, Beside::Round)
    }

    #[inline]
    fn unwrapped_round_ties_even(self) -> Self {
        strict_whole(self, Beside::RoundTiesEven)
    }
}
