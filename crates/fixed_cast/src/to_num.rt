//! The conversions of `FromNum`, called on the source, and conversions to floats.

ghost use Rattle.std.specs.Prelude.{◌≡◌, Some, IsSome, option_map};
ghost use Rattle.fixed_word.specs.Policies.{checked, overflowing, wrapping};

use crate::from_num::FromNum;
use crate::numeric::Numeric;
use crate::source::Source;
use crate::target::Target;
use fixed_word::Rounding;

/// Conversions of a number to one of another format, to an integer or to a float, by each policy. They round as
/// [`FromNum`](crate::FromNum) does. A float is the nearest one, ties to even, and always fits.
pub trait ToNum: Source {
    /// Returns the number. Preconditions: the source is finite, and the number fits.
    fn to_num<D: Target<Self>>(self) -> D
        requires format { D.is_format }
        requires fits { IsSome (D.as_checked (D.exact self)) }
        ensures { Some (D.exactly result) ≡ D.exact self };

    /// Returns the number, or `None` if there is none or it does not fit.
    fn checked_to_num<D: Target<Self>>(self) -> Option<D>
        requires { D.is_format }
        ensures { option_map D.exactly result ≡ D.as_checked (D.exact self) };

    /// Returns the number, wrapped, and whether it does not fit. Precondition: the source is finite.
    fn overflowing_to_num<D: Target<Self>>(self) -> (D, bool)
        requires format { D.is_format }
        requires some { IsSome (D.exact self) }
        ensures { Some (D.exactly result.0, result.1) ≡ D.as_overflowing (D.exact self) };

    /// Returns the number, wrapped. Precondition: the source is finite.
    fn wrapping_to_num<D: Target<Self>>(self) -> D
        requires format { D.is_format }
        requires some { IsSome (D.exact self) }
        ensures { Some (D.exactly result) ≡ D.as_wrapping (D.exact self) };

    /// Returns the number, saturated. An infinity becomes an end of the range. Precondition: the source is not a NaN.
    fn saturating_to_num<D: Target<Self>>(self) -> D
        requires format { D.is_format }
        requires some { IsSome (D.saturated self) }
        ensures { Some (D.exactly result) ≡ D.saturated self };

    /// Returns the number. Preconditions: the source is finite, and the number fits.
    fn strict_to_num<D: Target<Self>>(self) -> D
        requires format { D.is_format }
        requires fits { IsSome (D.as_checked (D.exact self)) }
        ensures { Some (D.exactly result) ≡ D.exact self };

    /// Returns the number. Preconditions: the source is finite, and the number fits.
    fn unwrapped_to_num<D: Target<Self>>(self) -> D
        requires format { D.is_format }
        requires fits { IsSome (D.as_checked (D.exact self)) }
        ensures { Some (D.exactly result) ≡ D.exact self };

    /// Returns the number, rounded as named, or `None` if it does not fit or the source is not finite.
    fn checked_to_num_round<N: Numeric>(self, rounding: Rounding) -> Option<N>
        ensures { option_map N.units result
            ≡ checked N.Word.SIGNED N.Word.BITS (Self.exact self N.FRACTION rounding) };

    /// Returns the number, rounded as named and wrapped, and whether it does not fit. Precondition: the source is
    /// finite.
    fn overflowing_to_num_round<N: Numeric>(self, rounding: Rounding) -> (N, bool)
        requires { IsSome (Self.exact self N.FRACTION rounding) }
        ensures { Some (N.units result.0, result.1)
            ≡ overflowing N.Word.SIGNED N.Word.BITS (Self.exact self N.FRACTION rounding) };

    /// Returns the number, rounded as named and wrapped. Precondition: the source is finite.
    fn wrapping_to_num_round<N: Numeric>(self, rounding: Rounding) -> N
        requires { IsSome (Self.exact self N.FRACTION rounding) }
        ensures { Some (N.units result)
            ≡ wrapping N.Word.SIGNED N.Word.BITS (Self.exact self N.FRACTION rounding) };

    /// Returns the number, rounded as named and saturated. An infinity becomes an end of the range. Precondition: the
    /// source is not a NaN.
    fn saturating_to_num_round<N: Numeric>(self, rounding: Rounding) -> N
        requires { IsSome (Self.saturated N.Word.SIGNED N.Word.BITS self N.FRACTION rounding) }
        ensures { Some (N.units result)
            ≡ Self.saturated N.Word.SIGNED N.Word.BITS self N.FRACTION rounding };

    /// Returns the number, rounded as named. Preconditions: the source is finite, and the number fits.
    fn to_num_round<N: Numeric>(self, rounding: Rounding) -> N
        requires { IsSome (checked N.Word.SIGNED N.Word.BITS (Self.exact self N.FRACTION rounding)) }
        ensures { Some (N.units result) ≡ Self.exact self N.FRACTION rounding };

    /// Returns the number, rounded as named. Preconditions: the source is finite, and the number fits.
    fn strict_to_num_round<N: Numeric>(self, rounding: Rounding) -> N
        requires { IsSome (checked N.Word.SIGNED N.Word.BITS (Self.exact self N.FRACTION rounding)) }
        ensures { Some (N.units result) ≡ Self.exact self N.FRACTION rounding };

    /// Returns the number, rounded as named. Preconditions: the source is finite, and the number fits.
    fn unwrapped_to_num_round<N: Numeric>(self, rounding: Rounding) -> N
        requires { IsSome (checked N.Word.SIGNED N.Word.BITS (Self.exact self N.FRACTION rounding)) }
        ensures { Some (N.units result) ≡ Self.exact self N.FRACTION rounding };
}

impl<S: Source> ToNum for S {
    #[inline]
    fn to_num<D: Target<Self>>(self) -> D {
        D::from_source(self)
    }

    #[inline]
    fn checked_to_num<D: Target<Self>>(self) -> Option<D> {
        D::checked_from_source(self)
    }

    #[inline]
    fn overflowing_to_num<D: Target<Self>>(self) -> (D, bool) {
        D::overflowing_from_source(self)
    }

    #[inline]
    fn wrapping_to_num<D: Target<Self>>(self) -> D {
        D::wrapping_from_source(self)
    }

    #[inline]
    fn saturating_to_num<D: Target<Self>>(self) -> D {
        D::saturating_from_source(self)
    }

    #[inline]
    fn strict_to_num<D: Target<Self>>(self) -> D {
        D::strict_from_source(self)
    }

    #[inline]
    fn unwrapped_to_num<D: Target<Self>>(self) -> D {
        D::strict_from_source(self)
    }

    #[inline]
    fn checked_to_num_round<N: Numeric>(self, rounding: Rounding) -> Option<N> {
        N::checked_from_num_round(self, rounding)
    }

    #[inline]
    fn overflowing_to_num_round<N: Numeric>(self, rounding: Rounding) -> (N, bool) {
        N::overflowing_from_num_round(self, rounding)
    }

    #[inline]
    fn wrapping_to_num_round<N: Numeric>(self, rounding: Rounding) -> N {
        N::wrapping_from_num_round(self, rounding)
    }

    #[inline]
    fn saturating_to_num_round<N: Numeric>(self, rounding: Rounding) -> N {
        N::saturating_from_num_round(self, rounding)
    }

    #[inline]
    fn to_num_round<N: Numeric>(self, rounding: Rounding) -> N {
        N::from_num_round(self, rounding)
    }

    #[inline]
    fn strict_to_num_round<N: Numeric>(self, rounding: Rounding) -> N {
        N::strict_from_num_round(self, rounding)
    }

    #[inline]
    fn unwrapped_to_num_round<N: Numeric>(self, rounding: Rounding) -> N {
        N::strict_from_num_round(self, rounding)
    }
}
