//! Conversions from numbers of other formats, integers, floats and `bool`.

ghost use Rattle.std.specs.Prelude.{◌≡◌, Some, IsSome, option_map};
ghost use Rattle.fixed_word.specs.Policies.{checked, overflowing, wrapping};

use crate::numeric::Numeric;
use crate::policies::{checked_num, exact_num, overflowing_num, strict_num, wrapping_num};
use crate::source::Source;
use fixed_word::Rounding;

/// Conversions to a number of a format or an integer, by each policy. They round as
/// [`Source::DEFAULT`](crate::Source) of the source says, which is down between formats, or as named in the forms
/// `.._round`.
pub trait FromNum: Numeric {
    /// Returns the number. Preconditions: the source is finite, and the number fits.
    fn from_num<S: Source>(source: S) -> Self
        requires { IsSome (checked Self.Word.SIGNED Self.Word.BITS (S.exact source Self.FRACTION S.DEFAULT)) }
        ensures { Some (Self.units result) ≡ S.exact source Self.FRACTION S.DEFAULT };

    /// Returns the number, or `None` if there is none or it does not fit.
    fn checked_from_num<S: Source>(source: S) -> Option<Self>
        ensures { option_map Self.units result
            ≡ checked Self.Word.SIGNED Self.Word.BITS (S.exact source Self.FRACTION S.DEFAULT) };

    /// Returns the number, wrapped, and whether it does not fit. Precondition: the source is finite.
    fn overflowing_from_num<S: Source>(source: S) -> (Self, bool)
        requires { IsSome (S.exact source Self.FRACTION S.DEFAULT) }
        ensures { Some (Self.units result.0, result.1)
            ≡ overflowing Self.Word.SIGNED Self.Word.BITS (S.exact source Self.FRACTION S.DEFAULT) };

    /// Returns the number, wrapped. Precondition: the source is finite.
    fn wrapping_from_num<S: Source>(source: S) -> Self
        requires { IsSome (S.exact source Self.FRACTION S.DEFAULT) }
        ensures { Some (Self.units result)
            ≡ wrapping Self.Word.SIGNED Self.Word.BITS (S.exact source Self.FRACTION S.DEFAULT) };

    /// Returns the number, saturated. An infinity becomes an end of the range. Precondition: the source is not a NaN.
    fn saturating_from_num<S: Source>(source: S) -> Self
        requires { IsSome (S.saturated Self.Word.SIGNED Self.Word.BITS source Self.FRACTION S.DEFAULT) }
        ensures { Some (Self.units result)
            ≡ S.saturated Self.Word.SIGNED Self.Word.BITS source Self.FRACTION S.DEFAULT };

    /// Returns the number. Preconditions: the source is finite, and the number fits.
    fn strict_from_num<S: Source>(source: S) -> Self
        requires { IsSome (checked Self.Word.SIGNED Self.Word.BITS (S.exact source Self.FRACTION S.DEFAULT)) }
        ensures { Some (Self.units result) ≡ S.exact source Self.FRACTION S.DEFAULT };

    /// Returns the number. Preconditions: the source is finite, and the number fits.
    fn unwrapped_from_num<S: Source>(source: S) -> Self
        requires { IsSome (checked Self.Word.SIGNED Self.Word.BITS (S.exact source Self.FRACTION S.DEFAULT)) }
        ensures { Some (Self.units result) ≡ S.exact source Self.FRACTION S.DEFAULT };

    /// Returns the number, rounded as named, or `None` if it does not fit or the source is not finite.
    fn checked_from_num_round<S: Source>(source: S, rounding: Rounding) -> Option<Self>
        ensures { option_map Self.units result
            ≡ checked Self.Word.SIGNED Self.Word.BITS (S.exact source Self.FRACTION rounding) };

    /// Returns the number, rounded as named and wrapped, and whether it does not fit. Precondition: the source is
    /// finite.
    fn overflowing_from_num_round<S: Source>(source: S, rounding: Rounding) -> (Self, bool)
        requires { IsSome (S.exact source Self.FRACTION rounding) }
        ensures { Some (Self.units result.0, result.1)
            ≡ overflowing Self.Word.SIGNED Self.Word.BITS (S.exact source Self.FRACTION rounding) };

    /// Returns the number, rounded as named and wrapped. Precondition: the source is finite.
    fn wrapping_from_num_round<S: Source>(source: S, rounding: Rounding) -> Self
        requires { IsSome (S.exact source Self.FRACTION rounding) }
        ensures { Some (Self.units result)
            ≡ wrapping Self.Word.SIGNED Self.Word.BITS (S.exact source Self.FRACTION rounding) };

    /// Returns the number, rounded as named and saturated. An infinity becomes an end of the range. Precondition: the
    /// source is not a NaN.
    fn saturating_from_num_round<S: Source>(source: S, rounding: Rounding) -> Self
        requires { IsSome (S.saturated Self.Word.SIGNED Self.Word.BITS source Self.FRACTION rounding) }
        ensures { Some (Self.units result)
            ≡ S.saturated Self.Word.SIGNED Self.Word.BITS source Self.FRACTION rounding };

    /// Returns the number, rounded as named. Preconditions: the source is finite, and the number fits.
    fn from_num_round<S: Source>(source: S, rounding: Rounding) -> Self
        requires { IsSome (checked Self.Word.SIGNED Self.Word.BITS (S.exact source Self.FRACTION rounding)) }
        ensures { Some (Self.units result) ≡ S.exact source Self.FRACTION rounding };

    /// Returns the number, rounded as named. Preconditions: the source is finite, and the number fits.
    fn strict_from_num_round<S: Source>(source: S, rounding: Rounding) -> Self
        requires { IsSome (checked Self.Word.SIGNED Self.Word.BITS (S.exact source Self.FRACTION rounding)) }
        ensures { Some (Self.units result) ≡ S.exact source Self.FRACTION rounding };

    /// Returns the number, rounded as named. Preconditions: the source is finite, and the number fits.
    fn unwrapped_from_num_round<S: Source>(source: S, rounding: Rounding) -> Self
        requires { IsSome (checked Self.Word.SIGNED Self.Word.BITS (S.exact source Self.FRACTION rounding)) }
        ensures { Some (Self.units result) ≡ S.exact source Self.FRACTION rounding };
}

impl<N: Numeric> FromNum for N {
    #[inline]
    fn from_num<S: Source>(source: S) -> Self {
        Self::from_num_round(source, S::DEFAULT)
    }

    #[inline]
    fn checked_from_num<S: Source>(source: S) -> Option<Self> {
        Self::checked_from_num_round(source, S::DEFAULT)
    }

    #[inline]
    fn overflowing_from_num<S: Source>(source: S) -> (Self, bool) {
        Self::overflowing_from_num_round(source, S::DEFAULT)
    }

    #[inline]
    fn wrapping_from_num<S: Source>(source: S) -> Self {
        Self::wrapping_from_num_round(source, S::DEFAULT)
    }

    #[inline]
    fn saturating_from_num<S: Source>(source: S) -> Self {
        Self::saturating_from_num_round(source, S::DEFAULT)
    }

    #[inline]
    fn strict_from_num<S: Source>(source: S) -> Self {
        Self::strict_from_num_round(source, S::DEFAULT)
    }

    #[inline]
    fn unwrapped_from_num<S: Source>(source: S) -> Self {
        Self::strict_from_num_round(source, S::DEFAULT)
    }

    #[inline]
    fn checked_from_num_round<S: Source>(source: S, rounding: Rounding) -> Option<Self> {
        checked_num(source.outcome(Self::FRACTION, rounding)?)
    }

    #[inline]
    fn overflowing_from_num_round<S: Source>(source: S, rounding: Rounding) -> (Self, bool) {
        overflowing_num(source.outcome(Self::FRACTION, rounding).unwrap())
    }

    #[inline]
    fn wrapping_from_num_round<S: Source>(source: S, rounding: Rounding) -> Self {
        wrapping_num(source.outcome(Self::FRACTION, rounding).unwrap())
    }

    #[inline]
    fn saturating_from_num_round<S: Source>(source: S, rounding: Rounding) -> Self {
        Self::from_word(source.saturated(Self::FRACTION, rounding))
    }

    #[inline]
    fn from_num_round<S: Source>(source: S, rounding: Rounding) -> Self {
        exact_num(source.outcome(Self::FRACTION, rounding).unwrap())
    }

    #[inline]
    fn strict_from_num_round<S: Source>(source: S, rounding: Rounding) -> Self {
        strict_num(source.outcome(Self::FRACTION, rounding).unwrap())
    }

    #[inline]
    fn unwrapped_from_num_round<S: Source>(source: S, rounding: Rounding) -> Self {
        Self::strict_from_num_round(source, rounding)
    }
}
