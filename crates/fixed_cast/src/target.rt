//! What conversions return.

ghost use Rattle.std.specs.Prelude.{◌≡◌, ◌≤◌, ℤ, Bool, Option, Some, IsSome, false, option_map};
ghost use Rattle.std.specs.Float.{Float, binary32, binary64};
ghost use Rattle.fixed_word.specs.Policies.{checked, overflowing, wrapping};
ghost use Rattle.fixed_float.specs.Rows.{nearest_float};

use crate::floats::ToFloat;
use crate::from_num::FromNum;
use crate::numeric::Numeric;
use crate::source::Source;

/// A type that the calls of [`ToNum`](crate::ToNum) return. Each source converts to numbers of every format and to
/// integers; numbers and integers also convert to floats. A float is the nearest one, ties to even, and always fits.
/// (`fixed` does not have this trait.)
pub trait Target<S: Source>: Copy {
    // what a value is: a number of units, or a float as IEEE 754 has it
    ghost Exact: { Type 0 };

    ghost exactly: { Self → Exact };

    // the precondition of every conversion: for a float, that the fraction is at most the width
    ghost is_format: { Type 0 };

    // what the source is, rounded, or nothing where it has no number
    ghost exact: { S → Option Exact };

    // what policies make of that
    ghost as_checked: { Option Exact → Option Exact };

    ghost as_overflowing: { Option Exact → Option (Exact × Bool) };

    ghost as_wrapping: { Option Exact → Option Exact };

    ghost saturated: { S → Option Exact };

    /// Returns the value. Precondition: there is one, and it fits.
    fn from_source(source: S) -> Self
        requires format { is_format }
        requires fits { IsSome (as_checked (exact source)) }
        ensures { Some (exactly result) ≡ exact source };

    /// Returns the value, or `None` if there is none or it does not fit.
    fn checked_from_source(source: S) -> Option<Self>
        requires { is_format }
        ensures { option_map exactly result ≡ as_checked (exact source) };

    /// Returns the wrapped value, and whether the value does not fit. Precondition: there is one.
    fn overflowing_from_source(source: S) -> (Self, bool)
        requires format { is_format }
        requires some { IsSome (exact source) }
        ensures { Some (exactly result.0, result.1) ≡ as_overflowing (exact source) };

    /// Returns the wrapped value. Precondition: there is one.
    fn wrapping_from_source(source: S) -> Self
        requires format { is_format }
        requires some { IsSome (exact source) }
        ensures { Some (exactly result) ≡ as_wrapping (exact source) };

    /// Returns the nearest value that fits. Precondition: there is a value.
    fn saturating_from_source(source: S) -> Self
        requires format { is_format }
        requires some { IsSome (saturated source) }
        ensures { Some (exactly result) ≡ saturated source };

    /// Returns the value. Precondition: there is one, and it fits.
    fn strict_from_source(source: S) -> Self
        requires format { is_format }
        requires fits { IsSome (as_checked (exact source)) }
        ensures { Some (exactly result) ≡ exact source };
}

impl<S: Source, N: Numeric> Target<S> for N {
    ghost Exact = { ℤ };

    ghost exactly = { N.units };

    ghost is_format = { Unit {0} };

    ghost exact = { λ x. S.exact x N.FRACTION S.DEFAULT };

    ghost as_checked = { λ row. checked N.Word.SIGNED N.Word.BITS row };

    ghost as_overflowing = { λ row. overflowing N.Word.SIGNED N.Word.BITS row };

    ghost as_wrapping = { λ row. wrapping N.Word.SIGNED N.Word.BITS row };

    ghost saturated = { λ x. S.saturated N.Word.SIGNED N.Word.BITS x N.FRACTION S.DEFAULT };

    #[inline]
    fn from_source(source: S) -> N {
        N::from_num(source)
    }

    #[inline]
    fn checked_from_source(source: S) -> Option<N> {
        N::checked_from_num(source)
    }

    #[inline]
    fn overflowing_from_source(source: S) -> (N, bool) {
        N::overflowing_from_num(source)
    }

    #[inline]
    fn wrapping_from_source(source: S) -> N {
        N::wrapping_from_num(source)
    }

    #[inline]
    fn saturating_from_source(source: S) -> N {
        N::saturating_from_num(source)
    }

    #[inline]
    fn strict_from_source(source: S) -> N {
        N::strict_from_num(source)
    }
}

impl<S: Numeric> Target<S> for f32 {
    ghost Exact = { Float };

    ghost exactly = { λ x. x };

    ghost is_format = { S.FRACTION ≤ S.Word.BITS };

    ghost exact = { λ a. Some (nearest_float binary32 (S.units a) S.FRACTION) };

    ghost as_checked = { λ row. row };

    ghost as_overflowing = { λ row. option_map (λ x. (x, false)) row };

    ghost as_wrapping = { λ row. row };

    ghost saturated = { λ a. Some (nearest_float binary32 (S.units a) S.FRACTION) };

    #[inline]
    fn from_source(source: S) -> f32 {
        source.to_float()
    }

    #[inline]
    fn checked_from_source(source: S) -> Option<f32> {
        Some(source.to_float())
    }

    #[inline]
    fn overflowing_from_source(source: S) -> (f32, bool) {
        (source.to_float(), false)
    }

    #[inline]
    fn wrapping_from_source(source: S) -> f32 {
        source.to_float()
    }

    #[inline]
    fn saturating_from_source(source: S) -> f32 {
        source.to_float()
    }

    #[inline]
    fn strict_from_source(source: S) -> f32 {
        source.to_float()
    }
}

impl<S: Numeric> Target<S> for f64 {
    ghost Exact = { Float };

    ghost exactly = { λ x. x };

    ghost is_format = { S.FRACTION ≤ S.Word.BITS };

    ghost exact = { λ a. Some (nearest_float binary64 (S.units a) S.FRACTION) };

    ghost as_checked = { λ row. row };

    ghost as_overflowing = { λ row. option_map (λ x. (x, false)) row };

    ghost as_wrapping = { λ row. row };

    ghost saturated = { λ a. Some (nearest_float binary64 (S.units a) S.FRACTION) };

    #[inline]
    fn from_source(source: S) -> f64 {
        source.to_float()
    }

    #[inline]
    fn checked_from_source(source: S) -> Option<f64> {
        Some(source.to_float())
    }

    #[inline]
    fn overflowing_from_source(source: S) -> (f64, bool) {
        (source.to_float(), false)
    }

    #[inline]
    fn wrapping_from_source(source: S) -> f64 {
        source.to_float()
    }

    #[inline]
    fn saturating_from_source(source: S) -> f64 {
        source.to_float()
    }

    #[inline]
    fn strict_from_source(source: S) -> f64 {
        source.to_float()
    }
}
