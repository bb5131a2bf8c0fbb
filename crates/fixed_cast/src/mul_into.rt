//! Products of two numbers of any formats, in a third format.

ghost use Rattle.std.specs.Prelude.{◌≡◌, ◌≤◌, Some, IsSome, option_map};
ghost use Rattle.fixed_word.specs.Policies.{checked, overflowing, saturating, wrapping};
ghost use Rattle.fixed_word.specs.Standing.{StandsFor};
ghost use Rattle.fixed_word.specs.declared.rounding.Rounding.TheVariants.{Down};
ghost use Rattle.fixed_convert.specs.Convert.{rounded_mul_into};

use crate::numeric::Numeric;
use crate::policies::{
    checked_num, exact_num, overflowing_num, saturating_num, strict_num, wrapping_num,
};
use fixed_convert::mul_into_of;
use fixed_word::{Outcome, Rounding};

/// Products of two numbers of any formats, or integers, in a third format, by each policy. The exact product is
/// rounded once: down, or as named in the forms `.._round`. Precondition of each call: the fractions of both factors
/// are at most their widths. (`fixed` does not have these calls.)
pub trait MulInto: Numeric {
    /// Returns the product, rounded down. Precondition: it fits.
    fn mul_into<B: Numeric, D: Numeric>(self, rhs: B) -> D
        requires fraction { Self.FRACTION ≤ Self.Word.BITS }
        requires rhs_fraction { B.FRACTION ≤ B.Word.BITS }
        requires fits { IsSome (checked D.Word.SIGNED D.Word.BITS
            (Some (rounded_mul_into (Self.units self) Self.FRACTION (B.units rhs) B.FRACTION D.FRACTION Down))) }
        ensures { Some (D.units result)
            ≡ Some (rounded_mul_into (Self.units self) Self.FRACTION (B.units rhs) B.FRACTION D.FRACTION Down) };

    /// Returns the product, rounded down, or `None` if it does not fit.
    fn checked_mul_into<B: Numeric, D: Numeric>(self, rhs: B) -> Option<D>
        requires fraction { Self.FRACTION ≤ Self.Word.BITS }
        requires rhs_fraction { B.FRACTION ≤ B.Word.BITS }
        ensures { option_map D.units result ≡ checked D.Word.SIGNED D.Word.BITS
            (Some (rounded_mul_into (Self.units self) Self.FRACTION (B.units rhs) B.FRACTION D.FRACTION Down)) };

    /// Returns the product, rounded down and wrapped, and whether it does not fit.
    fn overflowing_mul_into<B: Numeric, D: Numeric>(self, rhs: B) -> (D, bool)
        requires fraction { Self.FRACTION ≤ Self.Word.BITS }
        requires rhs_fraction { B.FRACTION ≤ B.Word.BITS }
        ensures { Some (D.units result.0, result.1) ≡ overflowing D.Word.SIGNED D.Word.BITS
            (Some (rounded_mul_into (Self.units self) Self.FRACTION (B.units rhs) B.FRACTION D.FRACTION Down)) };

    /// Returns the product, rounded down and wrapped.
    fn wrapping_mul_into<B: Numeric, D: Numeric>(self, rhs: B) -> D
        requires fraction { Self.FRACTION ≤ Self.Word.BITS }
        requires rhs_fraction { B.FRACTION ≤ B.Word.BITS }
        ensures { Some (D.units result) ≡ wrapping D.Word.SIGNED D.Word.BITS
            (Some (rounded_mul_into (Self.units self) Self.FRACTION (B.units rhs) B.FRACTION D.FRACTION Down)) };

    /// Returns the nearest number that fits to the product, rounded down.
    fn saturating_mul_into<B: Numeric, D: Numeric>(self, rhs: B) -> D
        requires fraction { Self.FRACTION ≤ Self.Word.BITS }
        requires rhs_fraction { B.FRACTION ≤ B.Word.BITS }
        ensures { Some (D.units result) ≡ saturating D.Word.SIGNED D.Word.BITS
            (Some (rounded_mul_into (Self.units self) Self.FRACTION (B.units rhs) B.FRACTION D.FRACTION Down)) };

    /// Returns the product, rounded down. Precondition: it fits.
    fn strict_mul_into<B: Numeric, D: Numeric>(self, rhs: B) -> D
        requires fraction { Self.FRACTION ≤ Self.Word.BITS }
        requires rhs_fraction { B.FRACTION ≤ B.Word.BITS }
        requires fits { IsSome (checked D.Word.SIGNED D.Word.BITS
            (Some (rounded_mul_into (Self.units self) Self.FRACTION (B.units rhs) B.FRACTION D.FRACTION Down))) }
        ensures { Some (D.units result)
            ≡ Some (rounded_mul_into (Self.units self) Self.FRACTION (B.units rhs) B.FRACTION D.FRACTION Down) };

    /// Returns the product, rounded down. Precondition: it fits.
    fn unwrapped_mul_into<B: Numeric, D: Numeric>(self, rhs: B) -> D
        requires fraction { Self.FRACTION ≤ Self.Word.BITS }
        requires rhs_fraction { B.FRACTION ≤ B.Word.BITS }
        requires fits { IsSome (checked D.Word.SIGNED D.Word.BITS
            (Some (rounded_mul_into (Self.units self) Self.FRACTION (B.units rhs) B.FRACTION D.FRACTION Down))) }
        ensures { Some (D.units result)
            ≡ Some (rounded_mul_into (Self.units self) Self.FRACTION (B.units rhs) B.FRACTION D.FRACTION Down) };

    /// Returns the product, rounded as named. Precondition: it fits.
    fn mul_into_round<B: Numeric, D: Numeric>(self, rhs: B, rounding: Rounding) -> D
        requires fraction { Self.FRACTION ≤ Self.Word.BITS }
        requires rhs_fraction { B.FRACTION ≤ B.Word.BITS }
        requires fits { IsSome (checked D.Word.SIGNED D.Word.BITS
            (Some (rounded_mul_into (Self.units self) Self.FRACTION (B.units rhs) B.FRACTION D.FRACTION rounding))) }
        ensures { Some (D.units result)
            ≡ Some (rounded_mul_into (Self.units self) Self.FRACTION (B.units rhs) B.FRACTION D.FRACTION rounding) };

    /// Returns the product, rounded as named, or `None` if it does not fit.
    fn checked_mul_into_round<B: Numeric, D: Numeric>(self, rhs: B, rounding: Rounding) -> Option<D>
        requires fraction { Self.FRACTION ≤ Self.Word.BITS }
        requires rhs_fraction { B.FRACTION ≤ B.Word.BITS }
        ensures { option_map D.units result ≡ checked D.Word.SIGNED D.Word.BITS
            (Some (rounded_mul_into (Self.units self) Self.FRACTION (B.units rhs) B.FRACTION D.FRACTION rounding)) };

    /// Returns the product, rounded as named and wrapped, and whether it does not fit.
    fn overflowing_mul_into_round<B: Numeric, D: Numeric>(
        self,
        rhs: B,
        rounding: Rounding,
    ) -> (D, bool)
        requires fraction { Self.FRACTION ≤ Self.Word.BITS }
        requires rhs_fraction { B.FRACTION ≤ B.Word.BITS }
        ensures { Some (D.units result.0, result.1) ≡ overflowing D.Word.SIGNED D.Word.BITS
            (Some (rounded_mul_into (Self.units self) Self.FRACTION (B.units rhs) B.FRACTION D.FRACTION rounding)) };

    /// Returns the product, rounded as named and wrapped.
    fn wrapping_mul_into_round<B: Numeric, D: Numeric>(self, rhs: B, rounding: Rounding) -> D
        requires fraction { Self.FRACTION ≤ Self.Word.BITS }
        requires rhs_fraction { B.FRACTION ≤ B.Word.BITS }
        ensures { Some (D.units result) ≡ wrapping D.Word.SIGNED D.Word.BITS
            (Some (rounded_mul_into (Self.units self) Self.FRACTION (B.units rhs) B.FRACTION D.FRACTION rounding)) };

    /// Returns the nearest number that fits to the product, rounded as named.
    fn saturating_mul_into_round<B: Numeric, D: Numeric>(self, rhs: B, rounding: Rounding) -> D
        requires fraction { Self.FRACTION ≤ Self.Word.BITS }
        requires rhs_fraction { B.FRACTION ≤ B.Word.BITS }
        ensures { Some (D.units result) ≡ saturating D.Word.SIGNED D.Word.BITS
            (Some (rounded_mul_into (Self.units self) Self.FRACTION (B.units rhs) B.FRACTION D.FRACTION rounding)) };

    /// Returns the product, rounded as named. Precondition: it fits.
    fn strict_mul_into_round<B: Numeric, D: Numeric>(self, rhs: B, rounding: Rounding) -> D
        requires fraction { Self.FRACTION ≤ Self.Word.BITS }
        requires rhs_fraction { B.FRACTION ≤ B.Word.BITS }
        requires fits { IsSome (checked D.Word.SIGNED D.Word.BITS
            (Some (rounded_mul_into (Self.units self) Self.FRACTION (B.units rhs) B.FRACTION D.FRACTION rounding))) }
        ensures { Some (D.units result)
            ≡ Some (rounded_mul_into (Self.units self) Self.FRACTION (B.units rhs) B.FRACTION D.FRACTION rounding) };

    /// Returns the product, rounded as named. Precondition: it fits.
    fn unwrapped_mul_into_round<B: Numeric, D: Numeric>(self, rhs: B, rounding: Rounding) -> D
        requires fraction { Self.FRACTION ≤ Self.Word.BITS }
        requires rhs_fraction { B.FRACTION ≤ B.Word.BITS }
        requires fits { IsSome (checked D.Word.SIGNED D.Word.BITS
            (Some (rounded_mul_into (Self.units self) Self.FRACTION (B.units rhs) B.FRACTION D.FRACTION rounding))) }
        ensures { Some (D.units result)
            ≡ Some (rounded_mul_into (Self.units self) Self.FRACTION (B.units rhs) B.FRACTION D.FRACTION rounding) };
}

impl<A: Numeric> MulInto for A {
    #[inline]
    fn mul_into<B: Numeric, D: Numeric>(self, rhs: B) -> D {
        self.mul_into_round(rhs, Rounding::Down)
    }

    #[inline]
    fn checked_mul_into<B: Numeric, D: Numeric>(self, rhs: B) -> Option<D> {
        self.checked_mul_into_round(rhs, Rounding::Down)
    }

    #[inline]
    fn overflowing_mul_into<B: Numeric, D: Numeric>(self, rhs: B) -> (D, bool) {
        self.overflowing_mul_into_round(rhs, Rounding::Down)
    }

    #[inline]
    fn wrapping_mul_into<B: Numeric, D: Numeric>(self, rhs: B) -> D {
        self.wrapping_mul_into_round(rhs, Rounding::Down)
    }

    #[inline]
    fn saturating_mul_into<B: Numeric, D: Numeric>(self, rhs: B) -> D {
        self.saturating_mul_into_round(rhs, Rounding::Down)
    }

    #[inline]
    fn strict_mul_into<B: Numeric, D: Numeric>(self, rhs: B) -> D {
        self.strict_mul_into_round(rhs, Rounding::Down)
    }

    #[inline]
    fn unwrapped_mul_into<B: Numeric, D: Numeric>(self, rhs: B) -> D {
        self.strict_mul_into(rhs)
    }

    #[inline]
    fn mul_into_round<B: Numeric, D: Numeric>(self, rhs: B, rounding: Rounding) -> D {
        exact_num(product::<A, B, D>(self, rhs, rounding))
    }

    #[inline]
    fn checked_mul_into_round<B: Numeric, D: Numeric>(
        self,
        rhs: B,
        rounding: Rounding,
    ) -> Option<D> {
        checked_num(product::<A, B, D>(self, rhs, rounding))
    }

    #[inline]
    fn overflowing_mul_into_round<B: Numeric, D: Numeric>(
        self,
        rhs: B,
        rounding: Rounding,
    ) -> (D, bool) {
        overflowing_num(product::<A, B, D>(self, rhs, rounding))
    }

    #[inline]
    fn wrapping_mul_into_round<B: Numeric, D: Numeric>(self, rhs: B, rounding: Rounding) -> D {
        wrapping_num(product::<A, B, D>(self, rhs, rounding))
    }

    #[inline]
    fn saturating_mul_into_round<B: Numeric, D: Numeric>(self, rhs: B, rounding: Rounding) -> D {
        saturating_num(product::<A, B, D>(self, rhs, rounding))
    }

    #[inline]
    fn strict_mul_into_round<B: Numeric, D: Numeric>(self, rhs: B, rounding: Rounding) -> D {
        strict_num(product::<A, B, D>(self, rhs, rounding))
    }

    #[inline]
    fn unwrapped_mul_into_round<B: Numeric, D: Numeric>(self, rhs: B, rounding: Rounding) -> D {
        self.strict_mul_into_round(rhs, rounding)
    }
}

/// Returns the outcome of the product in the format of `D`.
#[inline]
fn product<A: Numeric, B: Numeric, D: Numeric>(a: A, b: B, rounding: Rounding) -> Outcome<D::Word>
    requires fraction { A.FRACTION ≤ A.Word.BITS }
    requires rhs_fraction { B.FRACTION ≤ B.Word.BITS }
    ensures { StandsFor D.Word.value D.Word.SIGNED D.Word.BITS
        (rounded_mul_into (A.units a) A.FRACTION (B.units b) B.FRACTION D.FRACTION rounding) result }
{
    mul_into_of(
        a.to_word(),
        A::FRACTION,
        b.to_word(),
        B::FRACTION,
        D::FRACTION,
        rounding,
    )
}
