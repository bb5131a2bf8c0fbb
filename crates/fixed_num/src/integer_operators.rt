//! The operators between a number and an integer. The integer, on either side, has the number's word type.
//!
//! Each operator returns the exact result. Precondition: there is one, and it fits. The assigning forms store the
//! same result.

ghost use Rattle.std.specs.Prelude.{◌≡◌, ◌≢◌, ◌≤◌, false, pos, true, ◌*ℤ◌};
ghost use Rattle.fixed_word.specs.Format.{InRange};
ghost use Rattle.fixed_word.specs.Quotient.{truncated_quotient};
ghost use Rattle.fixed_kernel.specs.Rows.{exact_rem, units};

use crate::format::Fixed;
use crate::from_outcome::exact_number;
use fixed_kernel::{div_int_of, mul_int_of, rem_int_of};
use fixed_word::{RawWord, Word};
use std::ops::{Div, DivAssign, Mul, MulAssign, Rem, RemAssign};

impl<T: Word, const F: u32> Mul<T> for Fixed<T, F> {
    type Output = Self;

    ghost can_mul = { λ a k. InRange T.SIGNED T.BITS (T.value a.bits *ℤ T.value k) };

    ghost mul_gives = { λ a k r. T.value r.bits ≡ T.value a.bits *ℤ T.value k };

    /// Returns the product by an integer. Precondition: it fits.
    fn mul(self, rhs: T) -> Self {
        exact_number(mul_int_of(self.bits, rhs))
    }
}

impl<T: Word, const F: u32> MulAssign<T> for Fixed<T, F> {
    ghost can_mul_assign = { λ a k. InRange T.SIGNED T.BITS (T.value a.bits *ℤ T.value k) };

    ghost mul_assign_gives = { λ a k r. T.value r.bits ≡ T.value a.bits *ℤ T.value k };

    /// Stores the product by an integer. Precondition: it fits.
    fn mul_assign(&mut self, rhs: T) {
        *self = exact_number(mul_int_of(self.bits, rhs));
    }
}

impl<T: Word, const F: u32> Div<T> for Fixed<T, F> {
    type Output = Self;

    ghost can_div = { λ a k. (T.value k ≢ pos 0)
        × InRange T.SIGNED T.BITS (truncated_quotient (T.value a.bits) (T.value k)) };

    ghost div_gives = { λ a k r. T.value r.bits ≡ truncated_quotient (T.value a.bits) (T.value k) };

    /// Returns the quotient by an integer, rounded toward zero. Preconditions: the divisor is not 0, and the quotient
    /// fits.
    fn div(self, rhs: T) -> Self {
        exact_number(div_int_of(self.bits, rhs))
    }
}

impl<T: Word, const F: u32> DivAssign<T> for Fixed<T, F> {
    ghost can_div_assign = { λ a k. (T.value k ≢ pos 0)
        × InRange T.SIGNED T.BITS (truncated_quotient (T.value a.bits) (T.value k)) };

    ghost div_assign_gives = { λ a k r. T.value r.bits ≡ truncated_quotient (T.value a.bits) (T.value k) };

    /// Stores the quotient by an integer, rounded toward zero. Preconditions: the divisor is not 0, and the quotient
    /// fits.
    fn div_assign(&mut self, rhs: T) {
        *self = exact_number(div_int_of(self.bits, rhs));
    }
}

impl<T: Word, const F: u32> Rem<T> for Fixed<T, F> {
    type Output = Self;

    ghost can_rem = { λ a k. (F ≤ T.BITS) × (T.value k ≢ pos 0)
        × InRange T.SIGNED T.BITS (exact_rem (T.value a.bits) (units (T.value k) F)) };

    ghost rem_gives = { λ a k r. T.value r.bits ≡ exact_rem (T.value a.bits) (units (T.value k) F) };

    /// Returns the remainder by an integer, of the quotient that is rounded toward zero. It always fits.
    /// Preconditions: F is at most the width, and the divisor is not 0.
    fn rem(self, rhs: T) -> Self {
        exact_number(rem_int_of(self.bits, rhs, F))
    }
}

impl<T: Word, const F: u32> RemAssign<T> for Fixed<T, F> {
    ghost can_rem_assign = { λ a k. (F ≤ T.BITS) × (T.value k ≢ pos 0)
        × InRange T.SIGNED T.BITS (exact_rem (T.value a.bits) (units (T.value k) F)) };

    ghost rem_assign_gives = { λ a k r. T.value r.bits ≡ exact_rem (T.value a.bits) (units (T.value k) F) };

    /// Stores the remainder by an integer. Preconditions: F is at most the width, and the divisor is not 0.
    fn rem_assign(&mut self, rhs: T) {
        *self = exact_number(rem_int_of(self.bits, rhs, F));
    }
}

impl<const F: u32> Mul<Fixed<i8, F>> for i8 {
    type Output = Fixed<i8, F>;

    ghost can_mul = { λ k a. InRange true 8 (a.bits *ℤ k) };

    ghost mul_gives = { λ k a r. r.bits ≡ a.bits *ℤ k };

    /// Returns the product of an integer and a number. Precondition: it fits.
    fn mul(self, rhs: Fixed<i8, F>) -> Fixed<i8, F> {
        rhs * self
    }
}

impl<const F: u32> Mul<Fixed<i16, F>> for i16 {
    type Output = Fixed<i16, F>;

    ghost can_mul = { λ k a. InRange true 16 (a.bits *ℤ k) };

    ghost mul_gives = { λ k a r. r.bits ≡ a.bits *ℤ k };

    /// Returns the product of an integer and a number. Precondition: it fits.
    fn mul(self, rhs: Fixed<i16, F>) -> Fixed<i16, F> {
        rhs * self
    }
}

impl<const F: u32> Mul<Fixed<i32, F>> for i32 {
    type Output = Fixed<i32, F>;

    ghost can_mul = { λ k a. InRange true 32 (a.bits *ℤ k) };

    ghost mul_gives = { λ k a r. r.bits ≡ a.bits *ℤ k };

    /// Returns the product of an integer and a number. Precondition: it fits.
    fn mul(self, rhs: Fixed<i32, F>) -> Fixed<i32, F> {
        rhs * self
    }
}

impl<const F: u32> Mul<Fixed<i64, F>> for i64 {
    type Output = Fixed<i64, F>;

    ghost can_mul = { λ k a. InRange true 64 (a.bits *ℤ k) };

    ghost mul_gives = { λ k a r. r.bits ≡ a.bits *ℤ k };

    /// Returns the product of an integer and a number. Precondition: it fits.
    fn mul(self, rhs: Fixed<i64, F>) -> Fixed<i64, F> {
        rhs * self
    }
}

impl<const F: u32> Mul<Fixed<u8, F>> for u8 {
    type Output = Fixed<u8, F>;

    ghost can_mul = { λ k a. InRange false 8 (pos a.bits *ℤ pos k) };

    ghost mul_gives = { λ k a r. pos r.bits ≡ pos a.bits *ℤ pos k };

    /// Returns the product of an integer and a number. Precondition: it fits.
    fn mul(self, rhs: Fixed<u8, F>) -> Fixed<u8, F> {
        rhs * self
    }
}

impl<const F: u32> Mul<Fixed<u16, F>> for u16 {
    type Output = Fixed<u16, F>;

    ghost can_mul = { λ k a. InRange false 16 (pos a.bits *ℤ pos k) };

    ghost mul_gives = { λ k a r. pos r.bits ≡ pos a.bits *ℤ pos k };

    /// Returns the product of an integer and a number. Precondition: it fits.
    fn mul(self, rhs: Fixed<u16, F>) -> Fixed<u16, F> {
        rhs * self
    }
}

impl<const F: u32> Mul<Fixed<u32, F>> for u32 {
    type Output = Fixed<u32, F>;

    ghost can_mul = { λ k a. InRange false 32 (pos a.bits *ℤ pos k) };

    ghost mul_gives = { λ k a r. pos r.bits ≡ pos a.bits *ℤ pos k };

    /// Returns the product of an integer and a number. Precondition: it fits.
    fn mul(self, rhs: Fixed<u32, F>) -> Fixed<u32, F> {
        rhs * self
    }
}

impl<const F: u32> Mul<Fixed<u64, F>> for u64 {
    type Output = Fixed<u64, F>;

    ghost can_mul = { λ k a. InRange false 64 (pos a.bits *ℤ pos k) };

    ghost mul_gives = { λ k a r. pos r.bits ≡ pos a.bits *ℤ pos k };

    /// Returns the product of an integer and a number. Precondition: it fits.
    fn mul(self, rhs: Fixed<u64, F>) -> Fixed<u64, F> {
        rhs * self
    }
}
