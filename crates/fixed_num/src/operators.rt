//! The operators between numbers of one format.
//!
//! Each operator returns the exact result. Precondition: there is one, and it fits. The assigning forms store the
//! same result.

ghost use Rattle.std.specs.Prelude.{◌≡◌, ◌≢◌, ◌≤◌, pos, neg_ℤ, ◌+ℤ◌, ◌-ℤ◌};
ghost use Rattle.fixed_word.specs.Format.{InRange};
ghost use Rattle.fixed_kernel.specs.Rows.{exact_div, exact_mul, exact_rem};

use crate::format::Fixed;
use crate::from_outcome::exact_number;
use fixed_kernel::{add_of, div_of, mul_of, neg_of, rem_of, sub_of};
use fixed_word::{RawWord, SignedWord, Word};
use std::ops::{
    Add, AddAssign, Div, DivAssign, Mul, MulAssign, Neg, Rem, RemAssign, Sub, SubAssign,
};

impl<T: SignedWord, const F: u32> Neg for Fixed<T, F> {
    type Output = Self;

    ghost can_neg = { λ a. InRange T.SIGNED T.BITS (neg_ℤ (T.value a.bits)) };

    ghost neg_gives = { λ a r. T.value r.bits ≡ neg_ℤ (T.value a.bits) };

    /// Returns the negated number. Precondition: it fits.
    fn neg(self) -> Self {
        exact_number(neg_of(self.bits))
    }
}

impl<T: Word, const F: u32> Add for Fixed<T, F> {
    type Output = Self;

    ghost can_add = { λ a b. InRange T.SIGNED T.BITS (T.value a.bits +ℤ T.value b.bits) };

    ghost add_gives = { λ a b r. T.value r.bits ≡ T.value a.bits +ℤ T.value b.bits };

    /// Returns the sum. Precondition: it fits.
    fn add(self, rhs: Self) -> Self {
        exact_number(add_of(self.bits, rhs.bits))
    }
}

impl<T: Word, const F: u32> AddAssign for Fixed<T, F> {
    ghost can_add_assign = { λ a b. InRange T.SIGNED T.BITS (T.value a.bits +ℤ T.value b.bits) };

    ghost add_assign_gives = { λ a b r. T.value r.bits ≡ T.value a.bits +ℤ T.value b.bits };

    /// Stores the sum. Precondition: it fits.
    fn add_assign(&mut self, rhs: Self) {
        *self = *self + rhs;
    }
}

impl<T: Word, const F: u32> Sub for Fixed<T, F> {
    type Output = Self;

    ghost can_sub = { λ a b. InRange T.SIGNED T.BITS (T.value a.bits -ℤ T.value b.bits) };

    ghost sub_gives = { λ a b r. T.value r.bits ≡ T.value a.bits -ℤ T.value b.bits };

    /// Returns the difference. Precondition: it fits.
    fn sub(self, rhs: Self) -> Self {
        exact_number(sub_of(self.bits, rhs.bits))
    }
}

impl<T: Word, const F: u32> SubAssign for Fixed<T, F> {
    ghost can_sub_assign = { λ a b. InRange T.SIGNED T.BITS (T.value a.bits -ℤ T.value b.bits) };

    ghost sub_assign_gives = { λ a b r. T.value r.bits ≡ T.value a.bits -ℤ T.value b.bits };

    /// Stores the difference. Precondition: it fits.
    fn sub_assign(&mut self, rhs: Self) {
        *self = *self - rhs;
    }
}

impl<T: Word, const F: u32> Mul for Fixed<T, F> {
    type Output = Self;

    ghost can_mul = { λ a b. (F ≤ T.BITS)
        × InRange T.SIGNED T.BITS (exact_mul (T.value a.bits) (T.value b.bits) F) };

    ghost mul_gives = { λ a b r. T.value r.bits ≡ exact_mul (T.value a.bits) (T.value b.bits) F };

    /// Returns the product, rounded down. Preconditions: F is at most the width, and the product fits.
    fn mul(self, rhs: Self) -> Self {
        exact_number(mul_of(self.bits, rhs.bits, F))
    }
}

impl<T: Word, const F: u32, const G: u32> MulAssign<Fixed<T, G>> for Fixed<T, F> {
    ghost can_mul_assign = { λ a b. (G ≤ T.BITS)
        × InRange T.SIGNED T.BITS (exact_mul (T.value a.bits) (T.value b.bits) G) };

    ghost mul_assign_gives = { λ a b r. T.value r.bits ≡ exact_mul (T.value a.bits) (T.value b.bits) G };

    /// Stores the product by a factor with any number G of fraction bits, rounded down. Preconditions: G is at most
    /// the width, and the product fits.
    fn mul_assign(&mut self, rhs: Fixed<T, G>) {
        *self = exact_number(mul_of(self.bits, rhs.bits, G));
    }
}

impl<T: Word, const F: u32> Div for Fixed<T, F> {
    type Output = Self;

    ghost can_div = { λ a b. (F ≤ T.BITS) × (T.value b.bits ≢ pos 0)
        × InRange T.SIGNED T.BITS (exact_div (T.value a.bits) (T.value b.bits) F) };

    ghost div_gives = { λ a b r. T.value r.bits ≡ exact_div (T.value a.bits) (T.value b.bits) F };

    /// Returns the quotient, rounded toward zero. Preconditions: F is at most the width, the divisor is not 0, and
    /// the quotient fits.
    fn div(self, rhs: Self) -> Self {
        exact_number(div_of(self.bits, rhs.bits, F))
    }
}

impl<T: Word, const F: u32> DivAssign for Fixed<T, F> {
    ghost can_div_assign = { λ a b. (F ≤ T.BITS) × (T.value b.bits ≢ pos 0)
        × InRange T.SIGNED T.BITS (exact_div (T.value a.bits) (T.value b.bits) F) };

    ghost div_assign_gives = { λ a b r. T.value r.bits ≡ exact_div (T.value a.bits) (T.value b.bits) F };

    /// Stores the quotient, rounded toward zero. Preconditions: F is at most the width, the divisor is not 0, and the
    /// quotient fits.
    fn div_assign(&mut self, rhs: Self) {
        *self = *self / rhs;
    }
}

impl<T: Word, const F: u32> Rem for Fixed<T, F> {
    type Output = Self;

    ghost can_rem = { λ a b. (T.value b.bits ≢ pos 0)
        × InRange T.SIGNED T.BITS (exact_rem (T.value a.bits) (T.value b.bits)) };

    ghost rem_gives = { λ a b r. T.value r.bits ≡ exact_rem (T.value a.bits) (T.value b.bits) };

    /// Returns the remainder of the quotient that is rounded toward zero. It always fits. Precondition: the divisor
    /// is not 0.
    fn rem(self, rhs: Self) -> Self {
        exact_number(rem_of(self.bits, rhs.bits))
    }
}

impl<T: Word, const F: u32> RemAssign for Fixed<T, F> {
    ghost can_rem_assign = { λ a b. (T.value b.bits ≢ pos 0)
        × InRange T.SIGNED T.BITS (exact_rem (T.value a.bits) (T.value b.bits)) };

    ghost rem_assign_gives = { λ a b r. T.value r.bits ≡ exact_rem (T.value a.bits) (T.value b.bits) };

    /// Stores the remainder of the quotient that is rounded toward zero. Precondition: the divisor is not 0.
    fn rem_assign(&mut self, rhs: Self) {
        *self = *self % rhs;
    }
}
