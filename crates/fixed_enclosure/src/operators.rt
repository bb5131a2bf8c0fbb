//! Operators between enclosures. Precondition of each: the ends of the result fit.

ghost use Rattle.std.specs.Prelude.{◌≡◌, ◌≤◌, false};
ghost use Rattle.fixed_interval.specs.Ends.{difference_of, ends_of, has_zero, negation_of, product_of, quotient_of, sum_of};
ghost use Rattle.fixed_enclosure.specs.Sets.{EndsFit};

use crate::enclosure::Enclosure;
use fixed_word::Word;
use std::ops::{Add, Div, Mul, Neg, Sub};

impl<T: Word, const F: u32> Neg for Enclosure<T, F> {
    type Output = Self;

    ghost can_neg = { λ a. EndsFit T.SIGNED T.BITS (negation_of (ends_of T.value a)) };

    ghost neg_gives = { λ a r. ends_of T.value r ≡ negation_of (ends_of T.value a) };

    /// Returns the enclosure of the negatives. Precondition: the ends of the result fit.
    fn neg(self) -> Self {
        self.checked_neg().unwrap()
    }
}

impl<T: Word, const F: u32> Add for Enclosure<T, F> {
    type Output = Self;

    ghost can_add = { λ a b. EndsFit T.SIGNED T.BITS (sum_of (ends_of T.value a) (ends_of T.value b)) };

    ghost add_gives = { λ a b r. ends_of T.value r ≡ sum_of (ends_of T.value a) (ends_of T.value b) };

    /// Returns the enclosure of the sums. Precondition: the ends of the result fit.
    fn add(self, rhs: Self) -> Self {
        self.checked_add(rhs).unwrap()
    }
}

impl<T: Word, const F: u32> Sub for Enclosure<T, F> {
    type Output = Self;

    ghost can_sub = { λ a b. EndsFit T.SIGNED T.BITS (difference_of (ends_of T.value a) (ends_of T.value b)) };

    ghost sub_gives = { λ a b r. ends_of T.value r ≡ difference_of (ends_of T.value a) (ends_of T.value b) };

    /// Returns the enclosure of the differences. Precondition: the ends of the result fit.
    fn sub(self, rhs: Self) -> Self {
        self.checked_sub(rhs).unwrap()
    }
}

impl<T: Word, const F: u32> Mul for Enclosure<T, F> {
    type Output = Self;

    ghost can_mul = { λ a b. (F ≤ T.BITS)
        × EndsFit T.SIGNED T.BITS (product_of (ends_of T.value a) (ends_of T.value b) F) };

    ghost mul_gives = { λ a b r. ends_of T.value r ≡ product_of (ends_of T.value a) (ends_of T.value b) F };

    /// Returns the enclosure of the products. Preconditions: F is at most the width, and the ends of the result fit.
    fn mul(self, rhs: Self) -> Self {
        self.checked_mul(rhs).unwrap()
    }
}

impl<T: Word, const F: u32> Div for Enclosure<T, F> {
    type Output = Self;

    ghost can_div = { λ a b. (F ≤ T.BITS) × (has_zero (ends_of T.value b) ≡ false)
        × EndsFit T.SIGNED T.BITS (quotient_of (ends_of T.value a) (ends_of T.value b) F) };

    ghost div_gives = { λ a b r. ends_of T.value r ≡ quotient_of (ends_of T.value a) (ends_of T.value b) F };

    /// Returns the enclosure of the quotients. Preconditions: F is at most the width, 0 is outside the divisor, and the
    /// ends of the result fit.
    fn div(self, rhs: Self) -> Self {
        self.checked_div(rhs).unwrap()
    }
}
