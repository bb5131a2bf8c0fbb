//! The `unwrapped_` forms of multiply-add and of sums of products. The factors may have other fractions.

ghost use Rattle.std.specs.Prelude.{◌≡◌, ◌≤◌};
ghost use Rattle.fixed_word.specs.Format.{InRange};
ghost use Rattle.fixed_kernel.specs.Rows.{exact_add_prod, exact_mul_add};
ghost use Rattle.fixed_kernel.specs.RoundedRows.{rounded_add_prod, rounded_mul_add};

use crate::strict_products::{StrictMulAdd, StrictProducts};
use fixed_num::{Fixed, Held, Number};
use fixed_word::{RawWord, Rounding, Word};

/// Multiply-add by a factor with G fraction bits. Precondition of each call: G is at most the width.
pub trait UnwrappedMulAdd<const G: u32>: Number {
    /// Returns the product by `mul`, rounded down, plus `add`. Precondition: the sum fits. The product alone may be
    /// out of range.
    fn unwrapped_mul_add(self, mul: Fixed<Self::Bits, G>, add: Self) -> Self
        requires fraction { G ≤ Self.BITS }
        requires fits { InRange Self.SIGNED Self.BITS
            (exact_mul_add (Self.number self) (Self.Bits.value mul.bits) (Self.number add) G) }
        ensures { Self.number result
            ≡ exact_mul_add (Self.number self) (Self.Bits.value mul.bits) (Self.number add) G };

    /// Returns the product by `mul`, rounded as named, plus `add`. Precondition: the sum fits.
    fn unwrapped_mul_add_round(
        self,
        mul: Fixed<Self::Bits, G>,
        add: Self,
        rounding: Rounding,
    ) -> Self
        requires fraction { G ≤ Self.BITS }
        requires fits { InRange Self.SIGNED Self.BITS
            (rounded_mul_add (Self.number self) (Self.Bits.value mul.bits) (Self.number add) G rounding) }
        ensures { Self.number result
            ≡ rounded_mul_add (Self.number self) (Self.Bits.value mul.bits) (Self.number add) G rounding };
}

impl<T: Word, const F: u32, const G: u32> UnwrappedMulAdd<G> for Fixed<T, F> {
    fn unwrapped_mul_add(self, mul: Fixed<T, G>, add: Self) -> Self
        requires fraction { G ≤ T.BITS }
        requires fits { InRange T.SIGNED T.BITS
            (exact_mul_add (T.value self.bits) (T.value mul.bits) (T.value add.bits) G) }
        ensures { T.value result.bits
            ≡ exact_mul_add (T.value self.bits) (T.value mul.bits) (T.value add.bits) G }
    {
        self.strict_mul_add(mul, add)
    }

    fn unwrapped_mul_add_round(self, mul: Fixed<T, G>, add: Self, rounding: Rounding) -> Self
        requires fraction { G ≤ T.BITS }
        requires fits { InRange T.SIGNED T.BITS
            (rounded_mul_add (T.value self.bits) (T.value mul.bits) (T.value add.bits) G rounding) }
        ensures { T.value result.bits
            ≡ rounded_mul_add (T.value self.bits) (T.value mul.bits) (T.value add.bits) G rounding }
    {
        self.strict_mul_add_round(mul, add, rounding)
    }
}

/// Sums with a product of factors with A and B fraction bits. Precondition of each call: F, A and B are at most the
/// width.
pub trait UnwrappedProducts<const A: u32, const B: u32>: Number {
    /// Returns the number plus the product of `a` and `b`, which is rounded down to the number's fraction bits.
    /// Precondition: the sum fits.
    fn unwrapped_add_prod(self, a: Fixed<Self::Bits, A>, b: Fixed<Self::Bits, B>) -> Self
        requires fraction { Self.FRACTION ≤ Self.BITS }
        requires a { A ≤ Self.BITS }
        requires b { B ≤ Self.BITS }
        requires fits { InRange Self.SIGNED Self.BITS (exact_add_prod (Self.number self)
            (Self.Bits.value a.bits) (Self.Bits.value b.bits) Self.FRACTION A B) }
        ensures { Self.number result ≡ exact_add_prod (Self.number self)
            (Self.Bits.value a.bits) (Self.Bits.value b.bits) Self.FRACTION A B };

    /// Returns the number plus the product of `a` and `b`, which is rounded as named to the number's fraction bits.
    /// Precondition: the sum fits.
    fn unwrapped_add_prod_round(
        self,
        a: Fixed<Self::Bits, A>,
        b: Fixed<Self::Bits, B>,
        rounding: Rounding,
    ) -> Self
        requires fraction { Self.FRACTION ≤ Self.BITS }
        requires a { A ≤ Self.BITS }
        requires b { B ≤ Self.BITS }
        requires fits { InRange Self.SIGNED Self.BITS
            (rounded_add_prod (Self.number self) (Self.Bits.value a.bits) (Self.Bits.value b.bits)
            Self.FRACTION A B rounding) }
        ensures { Self.number result
            ≡ rounded_add_prod (Self.number self) (Self.Bits.value a.bits) (Self.Bits.value b.bits)
            Self.FRACTION A B rounding };

    /// Stores the result of `unwrapped_add_prod` in the number. Precondition: the result fits.
    fn unwrapped_mul_acc(&mut self, a: Fixed<Self::Bits, A>, b: Fixed<Self::Bits, B>)
        requires fraction { Self.FRACTION ≤ Self.BITS }
        requires a { A ≤ Self.BITS }
        requires b { B ≤ Self.BITS }
        requires fits { InRange Self.SIGNED Self.BITS (exact_add_prod (Self.number self.old)
            (Self.Bits.value a.bits) (Self.Bits.value b.bits) Self.FRACTION A B) }
        ensures { Self.number self.new ≡ exact_add_prod (Self.number self.old)
            (Self.Bits.value a.bits) (Self.Bits.value b.bits) Self.FRACTION A B };
}

impl<T: Word, const F: u32, const A: u32, const B: u32> UnwrappedProducts<A, B> for Fixed<T, F> {
    fn unwrapped_add_prod(self, a: Fixed<T, A>, b: Fixed<T, B>) -> Self
        requires fraction { F ≤ T.BITS }
        requires a { A ≤ T.BITS }
        requires b { B ≤ T.BITS }
        requires fits { InRange T.SIGNED T.BITS
            (exact_add_prod (T.value self.bits) (T.value a.bits) (T.value b.bits) F A B) }
        ensures { T.value result.bits
            ≡ exact_add_prod (T.value self.bits) (T.value a.bits) (T.value b.bits) F A B }
    {
        self.strict_add_prod(a, b)
    }

    fn unwrapped_add_prod_round(self, a: Fixed<T, A>, b: Fixed<T, B>, rounding: Rounding) -> Self
        requires fraction { F ≤ T.BITS }
        requires a { A ≤ T.BITS }
        requires b { B ≤ T.BITS }
        requires fits { InRange T.SIGNED T.BITS
            (rounded_add_prod (T.value self.bits) (T.value a.bits) (T.value b.bits) F A B rounding) }
        ensures { T.value result.bits
            ≡ rounded_add_prod (T.value self.bits) (T.value a.bits) (T.value b.bits) F A B rounding }
    {
        self.strict_add_prod_round(a, b, rounding)
    }

    fn unwrapped_mul_acc(&mut self, a: Fixed<T, A>, b: Fixed<T, B>)
        requires fraction { F ≤ T.BITS }
        requires a { A ≤ T.BITS }
        requires b { B ≤ T.BITS }
        requires fits { InRange T.SIGNED T.BITS
            (exact_add_prod (T.value self.old.bits) (T.value a.bits) (T.value b.bits) F A B) }
        ensures { T.value self.new.bits
            ≡ exact_add_prod (T.value self.old.bits) (T.value a.bits) (T.value b.bits) F A B }
    {
        *self = self.unwrapped_add_prod(a, b);
    }
}
