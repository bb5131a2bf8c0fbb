//! The plain forms of multiply-add and of sums of products. The factors may have other fractions.

ghost use Rattle.std.specs.Prelude.{◌≡◌, ◌≤◌};
ghost use Rattle.fixed_word.specs.Format.{InRange};
ghost use Rattle.fixed_kernel.specs.Rows.{exact_add_prod, exact_mul_add};

use fixed_kernel::{add_prod_of, mul_add_of};
use fixed_num::{Fixed, Held, Number, exact_number};
use fixed_word::{RawWord, Word};

/// Multiply-add by a factor with G fraction bits. Precondition of each call: G is at most the width.
pub trait PlainMulAdd<const G: u32>: Number {
    /// Returns the product by `mul`, rounded down, plus `add`. Precondition: the sum fits. The product alone may be
    /// out of range.
    fn mul_add(self, mul: Fixed<Self::Bits, G>, add: Self) -> Self
        requires fraction { G ≤ Self.BITS }
        requires fits { InRange Self.SIGNED Self.BITS
            (exact_mul_add (Self.number self) (Self.Bits.value mul.bits) (Self.number add) G) }
        ensures { Self.number result
            ≡ exact_mul_add (Self.number self) (Self.Bits.value mul.bits) (Self.number add) G };
}

impl<T: Word, const F: u32, const G: u32> PlainMulAdd<G> for Fixed<T, F> {
    fn mul_add(self, mul: Fixed<T, G>, add: Self) -> Self
        requires fraction { G ≤ T.BITS }
        requires fits { InRange T.SIGNED T.BITS
            (exact_mul_add (T.value self.bits) (T.value mul.bits) (T.value add.bits) G) }
        ensures { T.value result.bits
            ≡ exact_mul_add (T.value self.bits) (T.value mul.bits) (T.value add.bits) G }
    {
        exact_number(mul_add_of(self.bits, mul.bits, add.bits, G))
    }
}

/// Sums with a product of factors with A and B fraction bits. Precondition of each call: F, A and B are at most the
/// width.
pub trait PlainProducts<const A: u32, const B: u32>: Number {
    /// Returns the number plus the product of `a` and `b`, which is rounded down to the number's fraction bits.
    /// Precondition: the sum fits.
    fn add_prod(self, a: Fixed<Self::Bits, A>, b: Fixed<Self::Bits, B>) -> Self
        requires fraction { Self.FRACTION ≤ Self.BITS }
        requires a { A ≤ Self.BITS }
        requires b { B ≤ Self.BITS }
        requires fits { InRange Self.SIGNED Self.BITS (exact_add_prod (Self.number self)
            (Self.Bits.value a.bits) (Self.Bits.value b.bits) Self.FRACTION A B) }
        ensures { Self.number result ≡ exact_add_prod (Self.number self)
            (Self.Bits.value a.bits) (Self.Bits.value b.bits) Self.FRACTION A B };

    /// Stores the result of `add_prod` in the number. Precondition: the result fits.
    fn mul_acc(&mut self, a: Fixed<Self::Bits, A>, b: Fixed<Self::Bits, B>)
        requires fraction { Self.FRACTION ≤ Self.BITS }
        requires a { A ≤ Self.BITS }
        requires b { B ≤ Self.BITS }
        requires fits { InRange Self.SIGNED Self.BITS (exact_add_prod (Self.number self.old)
            (Self.Bits.value a.bits) (Self.Bits.value b.bits) Self.FRACTION A B) }
        ensures { Self.number self.new ≡ exact_add_prod (Self.number self.old)
            (Self.Bits.value a.bits) (Self.Bits.value b.bits) Self.FRACTION A B };
}

impl<T: Word, const F: u32, const A: u32, const B: u32> PlainProducts<A, B> for Fixed<T, F> {
    fn add_prod(self, a: Fixed<T, A>, b: Fixed<T, B>) -> Self
        requires fraction { F ≤ T.BITS }
        requires a { A ≤ T.BITS }
        requires b { B ≤ T.BITS }
        requires fits { InRange T.SIGNED T.BITS
            (exact_add_prod (T.value self.bits) (T.value a.bits) (T.value b.bits) F A B) }
        ensures { T.value result.bits
            ≡ exact_add_prod (T.value self.bits) (T.value a.bits) (T.value b.bits) F A B }
    {
        exact_number(add_prod_of(self.bits, a.bits, b.bits, F, A, B))
    }

    fn mul_acc(&mut self, a: Fixed<T, A>, b: Fixed<T, B>)
        requires fraction { F ≤ T.BITS }
        requires a { A ≤ T.BITS }
        requires b { B ≤ T.BITS }
        requires fits { InRange T.SIGNED T.BITS
            (exact_add_prod (T.value self.old.bits) (T.value a.bits) (T.value b.bits) F A B) }
        ensures { T.value self.new.bits
            ≡ exact_add_prod (T.value self.old.bits) (T.value a.bits) (T.value b.bits) F A B }
    {
        *self = self.add_prod(a, b);
    }
}
