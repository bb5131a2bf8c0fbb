//! The `wrapping_` forms of multiply-add and of sums of products. The factors may have other fractions.

ghost use Rattle.std.specs.Prelude.{◌≡◌, ◌≤◌, Some};
ghost use Rattle.fixed_word.specs.Policies.{wrapping};
ghost use Rattle.fixed_kernel.specs.Rows.{exact_add_prod, exact_mul_add};
ghost use Rattle.fixed_kernel.specs.RoundedRows.{rounded_add_prod, rounded_mul_add};

use fixed_kernel::{add_prod_of, add_prod_round_of, mul_add_of, mul_add_round_of};
use fixed_num::{Fixed, Held, Number, wrapping_number};
use fixed_word::{RawWord, Rounding, Word};

/// Multiply-add by a factor with G fraction bits. Precondition of each call: G is at most the width.
pub trait WrappingMulAdd<const G: u32>: Number {
    /// Returns the product by `mul`, rounded down, plus `add`, wrapped. The product alone may be out of range.
    fn wrapping_mul_add(self, mul: Fixed<Self::Bits, G>, add: Self) -> Self
        requires { G ≤ Self.BITS }
        ensures { Some (Self.number result) ≡ wrapping Self.SIGNED Self.BITS (Some
            (exact_mul_add (Self.number self) (Self.Bits.value mul.bits) (Self.number add) G)) };

    /// Returns the product by `mul`, rounded as named, plus `add`, wrapped.
    fn wrapping_mul_add_round(
        self,
        mul: Fixed<Self::Bits, G>,
        add: Self,
        rounding: Rounding,
    ) -> Self
        requires { G ≤ Self.BITS }
        ensures { Some (Self.number result) ≡ wrapping Self.SIGNED Self.BITS
            (Some (rounded_mul_add (Self.number self) (Self.Bits.value mul.bits)
            (Self.number add) G rounding)) };
}

impl<T: Word, const F: u32, const G: u32> WrappingMulAdd<G> for Fixed<T, F> {
    fn wrapping_mul_add(self, mul: Fixed<T, G>, add: Self) -> Self
        requires { G ≤ T.BITS }
        ensures { Some (T.value result.bits) ≡ wrapping T.SIGNED T.BITS
            (Some (exact_mul_add (T.value self.bits) (T.value mul.bits) (T.value add.bits) G)) }
    {
        wrapping_number(mul_add_of(self.bits, mul.bits, add.bits, G))
    }

    fn wrapping_mul_add_round(self, mul: Fixed<T, G>, add: Self, rounding: Rounding) -> Self
        requires { G ≤ T.BITS }
        ensures { Some (T.value result.bits) ≡ wrapping T.SIGNED T.BITS
            (Some (rounded_mul_add (T.value self.bits) (T.value mul.bits) (T.value add.bits) G rounding)) }
    {
        wrapping_number(mul_add_round_of(self.bits, mul.bits, add.bits, G, rounding))
    }
}

/// Sums with a product of factors with A and B fraction bits. Precondition of each call: F, A and B are at most the
/// width.
pub trait WrappingProducts<const A: u32, const B: u32>: Number {
    /// Returns the number plus the product of `a` and `b`, which is rounded down to the number's fraction bits,
    /// wrapped.
    fn wrapping_add_prod(self, a: Fixed<Self::Bits, A>, b: Fixed<Self::Bits, B>) -> Self
        requires fraction { Self.FRACTION ≤ Self.BITS }
        requires a { A ≤ Self.BITS }
        requires b { B ≤ Self.BITS }
        ensures { Some (Self.number result)
            ≡ wrapping Self.SIGNED Self.BITS (Some (exact_add_prod (Self.number self)
            (Self.Bits.value a.bits) (Self.Bits.value b.bits) Self.FRACTION A B)) };

    /// Returns the number plus the product of `a` and `b`, which is rounded as named to the number's fraction bits,
    /// wrapped.
    fn wrapping_add_prod_round(
        self,
        a: Fixed<Self::Bits, A>,
        b: Fixed<Self::Bits, B>,
        rounding: Rounding,
    ) -> Self
        requires fraction { Self.FRACTION ≤ Self.BITS }
        requires a { A ≤ Self.BITS }
        requires b { B ≤ Self.BITS }
        ensures { Some (Self.number result) ≡ wrapping Self.SIGNED Self.BITS
            (Some (rounded_add_prod (Self.number self) (Self.Bits.value a.bits) (Self.Bits.value b.bits)
            Self.FRACTION A B rounding)) };

    /// Stores the result of `wrapping_add_prod` in the number.
    fn wrapping_mul_acc(&mut self, a: Fixed<Self::Bits, A>, b: Fixed<Self::Bits, B>)
        requires fraction { Self.FRACTION ≤ Self.BITS }
        requires a { A ≤ Self.BITS }
        requires b { B ≤ Self.BITS }
        ensures { Some (Self.number self.new)
            ≡ wrapping Self.SIGNED Self.BITS (Some (exact_add_prod (Self.number self.old)
            (Self.Bits.value a.bits) (Self.Bits.value b.bits) Self.FRACTION A B)) };
}

impl<T: Word, const F: u32, const A: u32, const B: u32> WrappingProducts<A, B> for Fixed<T, F> {
    fn wrapping_add_prod(self, a: Fixed<T, A>, b: Fixed<T, B>) -> Self
        requires fraction { F ≤ T.BITS }
        requires a { A ≤ T.BITS }
        requires b { B ≤ T.BITS }
        ensures { Some (T.value result.bits) ≡ wrapping T.SIGNED T.BITS
            (Some (exact_add_prod (T.value self.bits) (T.value a.bits) (T.value b.bits) F A B)) }
    {
        wrapping_number(add_prod_of(self.bits, a.bits, b.bits, F, A, B))
    }

    fn wrapping_add_prod_round(self, a: Fixed<T, A>, b: Fixed<T, B>, rounding: Rounding) -> Self
        requires fraction { F ≤ T.BITS }
        requires a { A ≤ T.BITS }
        requires b { B ≤ T.BITS }
        ensures { Some (T.value result.bits) ≡ wrapping T.SIGNED T.BITS
            (Some (rounded_add_prod (T.value self.bits) (T.value a.bits) (T.value b.bits) F A B rounding)) }
    {
        wrapping_number(add_prod_round_of(self.bits, a.bits, b.bits, F, A, B, rounding))
    }

    fn wrapping_mul_acc(&mut self, a: Fixed<T, A>, b: Fixed<T, B>)
        requires fraction { F ≤ T.BITS }
        requires a { A ≤ T.BITS }
        requires b { B ≤ T.BITS }
        ensures { Some (T.value self.new.bits) ≡ wrapping T.SIGNED T.BITS (Some
            (exact_add_prod (T.value self.old.bits) (T.value a.bits) (T.value b.bits) F A B)) }
    {
        *self = self.wrapping_add_prod(a, b);
    }
}
