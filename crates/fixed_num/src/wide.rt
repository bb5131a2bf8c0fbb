//! Products and quotients in a word of twice the width.

ghost use Rattle.std.specs.Prelude.{◌≡◌, ◌≢◌, ◌≤◌, ◌+◌, ◌*◌, ◌-◌, ◌<◌, ◌^◌, ◌*ℤ◌, ◌⊎◌, ℕ, ℤ, negsuc, pos, true};
ghost use Rattle.fixed_word.specs.Format.{InRange, lowest, wrap};
ghost use Rattle.fixed_word.specs.Quotient.{truncated_quotient};

use crate::format::Fixed;
use fixed_word::{Narrow, RawWord, SignedWord, UnsignedWord, Valued, Word};

/// Returns the product of two words, wrapped to a third.
fn product<A: RawWord, B: RawWord, R: RawWord>(a: A, b: B) -> R
    ensures value { R.value result ≡ wrap R.SIGNED R.BITS (A.value a *ℤ B.value b) }
    ensures a_in_range { InRange A.SIGNED A.BITS (A.value a) }
    ensures b_in_range { InRange B.SIGNED B.BITS (B.value b) }
{
    let magnitude = a.magnitude() as u128 * b.magnitude() as u128;
    R::residue(a.is_below_zero() != b.is_below_zero(), magnitude)
}

/// Returns `a 2^by / b`, rounded toward zero and wrapped to a third word.
fn quotient<A: RawWord, B: RawWord, R: RawWord>(a: A, b: B, by: u32) -> R
    requires by { by ≤ 32 }
    requires divisor { B.value b ≢ pos 0 }
    ensures value { R.value result
        ≡ wrap R.SIGNED R.BITS (truncated_quotient (A.value a *ℤ pos (2 ^ by)) (B.value b)) }
    ensures a_in_range { InRange A.SIGNED A.BITS (A.value a) }
    ensures b_in_range { InRange B.SIGNED B.BITS (B.value b) }
{
    let magnitude = ((a.magnitude() as u128) << by) / b.magnitude() as u128;
    R::residue(a.is_below_zero() != b.is_below_zero(), magnitude)
}

impl<T: Narrow, const F: u32> Fixed<T, F> {
    /// Returns the exact product, which always fits. Preconditions: F and G are at most the width, and H is their
    /// sum.
    pub fn wide_mul<const G: u32, const H: u32>(self, rhs: Fixed<T, G>) -> Fixed<T::Double, H>
        requires f { F ≤ T.BITS }
        requires g { G ≤ T.BITS }
        requires h { H ≡ F + G }
        ensures { T.Double.value result.bits ≡ T.value self.bits *ℤ T.value rhs.bits }
    {
        Fixed {
            bits: product(self.bits, rhs.bits),
        }
    }

    /// Returns the quotient, rounded toward zero: its bits are `a 2^n / b`, where n is the width of the operands.
    /// Preconditions: each fraction is at most the width of its word, H + G is n + F, and the divisor is not 0. For
    /// signed numbers, the quotient is not that of `MIN` by bits -1.
    pub fn wide_div<const G: u32, const H: u32>(self, rhs: Fixed<T, G>) -> Fixed<T::Double, H>
        requires f { F ≤ T.BITS }
        requires g { G ≤ T.BITS }
        requires h { H ≤ 2 * T.BITS }
        requires place { H + G ≡ T.BITS + F }
        requires divisor { T.value rhs.bits ≢ pos 0 }
        requires fits { T.SIGNED ≡ true → T.value rhs.bits ≡ negsuc 0
            → T.value self.bits ≢ lowest T.SIGNED T.BITS }
        ensures { T.Double.value result.bits
            ≡ truncated_quotient (T.value self.bits *ℤ pos (2 ^ T.BITS)) (T.value rhs.bits) }
    {
        Fixed {
            bits: quotient(self.bits, rhs.bits, T::BITS),
        }
    }
}

impl<T: SignedWord + Narrow, const F: u32> Fixed<T, F> {
    /// Returns the exact product by an unsigned number, which always fits. Preconditions: F and G are at most the
    /// width, and H is their sum.
    pub fn wide_mul_unsigned<const G: u32, const H: u32>(
        self,
        rhs: Fixed<T::Unsigned, G>,
    ) -> Fixed<T::Double, H>
        requires f { F ≤ T.BITS }
        requires g { G ≤ T.BITS }
        requires h { H ≡ F + G }
        ensures { T.Double.value result.bits ≡ T.value self.bits *ℤ T.Unsigned.value rhs.bits }
    {
        Fixed {
            bits: product(self.bits, rhs.bits),
        }
    }

    /// Returns the quotient, rounded toward zero, with one fraction bit less than `wide_div`. Its bits are
    /// `a 2^(n-1) / b`, where n is the width of the operands. It always fits. Preconditions: each fraction is at most
    /// the width of its word, H + G + 1 is n + F, and the divisor is not 0.
    pub fn wide_sdiv<const G: u32, const H: u32>(self, rhs: Fixed<T, G>) -> Fixed<T::Double, H>
        requires f { F ≤ T.BITS }
        requires g { G ≤ T.BITS }
        requires h { H ≤ 2 * T.BITS }
        requires place { H + G + 1 ≡ T.BITS + F }
        requires divisor { T.value rhs.bits ≢ pos 0 }
        ensures { T.Double.value result.bits
            ≡ truncated_quotient (T.value self.bits *ℤ pos (2 ^ (T.BITS - 1))) (T.value rhs.bits) }
    {
        Fixed {
            bits: quotient(self.bits, rhs.bits, T::BITS - 1),
        }
    }

    /// Returns the quotient by an unsigned number, rounded toward zero: its bits are `a 2^n / b`, where n is the
    /// width of the operands. It always fits. Preconditions: each fraction is at most the width of its word, H + G is
    /// n + F, and the divisor is not 0.
    pub fn wide_div_unsigned<const G: u32, const H: u32>(
        self,
        rhs: Fixed<T::Unsigned, G>,
    ) -> Fixed<T::Double, H>
        requires f { F ≤ T.BITS }
        requires g { G ≤ T.BITS }
        requires h { H ≤ 2 * T.BITS }
        requires place { H + G ≡ T.BITS + F }
        requires divisor { T.Unsigned.value rhs.bits ≢ pos 0 }
        ensures { T.Double.value result.bits
            ≡ truncated_quotient (T.value self.bits *ℤ pos (2 ^ T.BITS)) (T.Unsigned.value rhs.bits) }
    {
        Fixed {
            bits: quotient(self.bits, rhs.bits, T::BITS),
        }
    }
}

impl<T: UnsignedWord + Narrow, const F: u32> Fixed<T, F> {
    /// Returns the exact product by a signed number, which always fits. Preconditions: F and G are at most the width,
    /// and H is their sum.
    pub fn wide_mul_signed<const G: u32, const H: u32>(
        self,
        rhs: Fixed<T::Signed, G>,
    ) -> Fixed<<T::Double as Word>::Signed, H>
        requires f { F ≤ T.BITS }
        requires g { G ≤ T.BITS }
        requires h { H ≡ F + G }
        ensures { T.Double.Signed.value result.bits ≡ T.value self.bits *ℤ T.Signed.value rhs.bits }
    {
        Fixed {
            bits: product(self.bits, rhs.bits),
        }
    }

    /// Returns the quotient by a signed number, rounded toward zero: its bits are `a 2^(n-1) / b`, where n is the
    /// width of the operands. It always fits. Preconditions: each fraction is at most the width of its word, H + G +
    /// 1 is n + F, and the divisor is not 0.
    pub fn wide_sdiv_signed<const G: u32, const H: u32>(
        self,
        rhs: Fixed<T::Signed, G>,
    ) -> Fixed<<T::Double as Word>::Signed, H>
        requires f { F ≤ T.BITS }
        requires g { G ≤ T.BITS }
        requires h { H ≤ 2 * T.BITS }
        requires place { H + G + 1 ≡ T.BITS + F }
        requires divisor { T.Signed.value rhs.bits ≢ pos 0 }
        ensures { T.Double.Signed.value result.bits
            ≡ truncated_quotient (T.value self.bits *ℤ pos (2 ^ (T.BITS - 1))) (T.Signed.value rhs.bits) }
    {
        Fixed {
            bits: quotient(self.bits, rhs.bits, T::BITS - 1),
        }
    }
}
