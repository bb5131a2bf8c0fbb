//! The number type, its constants, and the traits by which generic calls name its parts.

ghost use Rattle.std.specs.Prelude.{◌≡◌, ◌≤◌, ◌-◌, ◌^◌, ◌↔◌, ℕ, ℤ, Bool, IsTrue, Some, false, neg_ℤ, pos, refl, true};
ghost use Rattle.std.specs.Ordering.{int_cmp};
ghost use Rattle.std.proofs.Common.{ap};
ghost use Rattle.fixed_word.specs.Format.{InRange, highest, lowest};

use fixed_word::{RawWord, Word};

/// The number `bits * 2^-F`: a word of bits, of which F are fraction bits. `FixedI32::<16>::from_bits(98304)` is
/// `1.5`. (`fixed` has a type for each word: `FixedI8` and so on.)
#[derive(Clone, Copy, PartialEq, Eq, PartialOrd, Ord, Hash)]
pub struct Fixed<T: RawWord, const F: u32> {
    /// The number in units of `2^-F`.
    pub bits: T,
}

/// A signed number of 8 bits, F of them fraction bits.
pub type FixedI8<const F: u32> = Fixed<i8, F>;

/// A signed number of 16 bits, F of them fraction bits.
pub type FixedI16<const F: u32> = Fixed<i16, F>;

/// A signed number of 32 bits, F of them fraction bits.
pub type FixedI32<const F: u32> = Fixed<i32, F>;

/// A signed number of 64 bits, F of them fraction bits.
pub type FixedI64<const F: u32> = Fixed<i64, F>;

/// An unsigned number of 8 bits, F of them fraction bits.
pub type FixedU8<const F: u32> = Fixed<u8, F>;

/// An unsigned number of 16 bits, F of them fraction bits.
pub type FixedU16<const F: u32> = Fixed<u16, F>;

/// An unsigned number of 32 bits, F of them fraction bits.
pub type FixedU32<const F: u32> = Fixed<u32, F>;

/// An unsigned number of 64 bits, F of them fraction bits.
pub type FixedU64<const F: u32> = Fixed<u64, F>;

/// A type that holds the bits of a word. (`fixed` does not have this trait.)
pub trait Held: Copy {
    /// The word that holds the bits.
    type Bits: RawWord;

    // the bits, and the bits as a whole number
    ghost held: { Self → Self.Bits };

    ghost number: { Self → ℤ };

    /// Returns the number with these bits, in units of `2^-F`.
    fn from_bits(bits: Self::Bits) -> Self
        ensures { held result ≡ bits };

    /// Returns the bits: the number in units of `2^-F`.
    fn to_bits(self) -> Self::Bits
        ensures { result ≡ held self };

    ghost number_law: { (x : Self) → number x ≡ Self.Bits.value (held x) };

    ghost equal_law: { (x y : Self) → held x ≡ held y → x ≡ y };
}

impl<T: RawWord, const F: u32> Held for Fixed<T, F> {
    type Bits = T;

    ghost held = { λ x. x.bits };

    ghost number = { λ x. T.value x.bits };

    fn from_bits(bits: T) -> Self {
        Fixed { bits }
    }

    fn to_bits(self) -> T {
        self.bits
    }

    ghost number_law = { λ x. refl };

    ghost equal_law = { λ x y e. ap (λ b. record { bits = b }) e };
}

/// A number of any format, as generic code sees it: its constants, its order, its related types and its fraction. It
/// has its own signedness and width, since a law cannot cite one of a supertrait. (`fixed` does not have this trait.)
pub trait Number: Held + Constants + Eq + Ord + Default {
    /// The unsigned number type of the same width and fraction.
    type Unsigned: Held;

    /// The signed number type of the same width and fraction.
    type Signed: Held;

    /// The number of fraction bits, F; the same as `Constants::FRAC_NBITS`.
    const FRACTION: u32;

    ghost FRACTION: { ℕ };

    ghost SIGNED: { Bool };

    ghost BITS: { ℕ };

    /// Returns whether the number is 0.
    fn is_zero(self) -> bool
        ensures { IsTrue result ↔ (Self.number self ≡ pos 0) };

    // sign and width are those of the bits, so that generic code has the laws of words, `width_law` among them
    ghost sign_law: { SIGNED ≡ Self.Bits.SIGNED };

    ghost bits_law: { BITS ≡ Self.Bits.BITS };

    ghost unsigned_bits_law: { Self.Unsigned.Bits.BITS ≡ BITS };

    ghost unsigned_is_unsigned_law: { Self.Unsigned.Bits.SIGNED ≡ false };

    ghost signed_bits_law: { Self.Signed.Bits.BITS ≡ BITS };

    ghost signed_is_signed_law: { Self.Signed.Bits.SIGNED ≡ true };

    // what the constants and the default are
    ghost zero_law: { Self.number Self.ZERO ≡ pos 0 };

    ghost delta_law: { Self.number Self.DELTA ≡ pos 1 };

    ghost min_law: { Self.number Self.MIN ≡ lowest SIGNED BITS };

    ghost max_law: { Self.number Self.MAX ≡ highest SIGNED BITS };

    ghost is_signed_law: { Self.IS_SIGNED ≡ SIGNED };

    ghost fraction_law: { Self.FRAC_NBITS ≡ FRACTION };

    ghost default_law: { (x : Self) → Self.is_default x → Self.number x ≡ pos 0 };

    // equality and order are those of the whole numbers
    ghost eq_law: { (x y : Self) → IsTrue (Self.eq x y) ↔ (Self.number x ≡ Self.number y) };

    ghost order_law: { (x y : Self) → Self.cmp x y ≡ int_cmp (Self.number x) (Self.number y) };

    ghost partial_order_law: { (x y : Self) → Self.partial_cmp x y
        ≡ Some (int_cmp (Self.number x) (Self.number y)) };
}

impl<T: RawWord, const F: u32> Fixed<T, F> {
    /// Returns the number with these bits, in units of `2^-F`.
    pub const fn from_bits(bits: T) -> Self
        ensures { result.bits ≡ bits }
    {
        Fixed { bits }
    }

    /// Returns the bits: the number in units of `2^-F`.
    pub const fn to_bits(self) -> T
        ensures { result ≡ self.bits }
    {
        self.bits
    }
}

impl<T: Word, const F: u32> Number for Fixed<T, F> {
    type Unsigned = Fixed<T::Unsigned, F>;

    type Signed = Fixed<T::Signed, F>;

    const FRACTION: u32 = F;

    ghost FRACTION = { F };

    ghost SIGNED = { T.SIGNED };

    ghost BITS = { T.BITS };

    fn is_zero(self) -> bool {
        Fixed::is_zero(self)
    }

    ghost sign_law = { refl };

    ghost bits_law = { refl };

    ghost unsigned_bits_law = { T.unsigned_width_law };

    ghost unsigned_is_unsigned_law = { T.unsigned_sign_law };

    ghost signed_bits_law = { T.signed_width_law };

    ghost signed_is_signed_law = { T.signed_sign_law };

    ghost zero_law = { T.zero_law };

    ghost delta_law = { T.one_law };

    ghost min_law = { T.min_law };

    ghost max_law = { T.max_law };

    ghost is_signed_law = { refl };

    ghost fraction_law = { refl };

    ghost default_law = { λ x zero. zero };

    ghost eq_law = { λ x y. T.eq_law x.bits y.bits };

    ghost order_law = { λ x y. T.order_law x.bits y.bits };

    ghost partial_order_law = { λ x y. T.partial_order_law x.bits y.bits };
}

impl<T: RawWord, const F: u32> Default for Fixed<T, F> {
    ghost is_default = { λ x. T.value x.bits ≡ pos 0 };

    /// The number 0.
    fn default() -> Self {
        Fixed { bits: T::ZERO }
    }
}

/// The constants of a format. They are in a trait since contracts cannot name inherent constants of a generic type.
pub trait Constants: Sized {
    /// The number 0.
    const ZERO: Self;

    /// The smallest positive number: one unit, `2^-F`.
    const DELTA: Self;

    /// The smallest number.
    const MIN: Self;

    /// The largest number.
    const MAX: Self;

    /// Whether the format has negative numbers.
    const IS_SIGNED: bool;

    /// The number of fraction bits, F.
    const FRAC_NBITS: u32;

    ghost ZERO: { Self };

    ghost DELTA: { Self };

    ghost MIN: { Self };

    ghost MAX: { Self };

    ghost IS_SIGNED: { Bool };

    ghost FRAC_NBITS: { ℕ };
}

impl<T: Word, const F: u32> Constants for Fixed<T, F> {
    const ZERO: Self = Fixed { bits: T::ZERO };

    const DELTA: Self = Fixed { bits: T::ONE };

    const MIN: Self = Fixed { bits: T::MIN };

    const MAX: Self = Fixed { bits: T::MAX };

    const IS_SIGNED: bool = T::SIGNED;

    const FRAC_NBITS: u32 = F;

    ghost ZERO = { record { bits = T.ZERO } };

    ghost DELTA = { record { bits = T.ONE } };

    ghost MIN = { record { bits = T.MIN } };

    ghost MAX = { record { bits = T.MAX } };

    ghost IS_SIGNED = { T.SIGNED };

    ghost FRAC_NBITS = { F };
}

impl<T: Word, const F: u32> Fixed<T, F> {
    /// Returns the number of integer bits: the width minus F. Precondition: F is at most the width. (This is the
    /// constant `INT_NBITS` of `fixed`.)
    pub fn int_nbits() -> u32
        requires { F ≤ T.BITS }
        ensures { result ≡ T.BITS - F }
    {
        T::BITS - F
    }

    /// Returns the number 1, whose bits are `2^F`. Precondition: it fits. (This is the constant `ONE` of `fixed`.)
    pub fn one() -> Self
        requires { InRange T.SIGNED T.BITS (pos (2 ^ F)) }
        ensures { T.value result.bits ≡ pos (2 ^ F) }
    {
        Fixed {
            bits: T::residue(false, 1 << F),
        }
    }

    /// Returns the number -1, whose bits are `-2^F`. Precondition: it fits. (This is the constant `NEG_ONE` of
    /// `fixed`.)
    pub fn neg_one() -> Self
        requires { InRange T.SIGNED T.BITS (neg_ℤ (pos (2 ^ F))) }
        ensures { T.value result.bits ≡ neg_ℤ (pos (2 ^ F)) }
    {
        Fixed {
            bits: T::residue(true, 1 << F),
        }
    }

    /// Returns whether the number is 0.
    pub fn is_zero(self) -> bool
        ensures { IsTrue result ↔ (T.value self.bits ≡ pos 0) }
    {
        self.bits == T::ZERO
    }
}
