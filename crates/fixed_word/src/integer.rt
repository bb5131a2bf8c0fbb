//! Integers that hold products and quotients of words.

ghost use Rattle.std.specs.Prelude.{◌≡◌, ◌≢◌, ◌↔◌, ◌<◌, ◌^◌, ◌+ℤ◌, ◌-ℤ◌, ◌*ℤ◌, ◌<ℤ◌, ℕ, ℤ, Bool, true, false, IsTrue, pos};
ghost use Rattle.fixed_word.specs.Format.{InRange, wrap};
ghost use Rattle.fixed_word.specs.Quotient.{euclidean_quotient, euclidean_remainder, floor_quotient, truncated_quotient};

use crate::word::Valued;

/// An integer of n bits, in which words are multiplied and divided.
pub trait Integer: Valued {
    ghost SIGNED: { Bool };

    /// Returns whether the value is negative.
    fn is_below_zero(self) -> bool
        ensures { IsTrue result ↔ (Self.value self <ℤ pos 0) };

    /// Returns whether the value is less than the other one.
    fn is_below(self, other: Self) -> bool
        ensures { IsTrue result ↔ (Self.value self <ℤ Self.value other) };

    /// Returns whether the value is the other one.
    fn equals(self, other: Self) -> bool
        ensures { IsTrue result ↔ (Self.value self ≡ Self.value other) };

    /// Returns the sum. Precondition: it is in the range.
    fn plus(self, other: Self) -> Self
        requires { InRange SIGNED Self.BITS (Self.value self +ℤ Self.value other) }
        ensures { Self.value result ≡ Self.value self +ℤ Self.value other };

    /// Returns the product. Precondition: it is in the range.
    fn times(self, other: Self) -> Self
        requires { InRange SIGNED Self.BITS (Self.value self *ℤ Self.value other) }
        ensures { Self.value result ≡ Self.value self *ℤ Self.value other };

    /// Returns the value times `2^by`. Preconditions: it is in the range, and `by` is below n.
    fn scaled(self, by: u32) -> Self
        requires by { by < Self.BITS }
        requires room { InRange SIGNED Self.BITS (Self.value self *ℤ pos (2 ^ by)) }
        ensures { Self.value result ≡ Self.value self *ℤ pos (2 ^ by) };

    /// Returns the value over `2^by`, rounded down. Precondition: `by` is below n.
    fn floored(self, by: u32) -> Self
        requires { by < Self.BITS }
        ensures { Self.value result ≡ floor_quotient (Self.value self) (2 ^ by) };

    /// Returns the quotient, rounded toward zero and wrapped. Only the quotient of the smallest number by -1 is out
    /// of range. Precondition: the divisor is not 0.
    fn over(self, divisor: Self) -> Self
        requires { Self.value divisor ≢ pos 0 }
        ensures { Self.value result
            ≡ wrap SIGNED Self.BITS (truncated_quotient (Self.value self) (Self.value divisor)) };

    /// Returns the remainder of the quotient that is rounded toward zero. Precondition: the divisor is not 0.
    fn remainder(self, divisor: Self) -> Self
        requires { Self.value divisor ≢ pos 0 }
        ensures { Self.value result
            ≡ Self.value self
            -ℤ Self.value divisor *ℤ truncated_quotient (Self.value self) (Self.value divisor) };

    /// Returns the Euclidean quotient. Preconditions: it is in the range, and the divisor is not 0.
    fn euclid_quotient(self, divisor: Self) -> Self
        requires divisor { Self.value divisor ≢ pos 0 }
        requires room { InRange SIGNED Self.BITS
            (euclidean_quotient (Self.value self) (Self.value divisor)) }
        ensures { Self.value result ≡ euclidean_quotient (Self.value self) (Self.value divisor) };

    /// Returns the Euclidean remainder. Precondition: the divisor is not 0.
    fn euclid_remainder(self, divisor: Self) -> Self
        requires { Self.value divisor ≢ pos 0 }
        ensures { Self.value result ≡ euclidean_remainder (Self.value self) (Self.value divisor) };
}

impl Integer for u16 {
    ghost SIGNED = { false };

    #[inline]
    fn is_below_zero(self) -> bool {
        false
    }

    #[inline]
    fn is_below(self, other: u16) -> bool {
        self < other
    }

    #[inline]
    fn equals(self, other: u16) -> bool {
        self == other
    }

    #[inline]
    fn plus(self, other: u16) -> u16 {
        self + other
    }

    #[inline]
    fn times(self, other: u16) -> u16 {
        self * other
    }

    #[inline]
    fn scaled(self, by: u32) -> u16 {
        self << by
    }

    #[inline]
    fn floored(self, by: u32) -> u16 {
        self >> by
    }

    #[inline]
    fn over(self, divisor: u16) -> u16 {
        self / divisor
    }

    #[inline]
    fn remainder(self, divisor: u16) -> u16 {
        self % divisor
    }

    #[inline]
    fn euclid_quotient(self, divisor: u16) -> u16 {
        self / divisor
    }

    #[inline]
    fn euclid_remainder(self, divisor: u16) -> u16 {
        self % divisor
    }
}

impl Integer for i16 {
    ghost SIGNED = { true };

    #[inline]
    fn is_below_zero(self) -> bool {
        self < 0
    }

    #[inline]
    fn is_below(self, other: i16) -> bool {
        self < other
    }

    #[inline]
    fn equals(self, other: i16) -> bool {
        self == other
    }

    #[inline]
    fn plus(self, other: i16) -> i16 {
        self + other
    }

    #[inline]
    fn times(self, other: i16) -> i16 {
        self * other
    }

    #[inline]
    fn scaled(self, by: u32) -> i16 {
        self << by
    }

    #[inline]
    fn floored(self, by: u32) -> i16 {
        self >> by
    }

    #[inline]
    fn over(self, divisor: i16) -> i16 {
        self.wrapping_div(divisor)
    }

    #[inline]
    fn remainder(self, divisor: i16) -> i16 {
        self.wrapping_rem(divisor)
    }

    #[inline]
    fn euclid_quotient(self, divisor: i16) -> i16 {
        self.wrapping_div_euclid(divisor)
    }

    #[inline]
    fn euclid_remainder(self, divisor: i16) -> i16 {
        self.wrapping_rem_euclid(divisor)
    }
}

impl Integer for u32 {
    ghost SIGNED = { false };

    #[inline]
    fn is_below_zero(self) -> bool {
        false
    }

    #[inline]
    fn is_below(self, other: u32) -> bool {
        self < other
    }

    #[inline]
    fn equals(self, other: u32) -> bool {
        self == other
    }

    #[inline]
    fn plus(self, other: u32) -> u32 {
        self + other
    }

    #[inline]
    fn times(self, other: u32) -> u32 {
        self * other
    }

    #[inline]
    fn scaled(self, by: u32) -> u32 {
        self << by
    }

    #[inline]
    fn floored(self, by: u32) -> u32 {
        self >> by
    }

    #[inline]
    fn over(self, divisor: u32) -> u32 {
        self / divisor
    }

    #[inline]
    fn remainder(self, divisor: u32) -> u32 {
        self % divisor
    }

    #[inline]
    fn euclid_quotient(self, divisor: u32) -> u32 {
        self / divisor
    }

    #[inline]
    fn euclid_remainder(self, divisor: u32) -> u32 {
        self % divisor
    }
}

impl Integer for i32 {
    ghost SIGNED = { true };

    #[inline]
    fn is_below_zero(self) -> bool {
        self < 0
    }

    #[inline]
    fn is_below(self, other: i32) -> bool {
        self < other
    }

    #[inline]
    fn equals(self, other: i32) -> bool {
        self == other
    }

    #[inline]
    fn plus(self, other: i32) -> i32 {
        self + other
    }

    #[inline]
    fn times(self, other: i32) -> i32 {
        self * other
    }

    #[inline]
    fn scaled(self, by: u32) -> i32 {
        self << by
    }

    #[inline]
    fn floored(self, by: u32) -> i32 {
        self >> by
    }

    #[inline]
    fn over(self, divisor: i32) -> i32 {
        self.wrapping_div(divisor)
    }

    #[inline]
    fn remainder(self, divisor: i32) -> i32 {
        self.wrapping_rem(divisor)
    }

    #[inline]
    fn euclid_quotient(self, divisor: i32) -> i32 {
        self.wrapping_div_euclid(divisor)
    }

    #[inline]
    fn euclid_remainder(self, divisor: i32) -> i32 {
        self.wrapping_rem_euclid(divisor)
    }
}

impl Integer for u64 {
    ghost SIGNED = { false };

    #[inline]
    fn is_below_zero(self) -> bool {
        false
    }

    #[inline]
    fn is_below(self, other: u64) -> bool {
        self < other
    }

    #[inline]
    fn equals(self, other: u64) -> bool {
        self == other
    }

    #[inline]
    fn plus(self, other: u64) -> u64 {
        self + other
    }

    #[inline]
    fn times(self, other: u64) -> u64 {
        self * other
    }

    #[inline]
    fn scaled(self, by: u32) -> u64 {
        self << by
    }

    #[inline]
    fn floored(self, by: u32) -> u64 {
        self >> by
    }

    #[inline]
    fn over(self, divisor: u64) -> u64 {
        self / divisor
    }

    #[inline]
    fn remainder(self, divisor: u64) -> u64 {
        self % divisor
    }

    #[inline]
    fn euclid_quotient(self, divisor: u64) -> u64 {
        self / divisor
    }

    #[inline]
    fn euclid_remainder(self, divisor: u64) -> u64 {
        self % divisor
    }
}

impl Integer for i64 {
    ghost SIGNED = { true };

    #[inline]
    fn is_below_zero(self) -> bool {
        self < 0
    }

    #[inline]
    fn is_below(self, other: i64) -> bool {
        self < other
    }

    #[inline]
    fn equals(self, other: i64) -> bool {
        self == other
    }

    #[inline]
    fn plus(self, other: i64) -> i64 {
        self + other
    }

    #[inline]
    fn times(self, other: i64) -> i64 {
        self * other
    }

    #[inline]
    fn scaled(self, by: u32) -> i64 {
        self << by
    }

    #[inline]
    fn floored(self, by: u32) -> i64 {
        self >> by
    }

    #[inline]
    fn over(self, divisor: i64) -> i64 {
        self.wrapping_div(divisor)
    }

    #[inline]
    fn remainder(self, divisor: i64) -> i64 {
        self.wrapping_rem(divisor)
    }

    #[inline]
    fn euclid_quotient(self, divisor: i64) -> i64 {
        self.wrapping_div_euclid(divisor)
    }

    #[inline]
    fn euclid_remainder(self, divisor: i64) -> i64 {
        self.wrapping_rem_euclid(divisor)
    }
}

impl Valued for u128 {
    const BITS: u32 = 128;

    ghost BITS = { 128 };

    ghost value = { λ x. pos x };
}

impl Integer for u128 {
    ghost SIGNED = { false };

    #[inline]
    fn is_below_zero(self) -> bool {
        false
    }

    #[inline]
    fn is_below(self, other: u128) -> bool {
        self < other
    }

    #[inline]
    fn equals(self, other: u128) -> bool {
        self == other
    }

    #[inline]
    fn plus(self, other: u128) -> u128 {
        self + other
    }

    #[inline]
    fn times(self, other: u128) -> u128 {
        self * other
    }

    #[inline]
    fn scaled(self, by: u32) -> u128 {
        self << by
    }

    #[inline]
    fn floored(self, by: u32) -> u128 {
        self >> by
    }

    #[inline]
    fn over(self, divisor: u128) -> u128 {
        self / divisor
    }

    #[inline]
    fn remainder(self, divisor: u128) -> u128 {
        self % divisor
    }

    #[inline]
    fn euclid_quotient(self, divisor: u128) -> u128 {
        self / divisor
    }

    #[inline]
    fn euclid_remainder(self, divisor: u128) -> u128 {
        self % divisor
    }
}

impl Valued for i128 {
    const BITS: u32 = 128;

    ghost BITS = { 128 };

    ghost value = { λ x. x };
}

impl Integer for i128 {
    ghost SIGNED = { true };

    #[inline]
    fn is_below_zero(self) -> bool {
        self < 0
    }

    #[inline]
    fn is_below(self, other: i128) -> bool {
        self < other
    }

    #[inline]
    fn equals(self, other: i128) -> bool {
        self == other
    }

    #[inline]
    fn plus(self, other: i128) -> i128 {
        self + other
    }

    #[inline]
    fn times(self, other: i128) -> i128 {
        self * other
    }

    #[inline]
    fn scaled(self, by: u32) -> i128 {
        self << by
    }

    #[inline]
    fn floored(self, by: u32) -> i128 {
        self >> by
    }

    #[inline]
    fn over(self, divisor: i128) -> i128 {
        self.wrapping_div(divisor)
    }

    #[inline]
    fn remainder(self, divisor: i128) -> i128 {
        self.wrapping_rem(divisor)
    }

    #[inline]
    fn euclid_quotient(self, divisor: i128) -> i128 {
        self.wrapping_div_euclid(divisor)
    }

    #[inline]
    fn euclid_remainder(self, divisor: i128) -> i128 {
        self.wrapping_rem_euclid(divisor)
    }
}
