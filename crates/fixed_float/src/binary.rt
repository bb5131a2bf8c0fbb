//! The float types.

ghost use Rattle.std.specs.Prelude.{◌≡◌, ◌*◌, ◌%◌, ◌^◌, ◌<◌, ◌≤◌, ℕ, false, refl};
ghost use Rattle.std.specs.Float.{Float, Format, binary32, binary64};
ghost use Rattle.std.specs.Float.Ieee.{hid, low, neg, of_bits, ones, prec, round, top};
ghost use Rattle.fixed_float.specs.Rows.{nearest_float};

use crate::nearest::{nearest_f32, nearest_f64};
use fixed_convert::Castable;

/// A float type of IEEE 754: `f32` or `f64`.
pub trait Binary: Copy {
    /// How many binary digits a significand has, including the leading one.
    const DIGITS: u32;

    ghost DIGITS: { ℕ };

    /// The least float above 0 is `2^-LEAST`.
    const LEAST: u32;

    ghost LEAST: { ℕ };

    /// The bits of the positive infinity. Greater bits below the sign's are those of NaNs.
    const INFINITE: u64;

    ghost INFINITE: { ℕ };

    /// The bits in which only the sign's is 1.
    const SIGN: u64;

    ghost SIGN: { ℕ };

    /// Every whole number of so many bits is a float, and so is its quotient by a power of two up to `2^64`.
    const WHOLE: u32;

    ghost WHOLE: { ℕ };

    ghost format: { Format };

    // the float of IEEE 754: a NaN, an infinity, or a sign, m and e
    ghost float: { Self → Float };

    /// Returns the same float as an `f64`.
    fn widened(self) -> f64
        ensures { result ≡ float self };

    /// Returns the float with these bits. Precondition: `bits` is below `2 SIGN`, and is not a NaN's.
    fn of_pattern(bits: u64) -> Self
        requires width { bits < 2 * SIGN }
        requires not_nan { bits % SIGN ≤ INFINITE }
        ensures { float result ≡ of_bits format bits };

    /// Returns the float `whole / 2^by`. Precondition: `whole` is below `2^WHOLE`, and `by` is at most 64.
    fn quotient(whole: u64, by: u32) -> Self
        requires whole { whole < 2 ^ WHOLE }
        requires by { by ≤ 64 }
        ensures { float result ≡ round format false whole (2 ^ by) };

    /// Returns the float nearest to `a / 2^frac`, ties to even. Precondition: `frac` is at most the width.
    fn nearest<T: Castable>(a: T, frac: u32) -> Self
        requires { frac ≤ T.BITS }
        ensures { float result ≡ nearest_float format (T.value a) frac };

    /// Returns the float with the other sign.
    fn negated(self) -> Self
        ensures { float result ≡ neg (float self) };

    ghost digits_law: { DIGITS ≡ prec format };

    ghost least_law: { LEAST ≡ low format };

    ghost infinite_law: { INFINITE ≡ ones format * hid format };

    ghost sign_law: { SIGN ≡ top format };
}

impl Binary for f32 {
    const DIGITS: u32 = 24;

    ghost DIGITS = { 24 };

    const LEAST: u32 = 149;

    ghost LEAST = { 149 };

    const INFINITE: u64 = 0x7f80_0000;

    ghost INFINITE = { 0x7f80_0000 };

    const SIGN: u64 = 0x8000_0000;

    ghost SIGN = { 0x8000_0000 };

    const WHOLE: u32 = 16;

    ghost WHOLE = { 16 };

    ghost format = { binary32 };

    ghost float = { λ x. x };

    #[inline]
    fn widened(self) -> f64 {
        f64::from(self)
    }

    #[inline]
    fn of_pattern(bits: u64) -> f32 {
        f32::from_bits(bits as u32)
    }

    #[inline]
    fn quotient(whole: u64, by: u32) -> f32 {
        f32::from(whole as u16) * f32::from_bits((127 - by) << 23)
    }

    #[inline]
    fn nearest<T: Castable>(a: T, frac: u32) -> f32 {
        nearest_f32(a, frac)
    }

    #[inline]
    fn negated(self) -> f32 {
        -self
    }

    ghost digits_law = { refl };

    ghost least_law = { refl };

    ghost infinite_law = { refl };

    ghost sign_law = { refl };
}

impl Binary for f64 {
    const DIGITS: u32 = 53;

    ghost DIGITS = { 53 };

    const LEAST: u32 = 1074;

    ghost LEAST = { 1074 };

    const INFINITE: u64 = 0x7ff0_0000_0000_0000;

    ghost INFINITE = { 0x7ff0_0000_0000_0000 };

    const SIGN: u64 = 0x8000_0000_0000_0000;

    ghost SIGN = { 0x8000_0000_0000_0000 };

    const WHOLE: u32 = 32;

    ghost WHOLE = { 32 };

    ghost format = { binary64 };

    ghost float = { λ x. x };

    #[inline]
    fn widened(self) -> f64 {
        self
    }

    #[inline]
    fn of_pattern(bits: u64) -> f64 {
        f64::from_bits(bits)
    }

    #[inline]
    fn quotient(whole: u64, by: u32) -> f64 {
        f64::from(whole as u32) * f64::from_bits((1023 - by as u64) << 52)
    }

    #[inline]
    fn nearest<T: Castable>(a: T, frac: u32) -> f64 {
        nearest_f64(a, frac)
    }

    #[inline]
    fn negated(self) -> f64 {
        -self
    }

    ghost digits_law = { refl };

    ghost least_law = { refl };

    ghost infinite_law = { refl };

    ghost sign_law = { refl };
}
