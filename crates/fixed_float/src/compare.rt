//! Comparisons of words and floats.

ghost use Rattle.std.specs.Prelude.{◌≡◌, ◌≤◌, ◌<◌, ◌+◌, ◌*◌, ◌^◌, ◌*ℤ◌, ℕ, ℤ, false, pos};
ghost use Rattle.std.specs.Ordering.{int_cmp};
ghost use Rattle.std.specs.Float.{float_is_finite};
ghost use Rattle.fixed_word.specs.Format.{with_sign};
ghost use Rattle.fixed_float.specs.Rows.{float_order};

use crate::binary::Binary;
use crate::parts::{LEAST, Parts, parts_of};
use fixed_convert::{Castable, compare_of};
use std::cmp::Ordering;

/// Returns the order of `a / 2^frac` and the exact value of a float, or `None` for a NaN. Infinities lie beyond every
/// number. Precondition: `frac` is at most the width.
#[inline]
pub fn compare_float_of<T: Castable, X: Binary>(a: T, frac: u32, x: X) -> Option<Ordering>
    requires { frac ≤ T.BITS }
    ensures { result ≡ float_order (T.value a) frac (X.float x) }
{
    match parts_of(x.widened()) {
        Some(parts) => Some(beside_parts(a, frac, parts)),
        None => beside_infinity(x),
    }
}

/// Returns the order of a number and a finite float. The float is converted to a word and a number of fraction bits.
#[inline]
fn beside_parts<T: Castable>(a: T, frac: u32, parts: Parts) -> Ordering
    requires frac { frac ≤ T.BITS }
    requires digits { parts.digits < 2 ^ 53 }
    requires scale { parts.scale < 2 ^ 11 }
    ensures { result ≡ int_cmp (T.value a *ℤ pos (2 ^ 1074))
        (with_sign parts.below_zero (parts.digits * 2 ^ parts.scale * 2 ^ frac)) }
{
    let digits = signed_digits(parts);
    if parts.scale <= LEAST {
        compare_of(a, frac, digits, (LEAST - parts.scale) as u32)
    } else {
        compare_of(a, frac + (parts.scale - LEAST) as u32, digits, 0)
    }
}

/// Returns the digits with their sign.
#[inline]
fn signed_digits(parts: Parts) -> i64
    requires { parts.digits < 2 ^ 53 }
    ensures { result ≡ with_sign parts.below_zero parts.digits }
{
    let digits = parts.digits as i64;
    if parts.below_zero { -digits } else { digits }
}

/// Returns the order of any number and an infinity, or `None` for a NaN.
#[inline]
fn beside_infinity<X: Binary>(x: X) -> Option<Ordering>
    requires { float_is_finite (X.float x) ≡ false }
    ensures { (a : ℤ) (g : ℕ) → result ≡ float_order a g (X.float x) }
{
    let wide = x.widened();
    if wide.is_nan() {
        None
    } else if wide < 0.0 {
        Some(Ordering::Greater)
    } else {
        Some(Ordering::Less)
    }
}
