//! Horner's rule on bits.

ghost use Rattle.std.specs.Prelude.{◌≡◌, ◌<◌, ◌≤◌, Some, length, map};
ghost use Rattle.std.specs.Option.{option_map};
ghost use Rattle.fixed_word.specs.Policies.{checked};
ghost use Rattle.fixed_kernel.specs.Rows.{exact_mul_add};
ghost use Rattle.fixed_poly.specs.Horner.{horner_reply, reply_map};

use crate::reply::PolyReply;
use fixed_kernel::mul_add_of;
use fixed_word::{RawWord, Word, checked_of};

/// Returns the value at `x` of the polynomial with these coefficients, the lowest first. Coefficients, `x` and the
/// value are in units of `2^-frac`. Each step multiplies by `x`, rounds the product down, and adds the next lower
/// coefficient. If the value of a step does not fit, the reply is `Overflow` with the first such step. `x` may be any
/// number; if it is from 0 to 1, [`laws::bound_law`](crate::laws::bound_law) bounds the rounding. Preconditions: there
/// is a coefficient, and `frac` is at most the width.
pub fn horner_of<T: Word>(coefs: &[T], x: T, frac: u32) -> PolyReply<T>
    requires some { 0 < length coefs.now }
    requires frac { frac ≤ T.BITS }
    ensures { reply_map T.value result
        ≡ horner_reply T.SIGNED T.BITS frac (T.value x) (map T.value coefs.now) }
{
    let mut value = T::ZERO;
    for i in (0..coefs.len()).rev() {
        match checked_mul_add(value, x, coefs[i], frac) {
            Some(next) => value = next,
            None => return PolyReply::Overflow(i),
        }
    }
    PolyReply::Value(value)
}

/// Returns the product of `value` and `mul`, rounded down, plus `add`, or `None` if that does not fit. Precondition:
/// `frac` is at most the width.
fn checked_mul_add<T: Word>(value: T, mul: T, add: T, frac: u32) -> Option<T>
    requires { frac ≤ T.BITS }
    ensures { option_map T.value result ≡ checked T.SIGNED T.BITS
        (Some (exact_mul_add (T.value value) (T.value mul) (T.value add) frac)) }
{
    checked_of(mul_add_of(value, mul, add, frac))
}
