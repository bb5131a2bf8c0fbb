//! Horner's rule on typed numbers.

ghost use Rattle.std.specs.Prelude.{◌≡◌, ◌<◌, ◌≤◌, length, map};
ghost use Rattle.fixed_poly.specs.Horner.{horner_reply, reply_map};

use crate::reply::PolyReply;
use fixed_num::{Constants, Fixed};
use fixed_policy::CheckedMulAdd;
use fixed_word::{RawWord, Word};

/// Returns the value at `x` of the polynomial with these coefficients, the lowest first. This is the value of
/// [`horner_of`](crate::horner_of) on the bits. If the value of a step does not fit, the reply is `Overflow` with the
/// first such step. Preconditions: there is a coefficient, and F is at most the width.
pub fn horner<T: Word, const F: u32>(
    coefs: &[Fixed<T, F>],
    x: Fixed<T, F>,
) -> PolyReply<Fixed<T, F>>
    requires some { 0 < length coefs.now }
    requires fraction { F ≤ T.BITS }
    ensures { reply_map (λ v. T.value v.bits) result
        ≡ horner_reply T.SIGNED T.BITS F (T.value x.bits) (map (λ c. T.value c.bits) coefs.now) }
{
    let mut value = Fixed::<T, F>::ZERO;
    for i in (0..coefs.len()).rev() {
        match value.checked_mul_add(x, coefs[i]) {
            Some(next) => value = next,
            None => return PolyReply::Overflow(i),
        }
    }
    PolyReply::Value(value)
}
