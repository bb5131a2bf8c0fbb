//! Rounding to whole numbers.

ghost use Rattle.std.specs.Prelude.{◌≡◌, ◌≤◌, ◌^◌, ◌*ℤ◌, pos};
ghost use Rattle.fixed_word.specs.Quotient.{truncated_quotient};

use fixed_word::{RawWord, Word};

/// Returns `a`, rounded toward zero to a whole number: `2^frac` times the quotient of `a` by `2^frac`, rounded toward
/// zero. It always fits. Precondition: `frac` is at most the width. (This is `round_to_zero` of `fixed`.)
pub fn round_to_zero_of<T: Word>(a: T, frac: u32) -> T
    requires { frac ≤ T.BITS }
    ensures { T.value result ≡ pos (2 ^ frac) *ℤ truncated_quotient (T.value a) (pos (2 ^ frac)) }
{
    let magnitude = (a.magnitude() as u128 >> frac) << frac;
    T::residue(a.is_below_zero(), magnitude)
}
