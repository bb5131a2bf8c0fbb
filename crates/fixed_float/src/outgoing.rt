//! Conversions of words to floats.

ghost use Rattle.std.specs.Prelude.{◌≡◌, ◌≤◌};
ghost use Rattle.fixed_float.specs.Rows.{nearest_float};

use crate::binary::Binary;
use fixed_convert::Castable;

/// Returns the float nearest to `a / 2^frac`, ties to even. Precondition: `frac` is at most the width.
#[inline]
pub fn to_float_of<T: Castable, X: Binary>(a: T, frac: u32) -> X
    requires { frac ≤ T.BITS }
    ensures { X.float result ≡ nearest_float X.format (T.value a) frac }
{
    X::nearest(a, frac)
}
