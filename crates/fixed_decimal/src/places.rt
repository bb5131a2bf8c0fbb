//! How many digits after the point a number needs.

ghost use Rattle.std.specs.Prelude.{◌≡◌, ◌↔◌, ◌^◌, ◌<◌, ◌≤◌, IsTrue};
ghost use Rattle.fixed_decimal.specs.inside.Close.{IsClose};
ghost use Rattle.fixed_decimal.specs.Text.{IsExactAt, IsLeast, ReadsBack, shortest};

use crate::halves::low_bits;
use crate::tens::ten_to;
use fixed_word::RawWord;

/// Returns how many digits after the point the exact text of a number in units of `2^-frac` has, which is at most
/// `frac`. Precondition: `frac` is at most the width.
pub fn exact_places<T: RawWord>(number: T, frac: u32) -> usize
    requires { frac ≤ T.BITS }
    ensures places { IsLeast (IsExactAt (T.value number) frac) result }
    ensures bound { result ≤ frac }
{
    let zeros = number.magnitude().trailing_zeros();
    (frac - zeros.min(frac)) as usize
}

/// Returns how many digits after the point the shortest text has that is read as the number, to the nearest, ties to
/// even. That is at most 20. Precondition: `frac` is at most the width.
pub fn shortest_places<T: RawWord>(number: T, frac: u32) -> usize
    requires { frac ≤ T.BITS }
    ensures places { IsLeast (ReadsBack (T.value number) frac) result }
    ensures shortest { result ≡ shortest (T.value number) frac }
    ensures bound { result ≤ 20 }
{
    let magnitude = number.magnitude();
    let mut places = enough_places(frac);
    while places > 0 && reads_back(magnitude, frac, places - 1) {
        places -= 1;
    }
    places
}

/// Returns a number of digits, at most 20, such that a unit of the last digit is at most `2^-frac`.
#[inline]
fn enough_places(frac: u32) -> usize
    requires { frac ≤ 64 }
    ensures enough { 2 ^ frac ≤ 10 ^ result }
    ensures bound { result ≤ 20 }
{
    (frac * 3 / 10 + 1) as usize
}

/// Returns whether the nearest decimal with `places` digits after the point is less than half a unit of `2^-frac` away
/// from a magnitude, or half a unit away from an even one.
#[inline]
fn reads_back(magnitude: u64, frac: u32, places: usize) -> bool
    requires frac { frac ≤ 64 }
    requires places { places < 20 }
    ensures { IsTrue result ↔ IsClose magnitude (10 ^ places) (2 ^ frac) }
{
    let tens = u128::from(ten_to(places));
    let past = low_bits(u128::from(magnitude) * tens, frac);
    let twice = 2 * past.min((1 << frac) - past);
    twice < tens || twice == tens && magnitude % 2 == 0
}
