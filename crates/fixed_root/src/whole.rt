//! Roots of whole numbers, rounded down.

ghost use Rattle.std.specs.Prelude.{◌≡◌, ◌≤◌, ◌<◌, ◌+◌, ◌*◌, pos};
ghost use Rattle.fixed_root.specs.Root.{root_of};

use crate::near::{near_double_root, near_root};

/// Returns the root of a number, rounded down: a number near it, or 1 more, and where neither is the root, the one that
/// std finds.
#[inline]
pub fn root_of_word(number: u64) -> u64
    ensures square_le { result * result ≤ number }
    ensures next_square_gt { number < (result + 1) * (result + 1) }
{
    let pairs = (number | 1).leading_zeros() / 2;
    let near = near_root(number.wrapping_shl(2 * pairs)).wrapping_shr(pairs) as u64;
    let square = near * near;
    if square <= number && number - square <= 4 * near + 3 {
        near + u64::from(number - square > 2 * near)
    } else {
        number.isqrt()
    }
}

/// Does the same for a number of 128 bits.
pub fn root_of_double(number: u128) -> u64
    ensures square_le { result * result ≤ number }
    ensures next_square_gt { number < (result + 1) * (result + 1) }
{
    let pairs = (number | 1).leading_zeros() / 2;
    let near = near_double_root(number.wrapping_shl(2 * pairs)).wrapping_shr(pairs) as u128;
    let square = near * near;
    if square <= number && number - square <= 4 * near + 3 {
        (near + u128::from(number - square > 2 * near)) as u64
    } else {
        number.isqrt() as u64
    }
}

/// Returns the root of `a 2^frac`, rounded down. Precondition: `frac` is at most 64.
#[inline]
pub fn scaled_root(a: u64, frac: u32) -> u64
    requires { frac ≤ 64 }
    ensures { pos result ≡ root_of (pos a) frac }
{
    if frac <= 32 && a < 1 << 32 {
        root_of_word(a << frac)
    } else {
        root_of_double((a as u128) << frac)
    }
}
