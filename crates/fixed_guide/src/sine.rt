//! The sine of a part of a quarter turn, with a bound on its rounding.

ghost use Rattle.std.specs.Prelude.{◌≡◌, ◌-◌, ◌*◌, ◌^◌, ◌≤ℤ◌, map, pos};
ghost use Rattle.fixed_poly.specs.Exact.{shortfall};
ghost use Rattle.fixed_guide.specs.Sine.{sine_coefficients};

use fixed::FixedI32;
use fixed_poly::{PolyReply, horner};

/// A part of a quarter turn, or the sine of one, in units of `2^-29`.
pub type Q29 = FixedI32<29>;

/// Returns the coefficients of a polynomial that lies within 0.0000007 of the sine for x from 0 to 1, the lowest first.
/// The coefficients of x, x^3, x^5 and x^7 are at odd indices, and the others are 0.
fn coefficients() -> [Q29; 8]
    ensures { map (λ c. c.bits) result ≡ sine_coefficients }
{
    [
        Q29 { bits: 0 },
        Q29 { bits: 843312475 },
        Q29 { bits: 0 },
        Q29 { bits: -346764231 },
        Q29 { bits: 0 },
        Q29 { bits: 42651708 },
        Q29 { bits: 0 },
        Q29 { bits: -2329391 },
    ]
}

/// Returns the sine of a part of a quarter turn, by a polynomial of degree 7. The result lies at or below the exact
/// value of the polynomial, by less than 7 units. Precondition: the part is from 0 to 1.
pub fn sine(part: Q29) -> Q29
    requires from_zero { pos 0 ≤ℤ part.bits }
    requires to_one { part.bits ≤ℤ pos (2 ^ 29) }
    ensures below { pos 0 ≤ℤ shortfall part.bits 29 sine_coefficients result.bits }
    ensures at_most { shortfall part.bits 29 sine_coefficients result.bits
        ≤ℤ pos (7 * (2 ^ 29 - 1) * 2 ^ (29 * 6)) }
{
    match horner(&coefficients(), part) {
        PolyReply::Value(sine) => sine,
        PolyReply::Overflow(_) => unreachable!(),
    }
}
