//! Products of up to 256 bits.

ghost use Rattle.std.specs.Prelude.{◌≡◌, ◌≤◌, ◌<◌, ◌+◌, ◌*◌, ◌^◌};

/// A number of 256 bits, as its high and its low half.
#[derive(Clone, Copy)]
pub struct Double {
    pub high: u128,
    pub low: u128,
}

/// A number of 128 bits, as its halves.
#[derive(Clone, Copy)]
struct Halves {
    high: u128,
    low: u128,
}

/// Returns the halves of a number.
#[inline]
fn split(number: u128) -> Halves
    ensures value { result.high * 2 ^ 64 + result.low ≡ number }
    ensures high { result.high < 2 ^ 64 }
    ensures low { result.low < 2 ^ 64 }
{
    Halves {
        high: number >> 64,
        low: number % (1 << 64),
    }
}

/// Returns the product of two halves, plus one more half.
#[inline]
fn half_product(a: u128, b: u128, more: u128) -> Halves
    requires a { a < 2 ^ 64 }
    requires b { b < 2 ^ 64 }
    requires more { more < 2 ^ 64 }
    ensures value { result.high * 2 ^ 64 + result.low ≡ a * b + more }
    ensures high { result.high < 2 ^ 64 }
    ensures low { result.low < 2 ^ 64 }
{
    split(a * b + more)
}

/// Returns the product of two numbers of 128 bits.
#[inline]
pub fn product(a: u128, b: u128) -> Double
    ensures { result.high * 2 ^ 128 + result.low ≡ a * b }
{
    let (a, b) = (split(a), split(b));
    let lowest = half_product(a.low, b.low, 0);
    let first = half_product(a.low, b.high, lowest.high);
    let second = half_product(a.high, b.low, first.low);
    Double {
        high: a.high * b.high + first.high + second.high,
        low: second.low * (1 << 64) + lowest.low,
    }
}

/// Returns the higher half of a product.
#[inline]
pub(crate) fn high(a: u64, b: u64) -> u64
    ensures below { result * 2 ^ 64 ≤ a * b }
    ensures above { a * b < (result + 1) * 2 ^ 64 }
{
    ((u128::from(a) * u128::from(b)) >> 64) as u64
}

/// Returns the product by a factor in units of `2^-63`, rounded down. Precondition: the factor is at most 1.
#[inline]
pub(crate) fn narrow_scaled(number: u64, factor: u64) -> u64
    requires { factor ≤ 2 ^ 63 }
    ensures below { result * 2 ^ 63 ≤ number * factor }
    ensures above { number * factor < (result + 1) * 2 ^ 63 }
{
    ((u128::from(number) * u128::from(factor)) >> 63) as u64
}

/// Does the same in 128 bits.
#[inline]
pub(crate) fn broad_scaled(number: u128, factor: u64) -> u128
    requires { factor ≤ 2 ^ 63 }
    ensures below { result * 2 ^ 63 ≤ number * factor }
    ensures above { number * factor < (result + 1) * 2 ^ 63 }
{
    let number = split(number);
    let factor = u128::from(factor);
    2 * (number.high * factor) + number.low * factor / (1 << 63)
}
