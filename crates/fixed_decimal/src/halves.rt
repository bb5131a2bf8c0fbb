//! Quotients rounded as named, from the quotient of twice the dividend.

ghost use Rattle.std.specs.Prelude.{◌≡◌, ◌==◌, ◌*◌, ◌/◌, ◌%◌, ◌^◌, ◌<◌, ◌≤◌, ℕ, not};
ghost use Rattle.fixed_decimal.specs.inside.Stepped.{moves_past, stepped};

use fixed_word::Rounding;

/// Returns the magnitude of a rounded quotient. `halves` is twice the dividend over the divisor, rounded down, and
/// `rest` is whether that division left a remainder. The quotient is negative if `below_zero`.
#[inline]
pub const fn rounded_halves(halves: u128, rest: bool, below_zero: bool, rounding: Rounding) -> u128
    ensures { (n d : ℕ) → 0 < d → halves ≡ 2 * n / d → rest ≡ not (2 * n % d == 0)
        → result ≡ stepped rounding below_zero n d }
{
    let whole = halves / 2;
    let past = moves_past(rounding, below_zero, whole % 2 == 1, halves % 2 == 1, rest);
    whole + past as u128
}

/// Returns whether the rounding adds 1 to a whole magnitude, which a half and a smaller rest may follow.
#[inline]
const fn moves_past(
    rounding: Rounding,
    below_zero: bool,
    is_odd: bool,
    half: bool,
    rest: bool,
) -> bool
    ensures { result ≡ moves_past rounding below_zero is_odd half rest }
{
    match rounding {
        Rounding::Down => below_zero && (half || rest),
        Rounding::Zero => false,
        Rounding::Even => half && (is_odd || rest),
    }
}

/// Returns the remainder of the number by `2^count`. Precondition: `count` is at most 64.
#[inline]
pub const fn low_bits(number: u128, count: u32) -> u128
    requires { count ≤ 64 }
    ensures { result ≡ number % 2 ^ count }
{
    number % (1 << count)
}
