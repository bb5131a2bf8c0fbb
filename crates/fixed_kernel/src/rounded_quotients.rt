//! Quotients with a named rounding.

ghost use Rattle.std.specs.Prelude.{◌≡◌, ◌≢◌, ◌≤◌, ◌<◌, ◌+◌, ◌*◌, ◌/◌, ◌%◌, ◌^◌, pos};
ghost use Rattle.fixed_word.specs.Standing.{StandsFor};
ghost use Rattle.fixed_kernel.specs.RoundedRows.{rounded_div, rounded_recip};
ghost use Rattle.fixed_kernel.specs.Rounded.{rounded};

use crate::wide::{Wide, step};
use fixed_word::{Outcome, Rounding, Word};

/// Returns `a 2^frac / b`, rounded as named. Preconditions: `frac` is at most the width, and `b` is not 0.
pub fn div_round_of<T: Word>(a: T, b: T, frac: u32, rounding: Rounding) -> Outcome<T>
    requires frac { frac ≤ T.BITS }
    requires divisor { T.value b ≢ pos 0 }
    ensures { StandsFor T.value T.SIGNED T.BITS
        (rounded_div (T.value a) (T.value b) frac rounding) result }
{
    Wide::of(a)
        .scaled(frac)
        .rounded(Wide::of(b), rounding)
        .outcome()
}

/// Returns `a / k`, rounded as named, for an integer `k`. Precondition: `k` is not 0.
pub fn div_int_round_of<T: Word>(a: T, k: T, rounding: Rounding) -> Outcome<T>
    requires { T.value k ≢ pos 0 }
    ensures { StandsFor T.value T.SIGNED T.BITS
        (rounded (T.value a) (T.value k) rounding) result }
{
    Wide::of(a).rounded(Wide::of(k), rounding).outcome()
}

/// Returns `2^(2 frac) / a`, rounded as named. Preconditions: `frac` is at most the width, and `a` is not 0.
pub fn recip_round_of<T: Word>(a: T, frac: u32, rounding: Rounding) -> Outcome<T>
    requires frac { frac ≤ T.BITS }
    requires divisor { T.value a ≢ pos 0 }
    ensures { StandsFor T.value T.SIGNED T.BITS
        (rounded_recip (T.value a) frac rounding) result }
{
    let divisor = Wide::of(a);
    if frac < 64 {
        let one = Wide {
            below_zero: false,
            magnitude: 1 << (2 * frac),
        };
        one.rounded(divisor, rounding).outcome()
    } else {
        let (quotient, remainder) = whole_over(divisor.magnitude);
        let more = step(
            rounding,
            divisor.below_zero,
            quotient,
            remainder,
            divisor.magnitude - 1,
        );
        let number = Wide {
            below_zero: divisor.below_zero,
            magnitude: quotient + more,
        };
        number.outcome_alike()
    }
}

/// Returns the quotient and the remainder of `2^128` by the divisor. Instead of the quotient `2^128` it returns
/// `2^127`, which has the same outcome in every word.
fn whole_over(divisor: u128) -> (u128, u128)
    requires { 0 < divisor }
    ensures one { divisor ≡ 1 → (result.0 ≡ 2 ^ 127) × (result.1 ≡ 0) }
    ensures more { 1 < divisor → (result.0 ≡ 2 ^ 128 / divisor) × (result.1 ≡ 2 ^ 128 % divisor) }
{
    if divisor == 1 {
        return (1 << 127, 0);
    }
    let quotient = (u128::MAX - (divisor - 1)) / divisor + 1;
    (quotient, (u128::MAX - (divisor - 1)) % divisor)
}
