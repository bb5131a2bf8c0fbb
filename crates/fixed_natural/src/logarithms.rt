//! Logarithms to the bases e and 10. Each is a logarithm to the base 2, which has more digits, times a constant.

ghost use Rattle.std.specs.Prelude.{◌≡◌, ◌≤◌, ◌<◌, ◌+◌, ◌*◌, ◌^◌, ◌<ℤ◌, ℕ, ℤ, pos, unsigned_abs};
ghost use Rattle.fixed_word.specs.Format.{with_sign};
ghost use Rattle.fixed_word.specs.Standing.{StandsFor};
ghost use Rattle.fixed_natural.specs.Logs.{IsLn, IsLog10, IsLogTo, log_room};
ghost use Rattle.fixed_natural.specs.inside.Scaling.{IsInverse};

use crate::scaling::{guard_of, in_places, scaled};
use fixed_elementary::logarithms::enclosed_log2;
use fixed_word::{Outcome, RawWord, Valued, outcome_of_magnitude};

/// The natural logarithm of 2, in units of `2^-128`, rounded down.
const LN_2: u128 = 0xb172_17f7_d1cf_79ab_c9e3_b398_03f2_f6af;

/// The logarithm of 2 to the base 10, in units of `2^-128`, rounded down.
const LOG10_2: u128 = 0x4d10_4d42_7de7_fbcc_47c4_acd6_05be_48bc;

/// Returns the logarithm of `a 2^-frac` to a base, in units of `2^-frac`. The factor is the logarithm of 2 to that
/// base, in units of `2^-128`, rounded down. Preconditions: `a` is above 0, `frac` is at most the width, and
/// `factor + 1` is at most 3/4, which is `3 * 2^126`.
fn log_of<T: RawWord>(a: T, frac: u32, factor: u128) -> Outcome<T>
    requires frac { frac ≤ T.BITS }
    requires sign { pos 0 <ℤ T.value a }
    requires factor { 4 * (factor + 1) ≤ 3 * 2 ^ 128 }
    ensures { (r : ℤ)
        × ((p q : ℕ) → 0 < q → IsInverse factor p q → IsLogTo p q (unsigned_abs (T.value a)) frac (log_room T.BITS) r)
        × StandsFor T.value T.SIGNED T.BITS r result }
{
    let guard = guard_of(T::BITS);
    let units = enclosed_log2(T::BITS, a.magnitude(), frac + guard) + 2;
    let less = in_places(frac, frac + guard);
    if less <= units {
        outcome_of_magnitude(false, scaled(units - less, factor + 1, guard))
    } else {
        outcome_of_magnitude(true, scaled(less - units, factor, guard) + 1)
    }
}

/// Returns the natural logarithm of `a 2^-frac`, in units of `2^-frac`. For the result r and the exact logarithm l in
/// units, `r - 2^-k <= l < r + 1`, where k is 24 on words of up to 32 bits and 32 on words of 64 bits. The logarithm of
/// 1 is exactly 0. Preconditions: `a` is above 0, and `frac` is at most the width.
pub fn ln_of<T: RawWord>(a: T, frac: u32) -> Outcome<T>
    requires frac { frac ≤ T.BITS }
    requires sign { pos 0 <ℤ T.value a }
    ensures { (r : ℤ) × IsLn (log_room T.BITS) (T.value a) frac r × StandsFor T.value T.SIGNED T.BITS r result }
{
    log_of(a, frac, LN_2)
}

/// Returns the logarithm of `a 2^-frac` to the base 10, in units of `2^-frac`. For the result r and the exact logarithm
/// l in units, `r - 2^-k <= l < r + 1`, where k is 24 on words of up to 32 bits and 32 on words of 64 bits. The
/// logarithm of a power of 10 is exact. Preconditions: `a` is above 0, and `frac` is at most the width.
pub fn log10_of<T: RawWord>(a: T, frac: u32) -> Outcome<T>
    requires frac { frac ≤ T.BITS }
    requires sign { pos 0 <ℤ T.value a }
    ensures { (r : ℤ) × IsLog10 (log_room T.BITS) (T.value a) frac r × StandsFor T.value T.SIGNED T.BITS r result }
{
    log_of(a, frac, LOG10_2)
}
