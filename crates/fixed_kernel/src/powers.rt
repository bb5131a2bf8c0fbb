//! Square roots and powers of two.

ghost use Rattle.std.specs.Prelude.{◌≡◌, ◌≤◌, ◌≤ℤ◌, ◌-ℤ◌, pos, false};
ghost use Rattle.fixed_word.specs.Standing.{StandsFor};
ghost use Rattle.fixed_root.specs.Root.{root_of};
ghost use Rattle.fixed_kernel.specs.Rows.{exact_next_power_of_two};

use fixed_root::scaled_root;
use fixed_word::{Arithmetic, Digits, Outcome, RawWord, Silent, Steps, Word, outcome_of};

/// Returns the root of `a 2^frac`, rounded down. Preconditions: `frac` is at most the width, and `a` is not negative.
pub fn sqrt_of<T: Word>(a: T, frac: u32) -> Outcome<T>
    requires frac { frac ≤ T.BITS }
    requires sign { pos 0 ≤ℤ T.value a }
    ensures { StandsFor T.value T.SIGNED T.BITS (root_of (T.value a) frac) result }
{
    outcome_of(false, scaled_root(a.magnitude(), frac) as u128)
}

/// Returns 1 less than the smallest power of two that is at least `a`. Precondition: the word is unsigned.
#[inline]
fn less_than_power<T: Word>(a: T) -> T
    requires { T.SIGNED ≡ false }
    ensures { T.value result ≡ exact_next_power_of_two (T.value a) -ℤ pos 1 }
{
    // That it is in range bounds its power.
    let _sign = a.is_below_zero();
    if a <= T::ONE {
        return T::ZERO;
    }
    let mut steps = Steps::new(Silent::new());
    let before = a.difference(T::ONE).wrapped.to_unsigned();
    let zeros = before.leading_zeros(&mut steps);
    T::from_unsigned(T::MAX.to_unsigned().shr(zeros, &mut steps))
}

/// Returns the smallest power of two that is at least `a`. Precondition: the word is unsigned.
pub fn next_power_of_two_of<T: Word>(a: T) -> Outcome<T>
    requires { T.SIGNED ≡ false }
    ensures { StandsFor T.value T.SIGNED T.BITS (exact_next_power_of_two (T.value a)) result }
{
    less_than_power(a).sum(T::ONE)
}
