//! Logarithms by repeated squaring of the base. They are those of the Rust crate `fixed`, and count their steps.

ghost use Rattle.std.specs.Prelude.{◌≡◌, ◌≢◌, ◌+◌, ◌*◌, ◌^◌, ◌<◌, ◌≤◌, ℕ, pos, nat_abs};
ghost use Rattle.fixed_word.specs.Ticks.{RisesAtMost};
ghost use Rattle.fixed_logs.specs.Logarithm.{IsLog, log2};
ghost use Rattle.fixed_logs.specs.inside.Power.{IsGreatestPower, IsGreatestProduct};

use crate::base::Base;
use crate::exact::{Power, below_zero, is_at_most, product, product_within, whole, word_of};
use fixed_word::{Digits, Ledger, Steps};

/// Returns the largest power of the base that is at most a number, from that of the base's square.
fn greatest_power<L: Ledger, D: Digits<L>>(val: D, base: D, steps: &mut Steps<L>) -> Power<D>
    requires at_least_one { 1 ≤ nat_abs (D.value val) }
    requires fits { nat_abs (D.value val) < 2 ^ D.BITS }
    requires at_least_two { 2 ≤ nat_abs (D.value base) }
    ensures value { IsGreatestPower
        (nat_abs (D.value val))
        (nat_abs (D.value base))
        result.exponent
        (nat_abs (D.value result.power)) }
    ensures ticks { (d : ℕ) → nat_abs (D.value val) < nat_abs (D.value base) ^ 2 ^ d
        → RisesAtMost (4 * d + 1) (L.count steps.old) (L.count steps.new) }
{
    let starts = is_at_most(base, val, steps);
    if !starts {
        return Power {
            exponent: 0,
            power: D::ONE,
        };
    }
    match product(base, base, steps) {
        None => Power {
            exponent: 1,
            power: base,
        },
        Some(square) => {
            let half = greatest_power(val, square, steps);
            let doubled = 2 * half.exponent;
            match product_within(half.power, base, val, steps) {
                Some(power) => Power {
                    exponent: doubled + 1,
                    power,
                },
                None => Power {
                    exponent: doubled,
                    power: half.power,
                },
            }
        }
    }
}

/// Returns the largest product of a number and a power of the base that fits the word, from that of the base's
/// square.
fn greatest_product<L: Ledger, D: Digits<L>>(val: D, base: D, steps: &mut Steps<L>) -> Power<D>
    requires at_least_one { 1 ≤ nat_abs (D.value val) }
    requires at_least_two { 2 ≤ nat_abs (D.value base) }
    ensures value { IsGreatestProduct
        (2 ^ D.BITS)
        (nat_abs (D.value val))
        (nat_abs (D.value base))
        result.exponent
        (nat_abs (D.value result.power)) }
    ensures ticks { (d : ℕ) → 2 ^ D.BITS ≤ nat_abs (D.value base) ^ 2 ^ d
        → RisesAtMost (3 * d + 1) (L.count steps.old) (L.count steps.new) }
{
    match product(val, base, steps) {
        None => Power {
            exponent: 0,
            power: val,
        },
        Some(once) => match product(base, base, steps) {
            None => Power {
                exponent: 1,
                power: once,
            },
            Some(square) => {
                let half = greatest_product(val, square, steps);
                let doubled = 2 * half.exponent;
                match product(half.power, base, steps) {
                    Some(power) => Power {
                        exponent: doubled + 1,
                        power,
                    },
                    None => Power {
                        exponent: doubled,
                        power: half.power,
                    },
                }
            }
        },
    }
}

/// Returns the integer k with `base^k <= val < base^(k+1)`. It is 0 if the base does not fit the word. Precondition:
/// `val` is not 0. The count of steps rises by at most `4 log2(n) + 4`, where n is the width.
pub fn int_part<L: Ledger, D: Digits<L>>(val: D, base: Base, steps: &mut Steps<L>) -> i32
    requires { D.value val ≢ pos 0 }
    ensures value { IsLog (nat_abs (D.value val)) 0 base result }
    ensures ticks { RisesAtMost (4 * log2 D.BITS + 4) (L.count steps.old) (L.count steps.new) }
{
    let number = base.get();
    if is_at_most(val, D::ONE, steps) {
        return 0;
    }
    match word_of(u64::from(number), steps) {
        Some(word) => whole(greatest_power(val, word, steps).exponent),
        None => 0,
    }
}

/// Returns the negative integer k with `base^k <= val / 2^n < base^(k+1)`. It is -1 if the base does not fit the
/// word. Precondition: `val` is not 0. The count of steps rises by at most `4 log2(n) + 4`, where n is the width.
pub fn frac_part<L: Ledger, D: Digits<L>>(val: D, base: Base, steps: &mut Steps<L>) -> i32
    requires { D.value val ≢ pos 0 }
    ensures value { IsLog (nat_abs (D.value val)) D.BITS base result }
    ensures ticks { RisesAtMost (4 * log2 D.BITS + 4) (L.count steps.old) (L.count steps.new) }
{
    let number = base.get();
    let _in_range = is_at_most(val, D::ONE, steps);
    match word_of(u64::from(number), steps) {
        Some(word) => below_zero(greatest_product(val, word, steps).exponent),
        None => -1,
    }
}
