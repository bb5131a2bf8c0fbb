//! Logarithms to base 10, by a table of powers of 10.

ghost use Rattle.std.specs.Prelude.{◌≡◌, ◌≢◌, ◌+◌, ◌*◌, ◌^◌, ◌<◌, ◌≤◌, ℕ, pos, nat_abs};
ghost use Rattle.fixed_word.specs.Ticks.{RisesAtMost};
ghost use Rattle.fixed_logs.specs.Logarithm.{IsLog, log2};
ghost use Rattle.fixed_logs.specs.inside.Power.{IsRaised};

use crate::base::Base;
use crate::exact::{Power, below_zero, is_at_most, product, word_of};
use crate::squaring::int_part;
use fixed_word::{Digits, Ledger, Steps};

/// A power of 10.
struct Ten {
    exponent: u32,
    power: u64,
}

/// The powers of 10 by which a fraction is multiplied. Each is the square of the next.
const TENS: [Ten; 5] = [
    Ten {
        exponent: 16,
        power: 10_000_000_000_000_000,
    },
    Ten {
        exponent: 8,
        power: 100_000_000,
    },
    Ten {
        exponent: 4,
        power: 10_000,
    },
    Ten {
        exponent: 2,
        power: 100,
    },
    Ten {
        exponent: 1,
        power: 10,
    },
];

/// Returns the product, multiplied by a power of 10 if the result fits the word.
fn raised<L: Ledger, D: Digits<L>>(from: Power<D>, ten: &Ten, steps: &mut Steps<L>) -> Power<D>
    requires power { ten.now.power ≡ 10 ^ ten.now.exponent }
    requires at_least_one { 1 ≤ nat_abs (D.value from.power) }
    requires few { from.exponent + ten.now.exponent < 2 ^ 32 }
    ensures value { (a : ℕ) → IsRaised
        (2 ^ D.BITS) a from.exponent (nat_abs (D.value from.power)) (2 * ten.now.exponent)
        → IsRaised (2 ^ D.BITS) a result.exponent (nat_abs (D.value result.power)) ten.now.exponent }
    ensures ticks { RisesAtMost 2 (L.count steps.old) (L.count steps.new) }
{
    let Some(word) = word_of(ten.power, steps) else {
        return from;
    };
    match product(from.power, word, steps) {
        Some(power) => Power {
            exponent: from.exponent + ten.exponent,
            power,
        },
        None => from,
    }
}

/// Returns the negative integer k with `10^k <= val / 2^n < 10^(k+1)`. Precondition: `val` is not 0. The count of
/// steps rises by at most `4 log2(n) + 4`, where n is the width.
pub fn frac_log10_part<L: Ledger, D: Digits<L>>(val: D, steps: &mut Steps<L>) -> i32
    requires { D.value val ≢ pos 0 }
    ensures value { IsLog (nat_abs (D.value val)) D.BITS 10 result }
    ensures ticks { RisesAtMost (4 * log2 D.BITS + 4) (L.count steps.old) (L.count steps.new) }
{
    let _in_range = is_at_most(val, D::ONE, steps);
    let mut found = Power {
        exponent: 0,
        power: val,
    };
    for ten in &TENS {
        found = raised(found, ten, steps);
    }
    below_zero(found.exponent)
}

/// Returns the integer k with `10^k <= val < 10^(k+1)`, as std's `ilog10` does. Precondition: `val` is not 0. The
/// count of steps rises by at most `4 log2(n) + 4`, where n is the width.
pub fn int_log10_part<L: Ledger, D: Digits<L>>(val: D, steps: &mut Steps<L>) -> i32
    requires { D.value val ≢ pos 0 }
    ensures value { IsLog (nat_abs (D.value val)) 0 10 result }
    ensures ticks { RisesAtMost (4 * log2 D.BITS + 4) (L.count steps.old) (L.count steps.new) }
{
    int_part(val, Base::TEN, steps)
}
