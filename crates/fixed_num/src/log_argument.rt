//! The word of which a logarithm is taken.

ghost use Rattle.std.specs.Prelude.{◌≡◌, ◌*◌, ◌/◌, ◌^◌, ◌<◌, ◌≤◌, ◌↔◌, nat_abs, IsTrue};
ghost use Rattle.fixed_word.specs.Ticks.{RisesAtMost};
ghost use Rattle.fixed_num.specs.inside.LogArgument.{IsLogArgument};

use fixed_word::{Digits, Ledger, Steps};

/// The whole part of a number if that is not 0, and otherwise the number as a fraction that uses all bits of its
/// word.
pub(crate) enum LogArgument<D> {
    Whole(D),
    Raised(D),
}

/// Returns the part of a positive number that has its logarithm.
pub(crate) fn log_argument_of<L: Ledger, D: Digits<L>>(
    val: D,
    frac: u32,
    steps: &mut Steps<L>,
) -> LogArgument<D>
    requires above_zero { 1 ≤ nat_abs (D.value val) }
    requires fraction { frac ≤ D.BITS }
    ensures value { IsLogArgument D.value D.BITS (nat_abs (D.value val)) frac result }
    ensures ticks { RisesAtMost 3 (L.count steps.old) (L.count steps.new) }
{
    if frac == D::BITS {
        return LogArgument::Raised(val);
    }
    let whole = lowered(val, frac, steps);
    if is_at_least_one(whole, steps) {
        LogArgument::Whole(whole)
    } else {
        LogArgument::Raised(raised(val, D::BITS - frac, steps))
    }
}

/// Returns whether a word is at least 1.
fn is_at_least_one<L: Ledger, D: Digits<L>>(a: D, steps: &mut Steps<L>) -> bool
    ensures value { IsTrue result ↔ (1 ≤ nat_abs (D.value a)) }
    ensures ticks { RisesAtMost 1 (L.count steps.old) (L.count steps.new) }
{
    D::ONE.at_most(a, steps)
}

/// Returns the quotient by a power of 2, rounded down.
fn lowered<L: Ledger, D: Digits<L>>(a: D, by: u32, steps: &mut Steps<L>) -> D
    requires { by < D.BITS }
    ensures value { nat_abs (D.value result) ≡ nat_abs (D.value a) / 2 ^ by }
    ensures ticks { RisesAtMost 1 (L.count steps.old) (L.count steps.new) }
{
    a.shr(by, steps)
}

/// Returns the product by a power of 2.
fn raised<L: Ledger, D: Digits<L>>(a: D, by: u32, steps: &mut Steps<L>) -> D
    requires by { by < D.BITS }
    requires fits { nat_abs (D.value a) * 2 ^ by < 2 ^ D.BITS }
    ensures value { nat_abs (D.value result) ≡ nat_abs (D.value a) * 2 ^ by }
    ensures ticks { RisesAtMost 1 (L.count steps.old) (L.count steps.new) }
{
    a.shl(by, steps)
}
