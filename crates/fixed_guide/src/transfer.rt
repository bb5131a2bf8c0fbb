//! A ledger in which money is neither made nor lost.

ghost use Rattle.std.specs.Prelude.{◌≡◌, ◌⊎◌, ◌↔◌, ◌+ℤ◌, ◌-ℤ◌, false, IsNone, IsSome, true};
ghost use Rattle.fixed.specs.Format.{fits};

use fixed::{Checked, FixedI64};

/// An amount, in units of 1/256.
pub type Money = FixedI64<8>;

/// Moves an amount from one account to the other. The sum of the balances is unchanged. Returns `None` if and only if a
/// new balance does not fit; both accounts are then unchanged.
pub fn transfer(from: &mut Money, to: &mut Money, amount: Money) -> Option<()>
    ensures kept { from.new.bits +ℤ to.new.bits ≡ from.old.bits +ℤ to.old.bits }
    ensures moved { IsSome result → to.new.bits ≡ to.old.bits +ℤ amount.bits }
    ensures refused { IsNone result → (from.new ≡ from.old) × (to.new ≡ to.old) }
    ensures none { IsNone result
        ↔ ((fits true 64 (from.old.bits -ℤ amount.bits) ≡ false)
        ⊎ (fits true 64 (to.old.bits +ℤ amount.bits) ≡ false)) }
{
    let less = from.checked_sub(amount)?;
    let more = to.checked_add(amount)?;
    *from = less;
    *to = more;
    Some(())
}
