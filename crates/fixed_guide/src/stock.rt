//! A stock from which no more is taken than there is: a strict call under a precondition.

ghost use Rattle.std.specs.Prelude.{◌≡◌, ◌≤◌, ◌<◌, ◌+◌, ◌↔◌, IfSome, IsNone};

use fixed::{FixedU32, Strict};

/// A volume of at least 0, in units of `2^-12`.
pub type Volume = FixedU32<12>;

/// Returns what is left of a stock. Precondition: no more is taken than there is.
pub fn left(stock: Volume, taken: Volume) -> Volume
    requires enough { taken.bits ≤ stock.bits }
    ensures { result.bits + taken.bits ≡ stock.bits }
{
    stock.strict_sub(taken)
}

/// Returns what is left of a stock. Returns `None` if and only if more is taken than there is.
pub fn drawn(stock: Volume, taken: Volume) -> Option<Volume>
    ensures some { IfSome result (λ rest. rest.bits + taken.bits ≡ stock.bits) }
    ensures none { IsNone result ↔ (stock.bits < taken.bits) }
{
    if stock < taken {
        return None;
    }
    Some(left(stock, taken))
}
