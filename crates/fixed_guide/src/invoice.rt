//! Code with operators, which reads like arithmetic. Each caller shows that the result fits.

ghost use Rattle.std.specs.Prelude.{◌≡◌, ◌^◌, ◌<◌, ◌≤◌, ◌+◌, ◌*◌};

use fixed::FixedU32;

/// An amount of at least 0, in units of 1/256.
pub type Amount = FixedU32<8>;

/// Returns the price times the number of pieces, plus the fee. Nothing is rounded. Preconditions, by which the total
/// fits: the price and the fee are below `2^12`, and there are at most 255 pieces.
pub fn total(price: Amount, pieces: u32, fee: Amount) -> Amount
    requires price { price.bits < 2 ^ 20 }
    requires pieces { pieces ≤ 255 }
    requires fee { fee.bits < 2 ^ 20 }
    ensures { result.bits ≡ price.bits * pieces + fee.bits }
{
    price * pieces + fee
}
