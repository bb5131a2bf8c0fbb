//! Callers that know a number by its bound alone, each proved for every number that there is.

ghost use Rattle.std.specs.Prelude.{◌≡◌, ◌*◌};

use fixed_num::{Held, Number};
use fixed_word::Valued;

/// The number that its own bits make.
pub fn read_back<N: Held>(number: N) -> N
    ensures { result ≡ number }
{
    N::from_bits(number.to_bits())
}

/// How many bytes the bits take. The width is one of four, each a multiple of 8.
pub fn bytes_taken<N: Number>() -> u32
    ensures { 8 * result ≡ N.BITS }
{
    <N::Bits as Valued>::BITS / 8
}
