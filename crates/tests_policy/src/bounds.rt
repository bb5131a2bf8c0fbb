//! Callers that know a number by the bound of its policy alone.

ghost use Rattle.std.specs.Prelude.{◌≡◌, ◌+ℤ◌, option_map};
ghost use Rattle.fixed_word.specs.Format.{IsWidth};
ghost use Rattle.fixed_word.specs.Policies.{checked};
ghost use Rattle.std.specs.Prelude.{Some};

use fixed_policy::Checked;
use fixed_word::Valued;

/// Twice the number, or None exactly where that does not fit.
pub fn doubled<N: Checked>(number: N) -> Option<N>
    ensures { option_map N.number result
        ≡ checked N.SIGNED N.BITS (Some (N.number number +ℤ N.number number)) }
{
    number.checked_add(number)
}

/// The width of a number's format, which is one of a word.
pub fn width_of<N: Checked>(_number: N) -> u32
    ensures width { IsWidth N.BITS }
    ensures value { result ≡ N.BITS }
{
    <N::Bits as Valued>::BITS
}
