//! The width of an enclosure.

ghost use Rattle.std.specs.Prelude.{◌≡◌, ◌-ℤ◌};

use crate::enclosure::Enclosure;
use fixed_num::Fixed;
use fixed_word::Word;

impl<T: Word, const F: u32> Enclosure<T, F> {
    /// Returns the high end minus the low end, exactly: the unsigned format has room for it.
    pub fn width(self) -> Fixed<T::Unsigned, F>
        ensures { T.Unsigned.value result.bits ≡ T.value self.hi -ℤ T.value self.lo }
    {
        self.high().abs_diff(self.low())
    }
}
