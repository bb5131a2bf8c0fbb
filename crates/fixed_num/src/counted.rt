//! The square root, which counts its steps.

ghost use Rattle.std.specs.Prelude.{◌≡◌, ◌≤◌, ◌*◌, ◌+◌, ◌≤ℤ◌, pos};
ghost use Rattle.fixed_word.specs.Format.{highest};
ghost use Rattle.fixed_word.specs.Ticks.{RisesAtMost};
ghost use Rattle.fixed_root.specs.Root.{IsRoot, root_of};

use crate::format::Fixed;
use fixed_root::root;
use fixed_word::{Digits, Ledger, RawWord, Steps, Word};

impl<T: Word, const F: u32> Fixed<T, F> {
    /// Returns the square root, rounded down. Preconditions: F is at most the width n, the number is not negative,
    /// and the root fits. The count of steps rises by at most `16 n + 32`. (`fixed` does not have this call.)
    pub fn sqrt_counted<L: Ledger>(self, steps: &mut Steps<L>) -> Self
    where
        T::Unsigned: Digits<L>,
        requires fraction { F ≤ T.BITS }
        requires defined { pos 0 ≤ℤ T.value self.bits }
        requires fits { root_of (T.value self.bits) F ≤ℤ highest T.SIGNED T.BITS }
        ensures root { IsRoot (T.value self.bits) F (T.value result.bits) }
        ensures ticks { RisesAtMost (16 * T.BITS + 32) (L.count steps.old) (L.count steps.new) }
    {
        Fixed {
            bits: T::from_unsigned(root(self.bits.to_unsigned(), F, steps)),
        }
    }
}
