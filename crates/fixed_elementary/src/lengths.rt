//! The length of a pair.

ghost use Rattle.std.specs.Prelude.{◌≡◌, ◌≤◌, ◌<◌, ◌+◌, ◌*◌, ◌^◌};
ghost use Rattle.fixed_word.specs.Standing.{StandsFor};
ghost use Rattle.fixed_root.specs.inside.Parts.{IsRootOf};
ghost use Rattle.fixed_elementary.specs.ElementaryRows.{exact_hypot};

use crate::roots::{root_of_whole, root_past};
use fixed_word::{Outcome, RawWord, outcome_of_magnitude};

/// Returns the square of a magnitude.
fn square(magnitude: u64) -> u128
    ensures { result ≡ magnitude * magnitude }
{
    u128::from(magnitude) * u128::from(magnitude)
}

/// Returns the root of the sum of the squares, rounded down. The sum may have 129 bits.
fn length_of(a: u64, b: u64) -> u128
    ensures { IsRootOf (a * a + b * b) result }
{
    let (sum, past) = square(a).overflowing_add(square(b));
    if past {
        root_past(sum)
    } else {
        root_of_whole(sum)
    }
}

/// Returns the length of the pair `(a, b)`, which is the root of `a^2 + b^2`, rounded down. The operands and the result
/// have the same number of fraction bits, which may be any.
pub fn hypot_of<T: RawWord>(a: T, b: T) -> Outcome<T>
    ensures { StandsFor T.value T.SIGNED T.BITS (exact_hypot (T.value a) (T.value b)) result }
{
    outcome_of_magnitude(false, length_of(a.magnitude(), b.magnitude()))
}
