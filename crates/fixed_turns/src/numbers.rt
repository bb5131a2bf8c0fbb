//! Pairs of numbers and of words, which the typed calls use.

ghost use Rattle.std.specs.Prelude.{◌≡◌, ◌↔◌, IsTrue, option_map, pos};
ghost use Rattle.fixed_turns.specs.Sines.{both};

use fixed_num::Fixed;
use fixed_word::RawWord;

/// Returns both numbers, or `None` if one of them is missing.
pub(crate) fn both_numbers<T: RawWord, const F: u32>(
    first: Option<Fixed<T, F>>,
    second: Option<Fixed<T, F>>,
) -> Option<(Fixed<T, F>, Fixed<T, F>)>
    ensures { option_map (λ pair. (T.value pair.0.bits, T.value pair.1.bits)) result
        ≡ both (option_map (λ r. T.value r.bits) first) (option_map (λ r. T.value r.bits) second) }
{
    match (first, second) {
        (Some(first), Some(second)) => Some((first, second)),
        _ => None,
    }
}

/// Returns whether both words are 0.
pub(crate) fn is_origin<T: RawWord>(y: T, x: T) -> bool
    ensures { IsTrue result ↔ (T.value x ≡ pos 0) × (T.value y ≡ pos 0) }
{
    x.magnitude() == 0 && y.magnitude() == 0
}
