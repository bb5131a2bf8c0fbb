//! The order of words, which is that of their values.

ghost use Rattle.std.specs.Prelude.{◌≡◌, ◌↔◌, ◌≤ℤ◌, ◌<ℤ◌, IsTrue};
ghost use Rattle.std.specs.Int.{int_max, int_min};

use fixed_word::Ordered;

/// Returns whether the first word is less.
#[inline]
pub(crate) fn is_less<T: Ordered>(a: T, b: T) -> bool
    ensures { IsTrue result ↔ (T.value a <ℤ T.value b) }
{
    a < b
}

/// Returns whether the first word is at most the second.
#[inline]
pub(crate) fn is_at_most<T: Ordered>(a: T, b: T) -> bool
    ensures { IsTrue result ↔ (T.value a ≤ℤ T.value b) }
{
    a <= b
}

/// Returns the lesser of two words.
#[inline]
pub(crate) fn lesser<T: Ordered>(a: T, b: T) -> T
    ensures { T.value result ≡ int_min (T.value a) (T.value b) }
{
    if b < a { b } else { a }
}

/// Returns the greater of two words.
#[inline]
pub(crate) fn greater<T: Ordered>(a: T, b: T) -> T
    ensures { T.value result ≡ int_max (T.value a) (T.value b) }
{
    if a < b { b } else { a }
}
