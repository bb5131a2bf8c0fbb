//! Laws of the definitions and of the comparisons. These functions do nothing: the contract of each is the law.

ghost use Rattle.std.specs.Prelude.{◌≡◌, ◌+ℤ◌, ◌↔◌, ℕ, ℤ, Bool, IsTrue, Some};
ghost use Rattle.std.specs.Ordering.{int_cmp};
ghost use Rattle.fixed_word.specs.Format.{InRange, IsWidth, wrap};
ghost use Rattle.fixed_num.specs.Sizes.{mean_of};

use crate::format::Fixed;
use fixed_word::{Ordered, RawWord};
use std::hash::Hash;

/// If two numbers are moved by the same amount, their mean moves by that amount.
pub fn mean_law()
    ensures { (a b t : ℤ) → mean_of (a +ℤ t) (b +ℤ t) ≡ mean_of a b +ℤ t }
{}

/// Equality, order and hash of numbers of one format are those of their bits as integers.
pub fn order_law<T: RawWord + Ordered, const F: u32>(x: Fixed<T, F>, y: Fixed<T, F>)
    ensures equal { IsTrue (⟦<Fixed<T, F> as PartialEq>⟧.eq x y)
        ↔ (T.value x.bits ≡ T.value y.bits) }
    ensures order { ⟦<Fixed<T, F> as Ord>⟧.cmp x y ≡ int_cmp (T.value x.bits) (T.value y.bits) }
    ensures partial_order { ⟦<Fixed<T, F> as PartialOrd>⟧.partial_cmp x y
        ≡ Some (int_cmp (T.value x.bits) (T.value y.bits)) }
    ensures hash { ⟦<Fixed<T, F> as Hash>⟧.hash_input x ≡ T.hash_input x.bits }
{}

/// A cast to the word of the other sign and back restores the number. (`fixed_bits` has the law that bits and bytes
/// read back give the number.)
pub fn cast_law()
    ensures { (s t : Bool) (n : ℕ) (x : ℤ) → IsWidth n → InRange s n x → wrap s n (wrap t n x) ≡ x }
{}
