//! Laws of the definitions. These functions do nothing: the contract of each is the law.

ghost use Rattle.std.specs.Prelude.{◌≡◌, ◌≤◌, ◌^◌, ◌-ℤ◌, ◌*ℤ◌, ℕ, ℤ, pos, nat_abs, List, None, Ok, true};
ghost use Rattle.std.specs.Str.Parse.{without_leading_sign};
ghost use Rattle.fixed_word.specs.declared.rounding.Rounding.{Rounding};
ghost use Rattle.fixed_word.specs.declared.rounding.Rounding.TheVariants.{Even};
ghost use Rattle.fixed_kernel.specs.Rounded.{IsRounded};
ghost use Rattle.fixed_decimal.specs.Decimal.{decimal_row, exact_row, fault_in, number_in, places_in};
ghost use Rattle.fixed_decimal.specs.Text.{IsExactAt, IsLeast, ReadsBack, shortest, text_of, to_places};

/// A decimal is read as its number, rounded as named: down, toward zero, or to the nearest, ties to even. If it is read
/// as exact, the result is the number itself.
pub fn reading_law()
    ensures rounded { (f : ℕ) (r : Rounding) (text : List ℕ) → fault_in text ≡ None
        → (a : ℤ) × (decimal_row text f r ≡ Ok a)
        × IsRounded (number_in text *ℤ pos (2 ^ f)) (pos (10 ^ places_in (without_leading_sign text))) r a }
    ensures exact { (a : ℤ) (f : ℕ) (text : List ℕ) → exact_row text f ≡ Ok a
        → a *ℤ pos (10 ^ places_in (without_leading_sign text)) ≡ number_in text *ℤ pos (2 ^ f) }
{}

/// If the text of a number is exact, it is read as the number, with each rounding. A text with at least as many digits
/// after the point as the format has fraction bits is exact. The shortest text is read as the number, to the nearest,
/// ties to even; no decimal with fewer digits after the point is. A rounded text is at least as near to the number as
/// any decimal with as many digits after the point. Up to 64 fraction bits, `shortest` returns how many digits after
/// the point the shortest text has.
pub fn text_law()
    ensures exact { (a : ℤ) (f p : ℕ) (r s : Rounding) → IsExactAt a f p
        → decimal_row (text_of a f p r) f s ≡ Ok a }
    ensures enough { (a : ℤ) (f p : ℕ) → f ≤ p → IsExactAt a f p }
    ensures shortest { (a : ℤ) (f p : ℕ) → IsLeast (ReadsBack a f) p
        → decimal_row (text_of a f p Even) f Even ≡ Ok a }
    ensures fewest { (a : ℤ) (f p : ℕ) (text : List ℕ) → IsLeast (ReadsBack a f) p
        → decimal_row text f Even ≡ Ok a → p ≤ places_in (without_leading_sign text) }
    ensures found { (a : ℤ) (f : ℕ) → f ≤ 64 → IsLeast (ReadsBack a f) (shortest a f) }
    ensures nearest { (a n : ℤ) (f p : ℕ)
        → nat_abs (a *ℤ pos (10 ^ p) -ℤ to_places a f p Even *ℤ pos (2 ^ f))
        ≤ nat_abs (a *ℤ pos (10 ^ p) -ℤ n *ℤ pos (2 ^ f)) }
{}
