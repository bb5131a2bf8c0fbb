//! Laws of floats and of the nearest ones. These functions do nothing: the contract of each is the law.

ghost use Rattle.std.specs.Prelude.{◌≡◌, ◌≢◌, ◌<◌, ◌≤◌, ◌^◌, ℕ, ℤ, Some, false, nat_le, negsuc, pos, suc, unsigned_abs};
ghost use Rattle.std.specs.Float.{Format, inf, nan};
ghost use Rattle.std.specs.Float.Ieee.{low, neg, of_bits, ones, prec, top};
ghost use Rattle.std.specs.Float.Ieee.Exact.{HasValue};
ghost use Rattle.fixed_word.specs.declared.rounding.Rounding.{Rounding};
ghost use Rattle.fixed_float.specs.Patterns.{field_of, fraction_of, least_floats, IsNearestOfAll};
ghost use Rattle.fixed_float.specs.Rows.{nearest_float, units_of_float};

/// The meaning of a float's bits: a field below `ones` belongs to a number, a signed multiple of the least float above
/// 0, which is `2^-low`. The field `ones` belongs to an infinity if the fraction is 0, and otherwise to a NaN.
pub fn pattern_law()
    ensures number { (f : Format) (b : ℕ) → field_of f b < ones f
        → HasValue (of_bits f b) (nat_le (top f) b) (least_floats f (field_of f b) (fraction_of f b)) (2 ^ low f) }
    ensures infinite { (f : Format) (b : ℕ) → field_of f b ≡ ones f → fraction_of f b ≡ 0
        → of_bits f b ≡ inf (nat_le (top f) b) }
    ensures not_a_number { (f : Format) (b : ℕ) → field_of f b ≡ ones f → fraction_of f b ≢ 0
        → of_bits f b ≡ nan }
{}

/// No finite float is nearer to a number of a word than its float, and if another one is as near, the last bit is 0.
/// The float of a number below 0 is the negated float of its magnitude.
pub fn nearest_law()
    ensures nearest { (f : Format) (n g : ℕ) → n < 2 ^ 64 → g ≤ 64
        → (b : ℕ) × (of_bits f b ≡ nearest_float f (pos n) g) × IsNearestOfAll f (pos n) (2 ^ g) b }
    ensures below_zero { (f : Format) (n g : ℕ)
        → nearest_float f (negsuc n) g ≡ neg (nearest_float f (pos (suc n)) g) }
{}

/// A number of at most as many digits as a significand has, 53 or 24, is exactly a float, and converts back to the same
/// number, with any rounding.
pub fn exact_law()
    ensures { (f : Format) (a : ℤ) (g : ℕ) (r : Rounding) → unsigned_abs a < 2 ^ prec f → g ≤ 64
        → units_of_float (nearest_float f a g) g r ≡ Some a }
{}
