//! Laws of the definitions. These functions do nothing: the contract of each is the law.

ghost use Rattle.std.specs.Prelude.{◌≡◌, ◌<◌, ◌≤◌, ◌*◌, ◌-◌, ◌^◌, ◌<ℤ◌, ◌≤ℤ◌, ◌+◌, ◌+ℤ◌, ◌-ℤ◌, ◌*ℤ◌, ℕ, ℤ, Bool, true, false, pos, nat_abs};
ghost use Rattle.fixed_word.specs.Format.{InRange};
ghost use Rattle.fixed_word.specs.declared.rounding.Rounding.{Rounding};
ghost use Rattle.fixed_word.specs.declared.rounding.Rounding.TheVariants.{Down};
ghost use Rattle.fixed_convert.specs.Convert.{exact_convert, rounded_convert};
ghost use Rattle.fixed_convert.specs.WholeNumber.{exact_ceil, exact_floor, exact_frac, exact_round};

/// A conversion without a named rounding rounds down. If the new unit is not larger than the old one, the conversion
/// is exact, and the conversion back restores the number.
pub fn convert_law()
    ensures default { (a : ℤ) (f g : ℕ) → rounded_convert a f g Down ≡ exact_convert a f g }
    ensures exact { (a : ℤ) (f g : ℕ) (r : Rounding) → f ≤ g
        → rounded_convert a f g r ≡ a *ℤ pos (2 ^ (g - f)) }
    ensures back { (a : ℤ) (f g : ℕ) (r s : Rounding) → f ≤ g
        → rounded_convert (rounded_convert a f g r) g f s ≡ a }
{}

/// A conversion preserves the order of numbers, with any rounding.
pub fn order_law()
    ensures { (a b : ℤ) (f g : ℕ) (r : Rounding) → a ≤ℤ b
        → rounded_convert a f g r ≤ℤ rounded_convert b f g r }
{}

/// A number of n bits, of which f are fraction bits, fits a format of m bits, of which g are fraction bits, if that
/// has at least as many integer bits and at least as many fraction bits. An unsigned number fits a signed format with
/// one more integer bit.
pub fn wider_law()
    ensures same_sign { (s : Bool) (n m f g : ℕ) (a : ℤ) (r : Rounding) → 0 < n → f ≤ g
        → n + g ≤ m + f → InRange s n a → InRange s m (rounded_convert a f g r) }
    ensures unsigned { (n m f g : ℕ) (a : ℤ) (r : Rounding) → f ≤ g
        → n + g < m + f → InRange false n a → InRange true m (rounded_convert a f g r) }
{}

/// The floor plus the fractional part is the number. The fractional part is at least 0 and less than 1.
pub fn parts_law()
    ensures sum { (a : ℤ) (f : ℕ) → exact_floor a f +ℤ exact_frac a f ≡ a }
    ensures part { (a : ℤ) (f : ℕ)
        → (pos 0 ≤ℤ exact_frac a f) × (exact_frac a f <ℤ pos (2 ^ f)) }
{}

/// The floor is less than 1 below the number, the ceiling less than 1 above it, and the rounded number at most 1/2
/// away. If it is 1/2 away, it is further from 0.
pub fn whole_law()
    ensures floor { (a : ℤ) (f : ℕ) → (exact_floor a f ≤ℤ a) × (a <ℤ (exact_floor a f +ℤ pos (2 ^ f))) }
    ensures ceil { (a : ℤ) (f : ℕ) → (a ≤ℤ exact_ceil a f) × (exact_ceil a f <ℤ (a +ℤ pos (2 ^ f))) }
    ensures round { (a : ℤ) (f : ℕ) → 2 * nat_abs (a -ℤ exact_round a f) ≤ 2 ^ f }
    ensures tie { (a : ℤ) (f : ℕ) → 2 * nat_abs (a -ℤ exact_round a f) ≡ 2 ^ f
        → nat_abs a < nat_abs (exact_round a f) }
{}
