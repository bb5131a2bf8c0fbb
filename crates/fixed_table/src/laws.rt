//! Laws of the definitions. These functions do nothing: the contract of each is the law.

ghost use Rattle.std.specs.Prelude.{◌≡◌, ◌+◌, ◌*◌, ◌^◌, ◌<◌, ◌≤ℤ◌, ◌<ℤ◌, ◌+ℤ◌, ◌*ℤ◌, List, Some, pos, slice_get, ℕ, ℤ};
ghost use Rattle.fixed_table.specs.Interpolation.{interpolated, on_line};

/// At each point, the function has the value of the table.
pub fn points_law()
    ensures { (k i : ℕ) (values : List ℤ) (v : ℤ)
        → slice_get values i ≡ Some v
        → interpolated k values (i * 2 ^ k) ≡ v }
{}

/// Between two points the value lies between their values.
pub fn between_law()
    ensures rising { (k i part : ℕ) (values : List ℤ) (a b : ℤ)
        → slice_get values i ≡ Some a
        → slice_get values (i + 1) ≡ Some b
        → part < 2 ^ k
        → a ≤ℤ b
        → (a ≤ℤ interpolated k values (i * 2 ^ k + part)) × (interpolated k values (i * 2 ^ k + part) ≤ℤ b) }
    ensures falling { (k i part : ℕ) (values : List ℤ) (a b : ℤ)
        → slice_get values i ≡ Some a
        → slice_get values (i + 1) ≡ Some b
        → part < 2 ^ k
        → b ≤ℤ a
        → (b ≤ℤ interpolated k values (i * 2 ^ k + part)) × (interpolated k values (i * 2 ^ k + part) ≤ℤ a) }
{}

/// Between two points the value lies at or below the line, by less than a unit.
pub fn rounding_law()
    ensures { (k i part : ℕ) (values : List ℤ) (a b : ℤ)
        → slice_get values i ≡ Some a
        → slice_get values (i + 1) ≡ Some b
        → part < 2 ^ k
        → let v = interpolated k values (i * 2 ^ k + part)
        in ((v *ℤ pos (2 ^ k)) ≤ℤ on_line a b k part) × (on_line a b k part <ℤ ((v +ℤ pos 1) *ℤ pos (2 ^ k))) }
{}
