//! Laws of the definitions. These functions do nothing: the contract of each is the law.

ghost use Rattle.std.specs.Prelude.{◌≡◌, ◌≢◌, ◌↔◌, ◌<◌, ◌≤◌, ◌^◌, ◌<ℤ◌, ◌-ℤ◌, ℕ, ℤ, Bool, IsTrue, true, false, pos, unsigned_abs};
ghost use Rattle.fixed_word.specs.Format.{Congruent, InRange, IsWidth, clamp, fits, highest, lowest, wrap};
ghost use Rattle.fixed_word.specs.Quotient.{euclidean_quotient, euclidean_remainder, floor_quotient, truncated_quotient};
ghost use Rattle.fixed_word.specs.Quotient.{IsEuclidean, IsFloor, IsTruncated};

/// `wrap` returns the only number that fits and is congruent modulo `2^n`.
pub fn wrap_law()
    ensures in_range { (s : Bool) (n : ℕ) (x : ℤ) → IsWidth n → InRange s n (wrap s n x) }
    ensures congruent { (s : Bool) (n : ℕ) (x : ℤ) → IsWidth n → Congruent (2 ^ n) x (wrap s n x) }
    ensures unique { (s : Bool) (n : ℕ) (x y : ℤ) → IsWidth n → InRange s n y
        → Congruent (2 ^ n) x y → wrap s n x ≡ y }
{}

/// A number that fits is restored by a conversion to the unsigned or signed word of its width and back.
pub fn return_law()
    ensures by_unsigned { (s : Bool) (n : ℕ) (x : ℤ) → IsWidth n → InRange s n x
        → wrap s n (wrap false n x) ≡ x }
    ensures by_signed { (s : Bool) (n : ℕ) (x : ℤ) → IsWidth n → InRange s n x
        → wrap s n (wrap true n x) ≡ x }
{}

/// `clamp` returns the nearest number that fits: x itself if x fits, and otherwise the end of the range on its side.
pub fn clamp_law()
    ensures in_range { (s : Bool) (n : ℕ) (x : ℤ) → InRange s n (clamp s n x) }
    ensures same { (s : Bool) (n : ℕ) (x : ℤ) → InRange s n x → clamp s n x ≡ x }
    ensures below { (s : Bool) (n : ℕ) (x : ℤ) → x <ℤ lowest s n → clamp s n x ≡ lowest s n }
    ensures above { (s : Bool) (n : ℕ) (x : ℤ) → highest s n <ℤ x → clamp s n x ≡ highest s n }
    ensures nearest { (s : Bool) (n : ℕ) (x y : ℤ) → InRange s n y
        → unsigned_abs (x -ℤ clamp s n x) ≤ unsigned_abs (x -ℤ y) }
{}

/// The test `fits` is true if and only if the number is in the range.
pub fn fits_law()
    ensures { (s : Bool) (n : ℕ) (x : ℤ) → IsTrue (fits s n x) ↔ InRange s n x }
{}

/// The quotients meet the equations that define them. Only the floor meets the equations of the floor.
pub fn quotient_law()
    ensures floor { (x : ℤ) (d : ℕ) → 0 < d → IsFloor x d (floor_quotient x d) }
    ensures floor_unique { (x q : ℤ) (d : ℕ) → 0 < d → IsFloor x d q → floor_quotient x d ≡ q }
    ensures trunc { (x d : ℤ) → d ≢ pos 0 → IsTruncated x d (truncated_quotient x d) }
    ensures euclid { (x d : ℤ) → d ≢ pos 0
        → IsEuclidean x d (euclidean_quotient x d) (euclidean_remainder x d) }
{}
