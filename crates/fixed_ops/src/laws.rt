//! Laws of the definitions. These functions do nothing: the contract of each is the law.

ghost use Rattle.std.specs.Prelude.{◌↔◌, ◌<◌, ◌≤◌, Bool, List, fold, length, take, ℕ, ℤ};
ghost use Rattle.fixed_word.specs.Format.{InRange};
ghost use Rattle.fixed_ops.specs.Folds.{EachFits};

/// Each partial result of a walk fits if and only if the fold over each prefix of the list fits.
pub fn fold_law()
    ensures { (s : Bool) (n : ℕ) (step : ℤ → ℤ → ℤ) (from : ℤ) (xs : List ℤ)
        → EachFits s n step from xs
        ↔ ((k : ℕ) → 0 < k → k ≤ length xs → InRange s n (fold step from (take k xs))) }
{}
