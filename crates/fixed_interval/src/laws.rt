//! Laws of the ends. These functions do nothing: the contract of each is the law.

ghost use Rattle.std.specs.Prelude.{◌≡◌, ◌↔◌, ◌≤ℤ◌, ◌<ℤ◌, ◌*ℤ◌, ℕ, ℤ, pos};
ghost use Rattle.fixed_text.specs.Texts.{IsReader};
ghost use Rattle.fixed_interval.specs.Ends.{ceiling_over, ceiling_root, difference_ends, floor_over, magnitude_ends, negation_ends, product_ends, quotient_ends, root_ends, square_ends, sum_ends};
ghost use Rattle.fixed_interval.specs.Containment.{HoldsDifferences, HoldsMagnitudes, HoldsNegations, HoldsProducts, HoldsQuotients, HoldsRoots, HoldsSquares, HoldsSums, IsCeilingRoot, IsMonotone, IsMonotoneOfOne, IsTight, IsTightOfOne};
ghost use Rattle.fixed_interval.specs.Lines.{header_of, line_of};
ghost use Rattle.fixed_interval.specs.Text.{header_text, line_text};

/// The numbers that are at most a quotient that is rounded down, and those that are at least one that is rounded up. If
/// the divisor is below 0, the order is reversed.
pub fn rounding_law()
    ensures floor_above { (q x d : ℤ) → pos 0 <ℤ d → (q ≤ℤ floor_over x d) ↔ ((q *ℤ d) ≤ℤ x) }
    ensures floor_below { (q x d : ℤ) → d <ℤ pos 0 → (q ≤ℤ floor_over x d) ↔ (x ≤ℤ (q *ℤ d)) }
    ensures ceiling_above { (q x d : ℤ) → pos 0 <ℤ d
        → (ceiling_over x d ≤ℤ q) ↔ (x ≤ℤ (q *ℤ d)) }
    ensures ceiling_below { (q x d : ℤ) → d <ℤ pos 0
        → (ceiling_over x d ≤ℤ q) ↔ ((q *ℤ d) ≤ℤ x) }
{}

/// The root that is rounded up is the least number from 0 on whose square is at least the number, and the only such
/// one.
pub fn root_law()
    ensures is { (a : ℤ) (f : ℕ) → pos 0 ≤ℤ a → IsCeilingRoot a f (ceiling_root a f) }
    ensures unique { (a r s : ℤ) (f : ℕ) → IsCeilingRoot a f r → IsCeilingRoot a f s → r ≡ s }
{}

/// If each operand is replaced by an interval inside it, the result is still defined and fits, and its ends are within
/// the old ones.
pub fn inclusion_law()
    ensures sum { IsMonotone sum_ends }
    ensures difference { IsMonotone difference_ends }
    ensures product { (f : ℕ) → IsMonotone (λ a b. product_ends a b f) }
    ensures quotient { (f : ℕ) → IsMonotone (λ a b. quotient_ends a b f) }
    ensures root { (f : ℕ) → IsMonotoneOfOne (λ a. root_ends a f) }
    ensures negation { IsMonotoneOfOne negation_ends }
    ensures magnitude { IsMonotoneOfOne magnitude_ends }
    ensures square { (f : ℕ) → IsMonotoneOfOne (λ a. square_ends a f) }
{}

/// No narrower interval contains every result of an operation on numbers of two intervals: each interval that contains
/// them all also contains the operation's ends.
pub fn tightness_law()
    ensures sum { IsTight sum_ends HoldsSums }
    ensures difference { IsTight difference_ends HoldsDifferences }
    ensures product { (f : ℕ) → IsTight (λ a b. product_ends a b f) (λ a b r. HoldsProducts a b f r) }
    ensures quotient { (f : ℕ) → IsTight (λ a b. quotient_ends a b f) (λ a b r. HoldsQuotients a b f r) }
    ensures root { (f : ℕ) → IsTightOfOne (λ a. root_ends a f) (λ a r. HoldsRoots a f r) }
    ensures negation { IsTightOfOne negation_ends HoldsNegations }
    ensures magnitude { IsTightOfOne magnitude_ends HoldsMagnitudes }
    ensures square { (f : ℕ) → IsTightOfOne (λ a. square_ends a f) (λ a r. HoldsSquares a f r) }
{}

/// A piece is read as a header, or as a line, exactly if it is the text of that.
pub fn text_law()
    ensures headers { IsReader header_text header_of }
    ensures lines { IsReader line_text line_of }
{}
