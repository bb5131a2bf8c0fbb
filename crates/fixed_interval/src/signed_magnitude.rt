//! Whole numbers of up to 128 bits and a sign, whose quotients are rounded up or down.

ghost use Rattle.std.specs.Prelude.{◌≡◌, ◌+◌, ◌*◌, ◌^◌, ◌<◌, ◌≤◌, ◌↔◌, ◌≤ℤ◌, ◌*ℤ◌, IsTrue, neg_ℤ, pos};
ghost use Rattle.std.specs.Int.{int_max, int_min};
ghost use Rattle.fixed_word.specs.Standing.{StandsFor};
ghost use Rattle.fixed_interval.specs.Ends.{ceiling_over, floor_over};
ghost use Rattle.fixed_interval.specs.inside.SignedMagnitudes.{rounded_over, value_of};

use fixed_word::{Outcome, RawWord, Word, outcome_of};

/// The number `magnitude`, or minus it if `below_zero`.
#[derive(Clone, Copy)]
pub(crate) struct SignedMagnitude {
    pub(crate) below_zero: bool,
    pub(crate) magnitude: u128,
}

/// How an end is rounded outward: the low one down, and the high one up.
#[derive(Clone, Copy)]
pub(crate) enum Outward {
    Down,
    Up,
}

impl SignedMagnitude {
    /// Returns the number of a word.
    pub(crate) fn of<T: RawWord>(word: T) -> SignedMagnitude
        ensures value { value_of result ≡ T.value word }
        ensures small { result.magnitude < 2 ^ 64 }
    {
        SignedMagnitude {
            below_zero: word.is_below_zero(),
            magnitude: word.magnitude() as u128,
        }
    }

    /// Returns the number with the other sign.
    fn negated(self) -> SignedMagnitude
        ensures value { value_of result ≡ neg_ℤ (value_of self) }
        ensures size { result.magnitude ≡ self.magnitude }
    {
        SignedMagnitude {
            below_zero: !self.below_zero,
            magnitude: self.magnitude,
        }
    }

    /// Returns the number times `2^by`. Preconditions: the result has at most 128 bits, and `by` is below 128.
    pub(crate) fn scaled(self, by: u32) -> SignedMagnitude
        requires room { self.magnitude * 2 ^ by < 2 ^ 128 }
        requires shift { by < 128 }
        ensures { value_of result ≡ value_of self *ℤ pos (2 ^ by) }
    {
        SignedMagnitude {
            below_zero: self.below_zero,
            magnitude: self.magnitude << by,
        }
    }

    /// Returns the quotient, rounded down. Precondition: the divisor is not 0.
    fn floor_over(self, divisor: SignedMagnitude) -> SignedMagnitude
        requires { 0 < divisor.magnitude }
        ensures { value_of result ≡ floor_over (value_of self) (value_of divisor) }
    {
        if self.below_zero != divisor.below_zero && self.magnitude > 0 {
            SignedMagnitude {
                below_zero: true,
                magnitude: (self.magnitude - 1) / divisor.magnitude + 1,
            }
        } else {
            SignedMagnitude {
                below_zero: false,
                magnitude: self.magnitude / divisor.magnitude,
            }
        }
    }

    /// Returns the quotient, rounded up. Precondition: the divisor is not 0.
    fn ceiling_over(self, divisor: SignedMagnitude) -> SignedMagnitude
        requires { 0 < divisor.magnitude }
        ensures { value_of result ≡ ceiling_over (value_of self) (value_of divisor) }
    {
        self.negated().floor_over(divisor).negated()
    }

    /// Returns the quotient, rounded in that direction. Precondition: the divisor is not 0.
    pub(crate) fn over(self, divisor: SignedMagnitude, way: Outward) -> SignedMagnitude
        requires { 0 < divisor.magnitude }
        ensures { value_of result ≡ rounded_over way (value_of self) (value_of divisor) }
    {
        match way {
            Outward::Down => self.floor_over(divisor),
            Outward::Up => self.ceiling_over(divisor),
        }
    }

    /// Returns the outcome of the number in a word.
    pub(crate) fn outcome<T: Word>(self) -> Outcome<T>
        ensures { StandsFor T.value T.SIGNED T.BITS (value_of self) result }
    {
        outcome_of(self.below_zero, self.magnitude)
    }
}
