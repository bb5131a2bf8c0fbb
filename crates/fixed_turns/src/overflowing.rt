//! The `overflowing_` calls of sines, cosines and angles of points. The Rust crate `fixed` does not have them.

ghost use Rattle.std.specs.Prelude.{◌≡◌, ◌≤◌, ◌≢◌, ℤ, Some, pos};
ghost use Rattle.fixed_word.specs.Policies.{overflowing};
ghost use Rattle.fixed_turns.specs.Angles.{IsAngleOf, turn_room};
ghost use Rattle.fixed_turns.specs.RadianAngles.{IsRadianAngle};
ghost use Rattle.fixed_turns.specs.Radians.{IsRadianCosine, IsRadianSine};
ghost use Rattle.fixed_turns.specs.Sines.{IsCosine, IsSine, sine_room};

use crate::directions::atan2_of;
use crate::points::atan2_turns_of;
use crate::radians::{cos_of, sin_cos_of, sin_of};
use crate::sines::{cos_turns_of, sin_cos_turns_of, sin_turns_of};
use fixed_num::{Fixed, Held, Number, overflowing_number};
use fixed_word::{RawWord, Word};

/// The `overflowing_` calls of sines, cosines and angles of points. They return the wrapped result, and whether the
/// result does not fit. Operands and results are in units of `2^-F`; angles are in turns. Precondition of each call: F
/// is at most the width.
pub trait OverflowingTurns: Number {
    /// Returns the sine of an angle in turns, rounded to the nearest and wrapped, and whether it does not fit.
    ///
    /// Before it is wrapped, the result differs from the exact sine by at most half a unit plus `2^-k`, where k is 41
    /// on words of up to 32 bits and 61 on words of 64 bits. Sines of whole quarter turns are exact, and none is above
    /// 1 or below -1.
    fn overflowing_sin_turns(self) -> (Self, bool)
        requires { Self.FRACTION ≤ Self.BITS }
        ensures { (r : ℤ) × IsSine (sine_room Self.BITS) (Self.number self) Self.FRACTION r
            × (Some (Self.number result.0, result.1) ≡ overflowing Self.SIGNED Self.BITS (Some r)) };

    /// Returns the cosine of an angle in turns, rounded to the nearest and wrapped, and whether it does not fit.
    ///
    /// Before it is wrapped, the result differs from the exact cosine by at most half a unit plus `2^-k`, where k is 41
    /// on words of up to 32 bits and 61 on words of 64 bits. Cosines of whole quarter turns are exact, and none is
    /// above 1 or below -1.
    fn overflowing_cos_turns(self) -> (Self, bool)
        requires { Self.FRACTION ≤ Self.BITS }
        ensures { (r : ℤ) × IsCosine (sine_room Self.BITS) (Self.number self) Self.FRACTION r
            × (Some (Self.number result.0, result.1) ≡ overflowing Self.SIGNED Self.BITS (Some r)) };

    /// Returns the sine and the cosine of an angle in turns, both rounded to the nearest and wrapped, each with whether
    /// it does not fit.
    ///
    /// Before it is wrapped, each result differs from its exact value by at most half a unit plus `2^-k`, where k is 41
    /// on words of up to 32 bits and 61 on words of 64 bits. The results at whole quarter turns are exact, and none is
    /// above 1 or below -1.
    fn overflowing_sin_cos_turns(self) -> ((Self, bool), (Self, bool))
        requires { Self.FRACTION ≤ Self.BITS }
        ensures sine { (r : ℤ) × IsSine (sine_room Self.BITS) (Self.number self) Self.FRACTION r
            × (Some (Self.number result.0.0, result.0.1) ≡ overflowing Self.SIGNED Self.BITS (Some r)) }
        ensures cosine { (r : ℤ) × IsCosine (sine_room Self.BITS) (Self.number self) Self.FRACTION r
            × (Some (Self.number result.1.0, result.1.1) ≡ overflowing Self.SIGNED Self.BITS (Some r)) };

    /// Returns the angle of the point `(x, self)` in turns, from -1/2 to 1/2, rounded to the nearest and wrapped, and
    /// whether it does not fit. Precondition: the coordinates are not both 0.
    ///
    /// Before it is wrapped, the result differs from the exact angle by at most half a unit plus `2^-k` radians, where
    /// k is 40 on words of up to 32 bits and 60 on words of 64 bits. Multiples of 1/8 are exact if they are whole
    /// numbers of units. If `self` is 0 and x is below 0, the exact angle is 1/2.
    fn overflowing_atan2_turns(self, x: Self) -> (Self, bool)
        requires fraction { Self.FRACTION ≤ Self.BITS }
        requires some { Self.number x ≡ pos 0 → Self.number self ≢ pos 0 }
        ensures { (r : ℤ) × IsAngleOf (turn_room Self.BITS) (Self.number x) (Self.number self) Self.FRACTION r
            × (Some (Self.number result.0, result.1) ≡ overflowing Self.SIGNED Self.BITS (Some r)) };
}

/// The `overflowing_` calls of sines, cosines and angles of points in radians. They return the wrapped result, and
/// whether the result does not fit. Operands and results are in units of `2^-F`. Precondition of each call: F is at
/// most the width.
pub trait OverflowingRadians: Number {
    /// Returns the sine of an angle in radians, rounded to the nearest and wrapped, and whether it does not fit.
    ///
    /// Before it is wrapped, the result differs from the exact sine by at most half a unit plus `2^-k`, where k is 41
    /// on words of up to 32 bits and 61 on words of 64 bits. The sine of 0 is exact, and none is above 1 or below -1.
    fn overflowing_sin(self) -> (Self, bool)
        requires { Self.FRACTION ≤ Self.BITS }
        ensures { (r : ℤ) × IsRadianSine (sine_room Self.BITS) (Self.number self) Self.FRACTION r
            × (Some (Self.number result.0, result.1) ≡ overflowing Self.SIGNED Self.BITS (Some r)) };

    /// Returns the cosine of an angle in radians, rounded to the nearest and wrapped, and whether it does not fit.
    ///
    /// Before it is wrapped, the result differs from the exact cosine by at most half a unit plus `2^-k`, where k is 41
    /// on words of up to 32 bits and 61 on words of 64 bits. The cosine of 0 is exact, and none is above 1 or below -1.
    fn overflowing_cos(self) -> (Self, bool)
        requires { Self.FRACTION ≤ Self.BITS }
        ensures { (r : ℤ) × IsRadianCosine (sine_room Self.BITS) (Self.number self) Self.FRACTION r
            × (Some (Self.number result.0, result.1) ≡ overflowing Self.SIGNED Self.BITS (Some r)) };

    /// Returns the sine and the cosine of an angle in radians, both rounded to the nearest and wrapped, each with
    /// whether it does not fit.
    ///
    /// Before it is wrapped, each result differs from its exact value by at most half a unit plus `2^-k`, where k is 41
    /// on words of up to 32 bits and 61 on words of 64 bits. The results at 0 are exact, and none is above 1 or below
    /// -1.
    fn overflowing_sin_cos(self) -> ((Self, bool), (Self, bool))
        requires { Self.FRACTION ≤ Self.BITS }
        ensures sine { (r : ℤ) × IsRadianSine (sine_room Self.BITS) (Self.number self) Self.FRACTION r
            × (Some (Self.number result.0.0, result.0.1) ≡ overflowing Self.SIGNED Self.BITS (Some r)) }
        ensures cosine { (r : ℤ) × IsRadianCosine (sine_room Self.BITS) (Self.number self) Self.FRACTION r
            × (Some (Self.number result.1.0, result.1.1) ≡ overflowing Self.SIGNED Self.BITS (Some r)) };

    /// Returns the angle of the point `(x, self)` in radians, from -pi to pi, rounded to the nearest and wrapped, and
    /// whether it does not fit. Precondition: the coordinates are not both 0.
    ///
    /// Before it is wrapped, the result differs from the exact angle by at most half a unit plus `2^-k` radians, where
    /// k is 40 on words of up to 32 bits and 60 on words of 64 bits. The angle 0 is exact. If `self` is 0 and x is
    /// below 0, the exact angle is pi.
    fn overflowing_atan2(self, x: Self) -> (Self, bool)
        requires fraction { Self.FRACTION ≤ Self.BITS }
        requires some { Self.number x ≡ pos 0 → Self.number self ≢ pos 0 }
        ensures { (r : ℤ) × IsRadianAngle (sine_room Self.BITS) (Self.number x) (Self.number self) Self.FRACTION r
            × (Some (Self.number result.0, result.1) ≡ overflowing Self.SIGNED Self.BITS (Some r)) };
}

impl<T: Word, const F: u32> OverflowingTurns for Fixed<T, F> {
    fn overflowing_sin_turns(self) -> (Self, bool) {
        overflowing_number(sin_turns_of(self.bits, F))
    }

    fn overflowing_cos_turns(self) -> (Self, bool) {
        overflowing_number(cos_turns_of(self.bits, F))
    }

    fn overflowing_sin_cos_turns(self) -> ((Self, bool), (Self, bool)) {
        let (sine, cosine) = sin_cos_turns_of(self.bits, F);
        (overflowing_number(sine), overflowing_number(cosine))
    }

    fn overflowing_atan2_turns(self, x: Self) -> (Self, bool) {
        overflowing_number(atan2_turns_of(self.bits, x.bits, F))
    }
}

impl<T: Word, const F: u32> OverflowingRadians for Fixed<T, F> {
    fn overflowing_sin(self) -> (Self, bool) {
        overflowing_number(sin_of(self.bits, F))
    }

    fn overflowing_cos(self) -> (Self, bool) {
        overflowing_number(cos_of(self.bits, F))
    }

    fn overflowing_sin_cos(self) -> ((Self, bool), (Self, bool)) {
        let (sine, cosine) = sin_cos_of(self.bits, F);
        (overflowing_number(sine), overflowing_number(cosine))
    }

    fn overflowing_atan2(self, x: Self) -> (Self, bool) {
        overflowing_number(atan2_of(self.bits, x.bits, F))
    }
}
