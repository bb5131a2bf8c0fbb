//! The `wrapping_` calls of sines, cosines and angles of points. The Rust crate `fixed` does not have them.

ghost use Rattle.std.specs.Prelude.{◌≡◌, ◌≤◌, ◌≢◌, ℤ, Some, pos};
ghost use Rattle.fixed_word.specs.Policies.{wrapping};
ghost use Rattle.fixed_turns.specs.Angles.{IsAngleOf, turn_room};
ghost use Rattle.fixed_turns.specs.RadianAngles.{IsRadianAngle};
ghost use Rattle.fixed_turns.specs.Radians.{IsRadianCosine, IsRadianSine};
ghost use Rattle.fixed_turns.specs.Sines.{IsCosine, IsSine, sine_room};

use crate::directions::atan2_of;
use crate::points::atan2_turns_of;
use crate::radians::{cos_of, sin_cos_of, sin_of};
use crate::sines::{cos_turns_of, sin_cos_turns_of, sin_turns_of};
use fixed_num::{Fixed, Held, Number, wrapping_number};
use fixed_word::{RawWord, Word};

/// The `wrapping_` calls of sines, cosines and angles of points. If a result does not fit, they return it wrapped.
/// Operands and results are in units of `2^-F`; angles are in turns. Precondition of each call: F is at most the width.
pub trait WrappingTurns: Number {
    /// Returns the sine of an angle in turns, rounded to the nearest and wrapped.
    ///
    /// Before it is wrapped, the result differs from the exact sine by at most half a unit plus `2^-k`, where k is 41
    /// on words of up to 32 bits and 61 on words of 64 bits. Sines of whole quarter turns are exact, and none is above
    /// 1 or below -1.
    fn wrapping_sin_turns(self) -> Self
        requires { Self.FRACTION ≤ Self.BITS }
        ensures { (r : ℤ) × IsSine (sine_room Self.BITS) (Self.number self) Self.FRACTION r
            × (Some (Self.number result) ≡ wrapping Self.SIGNED Self.BITS (Some r)) };

    /// Returns the cosine of an angle in turns, rounded to the nearest and wrapped.
    ///
    /// Before it is wrapped, the result differs from the exact cosine by at most half a unit plus `2^-k`, where k is 41
    /// on words of up to 32 bits and 61 on words of 64 bits. Cosines of whole quarter turns are exact, and none is
    /// above 1 or below -1.
    fn wrapping_cos_turns(self) -> Self
        requires { Self.FRACTION ≤ Self.BITS }
        ensures { (r : ℤ) × IsCosine (sine_room Self.BITS) (Self.number self) Self.FRACTION r
            × (Some (Self.number result) ≡ wrapping Self.SIGNED Self.BITS (Some r)) };

    /// Returns the sine and the cosine of an angle in turns, both rounded to the nearest and wrapped.
    ///
    /// Before it is wrapped, each result differs from its exact value by at most half a unit plus `2^-k`, where k is 41
    /// on words of up to 32 bits and 61 on words of 64 bits. The results at whole quarter turns are exact, and none is
    /// above 1 or below -1.
    fn wrapping_sin_cos_turns(self) -> (Self, Self)
        requires { Self.FRACTION ≤ Self.BITS }
        ensures sine { (r : ℤ) × IsSine (sine_room Self.BITS) (Self.number self) Self.FRACTION r
            × (Some (Self.number result.0) ≡ wrapping Self.SIGNED Self.BITS (Some r)) }
        ensures cosine { (r : ℤ) × IsCosine (sine_room Self.BITS) (Self.number self) Self.FRACTION r
            × (Some (Self.number result.1) ≡ wrapping Self.SIGNED Self.BITS (Some r)) };

    /// Returns the angle of the point `(x, self)` in turns, from -1/2 to 1/2, rounded to the nearest and wrapped.
    /// Precondition: the coordinates are not both 0.
    ///
    /// Before it is wrapped, the result differs from the exact angle by at most half a unit plus `2^-k` radians, where
    /// k is 40 on words of up to 32 bits and 60 on words of 64 bits. Multiples of 1/8 are exact if they are whole
    /// numbers of units. If `self` is 0 and x is below 0, the exact angle is 1/2.
    fn wrapping_atan2_turns(self, x: Self) -> Self
        requires fraction { Self.FRACTION ≤ Self.BITS }
        requires some { Self.number x ≡ pos 0 → Self.number self ≢ pos 0 }
        ensures { (r : ℤ) × IsAngleOf (turn_room Self.BITS) (Self.number x) (Self.number self) Self.FRACTION r
            × (Some (Self.number result) ≡ wrapping Self.SIGNED Self.BITS (Some r)) };
}

/// The `wrapping_` calls of sines, cosines and angles of points in radians. If a result does not fit, they return it
/// wrapped. Operands and results are in units of `2^-F`. Precondition of each call: F is at most the width.
pub trait WrappingRadians: Number {
    /// Returns the sine of an angle in radians, rounded to the nearest and wrapped.
    ///
    /// Before it is wrapped, the result differs from the exact sine by at most half a unit plus `2^-k`, where k is 41
    /// on words of up to 32 bits and 61 on words of 64 bits. The sine of 0 is exact, and none is above 1 or below -1.
    fn wrapping_sin(self) -> Self
        requires { Self.FRACTION ≤ Self.BITS }
        ensures { (r : ℤ) × IsRadianSine (sine_room Self.BITS) (Self.number self) Self.FRACTION r
            × (Some (Self.number result) ≡ wrapping Self.SIGNED Self.BITS (Some r)) };

    /// Returns the cosine of an angle in radians, rounded to the nearest and wrapped.
    ///
    /// Before it is wrapped, the result differs from the exact cosine by at most half a unit plus `2^-k`, where k is 41
    /// on words of up to 32 bits and 61 on words of 64 bits. The cosine of 0 is exact, and none is above 1 or below -1.
    fn wrapping_cos(self) -> Self
        requires { Self.FRACTION ≤ Self.BITS }
        ensures { (r : ℤ) × IsRadianCosine (sine_room Self.BITS) (Self.number self) Self.FRACTION r
            × (Some (Self.number result) ≡ wrapping Self.SIGNED Self.BITS (Some r)) };

    /// Returns the sine and the cosine of an angle in radians, both rounded to the nearest and wrapped.
    ///
    /// Before it is wrapped, each result differs from its exact value by at most half a unit plus `2^-k`, where k is 41
    /// on words of up to 32 bits and 61 on words of 64 bits. The results at 0 are exact, and none is above 1 or below
    /// -1.
    fn wrapping_sin_cos(self) -> (Self, Self)
        requires { Self.FRACTION ≤ Self.BITS }
        ensures sine { (r : ℤ) × IsRadianSine (sine_room Self.BITS) (Self.number self) Self.FRACTION r
            × (Some (Self.number result.0) ≡ wrapping Self.SIGNED Self.BITS (Some r)) }
        ensures cosine { (r : ℤ) × IsRadianCosine (sine_room Self.BITS) (Self.number self) Self.FRACTION r
            × (Some (Self.number result.1) ≡ wrapping Self.SIGNED Self.BITS (Some r)) };

    /// Returns the angle of the point `(x, self)` in radians, from -pi to pi, rounded to the nearest and wrapped.
    /// Precondition: the coordinates are not both 0.
    ///
    /// Before it is wrapped, the result differs from the exact angle by at most half a unit plus `2^-k` radians, where
    /// k is 40 on words of up to 32 bits and 60 on words of 64 bits. The angle 0 is exact. If `self` is 0 and x is
    /// below 0, the exact angle is pi.
    fn wrapping_atan2(self, x: Self) -> Self
        requires fraction { Self.FRACTION ≤ Self.BITS }
        requires some { Self.number x ≡ pos 0 → Self.number self ≢ pos 0 }
        ensures { (r : ℤ) × IsRadianAngle (sine_room Self.BITS) (Self.number x) (Self.number self) Self.FRACTION r
            × (Some (Self.number result) ≡ wrapping Self.SIGNED Self.BITS (Some r)) };
}

impl<T: Word, const F: u32> WrappingTurns for Fixed<T, F> {
    fn wrapping_sin_turns(self) -> Self {
        wrapping_number(sin_turns_of(self.bits, F))
    }

    fn wrapping_cos_turns(self) -> Self {
        wrapping_number(cos_turns_of(self.bits, F))
    }

    fn wrapping_sin_cos_turns(self) -> (Self, Self) {
        let (sine, cosine) = sin_cos_turns_of(self.bits, F);
        (wrapping_number(sine), wrapping_number(cosine))
    }

    fn wrapping_atan2_turns(self, x: Self) -> Self {
        wrapping_number(atan2_turns_of(self.bits, x.bits, F))
    }
}

impl<T: Word, const F: u32> WrappingRadians for Fixed<T, F> {
    fn wrapping_sin(self) -> Self {
        wrapping_number(sin_of(self.bits, F))
    }

    fn wrapping_cos(self) -> Self {
        wrapping_number(cos_of(self.bits, F))
    }

    fn wrapping_sin_cos(self) -> (Self, Self) {
        let (sine, cosine) = sin_cos_of(self.bits, F);
        (wrapping_number(sine), wrapping_number(cosine))
    }

    fn wrapping_atan2(self, x: Self) -> Self {
        wrapping_number(atan2_of(self.bits, x.bits, F))
    }
}
