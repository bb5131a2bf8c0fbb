//! The `checked_` calls of sines, cosines and angles of points. The Rust crate `fixed` does not have them.

ghost use Rattle.std.specs.Prelude.{◌≡◌, ◌≤◌, ◌≢◌, ℤ, Some, option_map, None, pos};
ghost use Rattle.fixed_word.specs.Policies.{checked};
ghost use Rattle.fixed_turns.specs.Angles.{IsAngleOf, turn_room};
ghost use Rattle.fixed_turns.specs.RadianAngles.{IsRadianAngle};
ghost use Rattle.fixed_turns.specs.Radians.{IsRadianCosine, IsRadianSine};
ghost use Rattle.fixed_turns.specs.Sines.{IsCosine, IsSine, both, sine_room};

use crate::directions::atan2_of;
use crate::numbers::{both_numbers, is_origin};
use crate::points::atan2_turns_of;
use crate::radians::{cos_of, sin_cos_of, sin_of};
use crate::sines::{cos_turns_of, sin_cos_turns_of, sin_turns_of};
use fixed_num::{Fixed, Held, Number, checked_number};
use fixed_word::{RawWord, Word};

/// The `checked_` calls of sines, cosines and angles of points. If a result does not fit, they return `None`. Operands
/// and results are in units of `2^-F`; angles are in turns. Precondition of each call: F is at most the width.
pub trait CheckedTurns: Number {
    /// Returns the sine of an angle in turns, rounded to the nearest, or `None` if it does not fit.
    ///
    /// The result differs from the exact sine by at most half a unit plus `2^-k`, where k is 41 on words of up to 32
    /// bits and 61 on words of 64 bits. Sines of whole quarter turns are exact, and none is above 1 or below -1.
    fn checked_sin_turns(self) -> Option<Self>
        requires { Self.FRACTION ≤ Self.BITS }
        ensures { (r : ℤ) × IsSine (sine_room Self.BITS) (Self.number self) Self.FRACTION r
            × (option_map Self.number result ≡ checked Self.SIGNED Self.BITS (Some r)) };

    /// Returns the cosine of an angle in turns, rounded to the nearest, or `None` if it does not fit.
    ///
    /// The result differs from the exact cosine by at most half a unit plus `2^-k`, where k is 41 on words of up to 32
    /// bits and 61 on words of 64 bits. Cosines of whole quarter turns are exact, and none is above 1 or below -1.
    fn checked_cos_turns(self) -> Option<Self>
        requires { Self.FRACTION ≤ Self.BITS }
        ensures { (r : ℤ) × IsCosine (sine_room Self.BITS) (Self.number self) Self.FRACTION r
            × (option_map Self.number result ≡ checked Self.SIGNED Self.BITS (Some r)) };

    /// Returns the sine and the cosine of an angle in turns, both rounded to the nearest, or `None` if one of them does
    /// not fit.
    ///
    /// Each result differs from its exact value by at most half a unit plus `2^-k`, where k is 41 on words of up to 32
    /// bits and 61 on words of 64 bits. The results at whole quarter turns are exact, and none is above 1 or below -1.
    fn checked_sin_cos_turns(self) -> Option<(Self, Self)>
        requires { Self.FRACTION ≤ Self.BITS }
        ensures { (s c : ℤ) × IsSine (sine_room Self.BITS) (Self.number self) Self.FRACTION s
            × IsCosine (sine_room Self.BITS) (Self.number self) Self.FRACTION c
            × (option_map (λ pair. (Self.number pair.0, Self.number pair.1)) result
            ≡ both (checked Self.SIGNED Self.BITS (Some s)) (checked Self.SIGNED Self.BITS (Some c))) };

    /// Returns the angle of the point `(x, self)` in turns, from -1/2 to 1/2, rounded to the nearest, or `None` if both
    /// coordinates are 0 or the result does not fit.
    ///
    /// The result differs from the exact angle by at most half a unit plus `2^-k` radians, where k is 40 on words of up
    /// to 32 bits and 60 on words of 64 bits. Multiples of 1/8 are exact if they are whole numbers of units. If `self`
    /// is 0 and x is below 0, the exact angle is 1/2.
    fn checked_atan2_turns(self, x: Self) -> Option<Self>
        requires { Self.FRACTION ≤ Self.BITS }
        ensures none { Self.number x ≡ pos 0 → Self.number self ≡ pos 0 → result ≡ None }
        ensures angle { (Self.number x ≡ pos 0 → Self.number self ≢ pos 0)
            → (r : ℤ) × IsAngleOf (turn_room Self.BITS) (Self.number x) (Self.number self) Self.FRACTION r
            × (option_map Self.number result ≡ checked Self.SIGNED Self.BITS (Some r)) };
}

/// The `checked_` calls of sines, cosines and angles of points in radians. If a result does not fit, they return
/// `None`. Operands and results are in units of `2^-F`. Precondition of each call: F is at most the width.
pub trait CheckedRadians: Number {
    /// Returns the sine of an angle in radians, rounded to the nearest, or `None` if it does not fit.
    ///
    /// The result differs from the exact sine by at most half a unit plus `2^-k`, where k is 41 on words of up to 32
    /// bits and 61 on words of 64 bits. The sine of 0 is exact, and none is above 1 or below -1.
    fn checked_sin(self) -> Option<Self>
        requires { Self.FRACTION ≤ Self.BITS }
        ensures { (r : ℤ) × IsRadianSine (sine_room Self.BITS) (Self.number self) Self.FRACTION r
            × (option_map Self.number result ≡ checked Self.SIGNED Self.BITS (Some r)) };

    /// Returns the cosine of an angle in radians, rounded to the nearest, or `None` if it does not fit.
    ///
    /// The result differs from the exact cosine by at most half a unit plus `2^-k`, where k is 41 on words of up to 32
    /// bits and 61 on words of 64 bits. The cosine of 0 is exact, and none is above 1 or below -1.
    fn checked_cos(self) -> Option<Self>
        requires { Self.FRACTION ≤ Self.BITS }
        ensures { (r : ℤ) × IsRadianCosine (sine_room Self.BITS) (Self.number self) Self.FRACTION r
            × (option_map Self.number result ≡ checked Self.SIGNED Self.BITS (Some r)) };

    /// Returns the sine and the cosine of an angle in radians, both rounded to the nearest, or `None` if one of them
    /// does not fit.
    ///
    /// Each result differs from its exact value by at most half a unit plus `2^-k`, where k is 41 on words of up to 32
    /// bits and 61 on words of 64 bits. The results at 0 are exact, and none is above 1 or below -1.
    fn checked_sin_cos(self) -> Option<(Self, Self)>
        requires { Self.FRACTION ≤ Self.BITS }
        ensures { (s c : ℤ) × IsRadianSine (sine_room Self.BITS) (Self.number self) Self.FRACTION s
            × IsRadianCosine (sine_room Self.BITS) (Self.number self) Self.FRACTION c
            × (option_map (λ pair. (Self.number pair.0, Self.number pair.1)) result
            ≡ both (checked Self.SIGNED Self.BITS (Some s)) (checked Self.SIGNED Self.BITS (Some c))) };

    /// Returns the angle of the point `(x, self)` in radians, from -pi to pi, rounded to the nearest, or `None` if both
    /// coordinates are 0 or the result does not fit.
    ///
    /// The result differs from the exact angle by at most half a unit plus `2^-k` radians, where k is 40 on words of up
    /// to 32 bits and 60 on words of 64 bits. The angle 0 is exact. If `self` is 0 and x is below 0, the exact angle is
    /// pi.
    fn checked_atan2(self, x: Self) -> Option<Self>
        requires { Self.FRACTION ≤ Self.BITS }
        ensures none { Self.number x ≡ pos 0 → Self.number self ≡ pos 0 → result ≡ None }
        ensures angle { (Self.number x ≡ pos 0 → Self.number self ≢ pos 0)
            → (r : ℤ) × IsRadianAngle (sine_room Self.BITS) (Self.number x) (Self.number self) Self.FRACTION r
            × (option_map Self.number result ≡ checked Self.SIGNED Self.BITS (Some r)) };
}

impl<T: Word, const F: u32> CheckedTurns for Fixed<T, F> {
    fn checked_sin_turns(self) -> Option<Self> {
        checked_number(sin_turns_of(self.bits, F))
    }

    fn checked_cos_turns(self) -> Option<Self> {
        checked_number(cos_turns_of(self.bits, F))
    }

    fn checked_sin_cos_turns(self) -> Option<(Self, Self)> {
        let (sine, cosine) = sin_cos_turns_of(self.bits, F);
        both_numbers(checked_number(sine), checked_number(cosine))
    }

    fn checked_atan2_turns(self, x: Self) -> Option<Self> {
        if is_origin(self.bits, x.bits) {
            return None;
        }
        checked_number(atan2_turns_of(self.bits, x.bits, F))
    }
}

impl<T: Word, const F: u32> CheckedRadians for Fixed<T, F> {
    fn checked_sin(self) -> Option<Self> {
        checked_number(sin_of(self.bits, F))
    }

    fn checked_cos(self) -> Option<Self> {
        checked_number(cos_of(self.bits, F))
    }

    fn checked_sin_cos(self) -> Option<(Self, Self)> {
        let (sine, cosine) = sin_cos_of(self.bits, F);
        both_numbers(checked_number(sine), checked_number(cosine))
    }

    fn checked_atan2(self, x: Self) -> Option<Self> {
        if is_origin(self.bits, x.bits) {
            return None;
        }
        checked_number(atan2_of(self.bits, x.bits, F))
    }
}
