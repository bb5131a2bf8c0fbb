//! The `unwrapped_` calls of sines, cosines and angles of points. The Rust crate `fixed` does not have them.

ghost use Rattle.std.specs.Prelude.{◌≤◌, ◌≡◌, ◌≢◌, ℤ, pos};
ghost use Rattle.fixed_word.specs.Format.{InRange};
ghost use Rattle.fixed_turns.specs.Angles.{IsAngleOf, turn_room};
ghost use Rattle.fixed_turns.specs.RadianAngles.{IsRadianAngle};
ghost use Rattle.fixed_turns.specs.Radians.{IsRadianCosine, IsRadianSine};
ghost use Rattle.fixed_turns.specs.Sines.{IsCosine, IsSine, sine_room};

use crate::strict::{StrictRadians, StrictTurns};
use fixed_num::{Fixed, Held, Number};
use fixed_word::{RawWord, Word};

/// The `unwrapped_` calls of sines, cosines and angles of points. Preconditions of each call: its results fit, and F is
/// at most the width. Operands and results are in units of `2^-F`; angles are in turns.
pub trait UnwrappedTurns: Number {
    /// Returns the sine of an angle in turns, rounded to the nearest.
    ///
    /// The result differs from the exact sine by at most half a unit plus `2^-k`, where k is 41 on words of up to 32
    /// bits and 61 on words of 64 bits. Sines of whole quarter turns are exact, and none is above 1 or below -1.
    /// Precondition: every result that these statements allow fits.
    fn unwrapped_sin_turns(self) -> Self
        requires fraction { Self.FRACTION ≤ Self.BITS }
        requires fits { (r : ℤ) → IsSine (sine_room Self.BITS) (Self.number self) Self.FRACTION r
            → InRange Self.SIGNED Self.BITS r }
        ensures { IsSine (sine_room Self.BITS) (Self.number self) Self.FRACTION (Self.number result) };

    /// Returns the cosine of an angle in turns, rounded to the nearest.
    ///
    /// The result differs from the exact cosine by at most half a unit plus `2^-k`, where k is 41 on words of up to 32
    /// bits and 61 on words of 64 bits. Cosines of whole quarter turns are exact, and none is above 1 or below -1.
    /// Precondition: every result that these statements allow fits.
    fn unwrapped_cos_turns(self) -> Self
        requires fraction { Self.FRACTION ≤ Self.BITS }
        requires fits { (r : ℤ) → IsCosine (sine_room Self.BITS) (Self.number self) Self.FRACTION r
            → InRange Self.SIGNED Self.BITS r }
        ensures { IsCosine (sine_room Self.BITS) (Self.number self) Self.FRACTION (Self.number result) };

    /// Returns the sine and the cosine of an angle in turns, both rounded to the nearest.
    ///
    /// Each result differs from its exact value by at most half a unit plus `2^-k`, where k is 41 on words of up to 32
    /// bits and 61 on words of 64 bits. The results at whole quarter turns are exact, and none is above 1 or below -1.
    /// Precondition: every sine and every cosine that these statements allow fits.
    fn unwrapped_sin_cos_turns(self) -> (Self, Self)
        requires fraction { Self.FRACTION ≤ Self.BITS }
        requires sine { (r : ℤ) → IsSine (sine_room Self.BITS) (Self.number self) Self.FRACTION r
            → InRange Self.SIGNED Self.BITS r }
        requires cosine { (r : ℤ) → IsCosine (sine_room Self.BITS) (Self.number self) Self.FRACTION r
            → InRange Self.SIGNED Self.BITS r }
        ensures sine { IsSine (sine_room Self.BITS) (Self.number self) Self.FRACTION (Self.number result.0) }
        ensures cosine { IsCosine (sine_room Self.BITS) (Self.number self) Self.FRACTION (Self.number result.1) };

    /// Returns the angle of the point `(x, self)` in turns, from -1/2 to 1/2, rounded to the nearest. Precondition: the
    /// coordinates are not both 0.
    ///
    /// The result differs from the exact angle by at most half a unit plus `2^-k` radians, where k is 40 on words of up
    /// to 32 bits and 60 on words of 64 bits. Multiples of 1/8 are exact if they are whole numbers of units. If `self`
    /// is 0 and x is below 0, the exact angle is 1/2. Precondition: every result that these statements allow fits.
    fn unwrapped_atan2_turns(self, x: Self) -> Self
        requires fraction { Self.FRACTION ≤ Self.BITS }
        requires some { Self.number x ≡ pos 0 → Self.number self ≢ pos 0 }
        requires fits { (r : ℤ) → IsAngleOf (turn_room Self.BITS) (Self.number x) (Self.number self) Self.FRACTION r
            → InRange Self.SIGNED Self.BITS r }
        ensures { IsAngleOf (turn_room Self.BITS) (Self.number x) (Self.number self) Self.FRACTION (Self.number result) };
}

/// The `unwrapped_` calls of sines, cosines and angles of points in radians. Preconditions of each call: its results
/// fit, and F is at most the width. Operands and results are in units of `2^-F`.
pub trait UnwrappedRadians: Number {
    /// Returns the sine of an angle in radians, rounded to the nearest.
    ///
    /// The result differs from the exact sine by at most half a unit plus `2^-k`, where k is 41 on words of up to 32
    /// bits and 61 on words of 64 bits. The sine of 0 is exact, and none is above 1 or below -1. Precondition: every
    /// result that these statements allow fits.
    fn unwrapped_sin(self) -> Self
        requires fraction { Self.FRACTION ≤ Self.BITS }
        requires fits { (r : ℤ) → IsRadianSine (sine_room Self.BITS) (Self.number self) Self.FRACTION r
            → InRange Self.SIGNED Self.BITS r }
        ensures { IsRadianSine (sine_room Self.BITS) (Self.number self) Self.FRACTION (Self.number result) };

    /// Returns the cosine of an angle in radians, rounded to the nearest.
    ///
    /// The result differs from the exact cosine by at most half a unit plus `2^-k`, where k is 41 on words of up to 32
    /// bits and 61 on words of 64 bits. The cosine of 0 is exact, and none is above 1 or below -1. Precondition: every
    /// result that these statements allow fits.
    fn unwrapped_cos(self) -> Self
        requires fraction { Self.FRACTION ≤ Self.BITS }
        requires fits { (r : ℤ) → IsRadianCosine (sine_room Self.BITS) (Self.number self) Self.FRACTION r
            → InRange Self.SIGNED Self.BITS r }
        ensures { IsRadianCosine (sine_room Self.BITS) (Self.number self) Self.FRACTION (Self.number result) };

    /// Returns the sine and the cosine of an angle in radians, both rounded to the nearest.
    ///
    /// Each result differs from its exact value by at most half a unit plus `2^-k`, where k is 41 on words of up to 32
    /// bits and 61 on words of 64 bits. The results at 0 are exact, and none is above 1 or below -1. Precondition:
    /// every sine and every cosine that these statements allow fits.
    fn unwrapped_sin_cos(self) -> (Self, Self)
        requires fraction { Self.FRACTION ≤ Self.BITS }
        requires sine { (r : ℤ) → IsRadianSine (sine_room Self.BITS) (Self.number self) Self.FRACTION r
            → InRange Self.SIGNED Self.BITS r }
        requires cosine { (r : ℤ) → IsRadianCosine (sine_room Self.BITS) (Self.number self) Self.FRACTION r
            → InRange Self.SIGNED Self.BITS r }
        ensures sine { IsRadianSine (sine_room Self.BITS) (Self.number self) Self.FRACTION (Self.number result.0) }
        ensures cosine { IsRadianCosine (sine_room Self.BITS) (Self.number self) Self.FRACTION (Self.number result.1) };

    /// Returns the angle of the point `(x, self)` in radians, from -pi to pi, rounded to the nearest. Precondition: the
    /// coordinates are not both 0.
    ///
    /// The result differs from the exact angle by at most half a unit plus `2^-k` radians, where k is 40 on words of up
    /// to 32 bits and 60 on words of 64 bits. The angle 0 is exact. If `self` is 0 and x is below 0, the exact angle is
    /// pi. Precondition: every result that these statements allow fits.
    fn unwrapped_atan2(self, x: Self) -> Self
        requires fraction { Self.FRACTION ≤ Self.BITS }
        requires some { Self.number x ≡ pos 0 → Self.number self ≢ pos 0 }
        requires fits { (r : ℤ) → IsRadianAngle (sine_room Self.BITS) (Self.number x) (Self.number self) Self.FRACTION r
            → InRange Self.SIGNED Self.BITS r }
        ensures { IsRadianAngle (sine_room Self.BITS) (Self.number x) (Self.number self) Self.FRACTION (Self.number result) };
}

impl<T: Word, const F: u32> UnwrappedTurns for Fixed<T, F> {
    fn unwrapped_sin_turns(self) -> Self {
        self.strict_sin_turns()
    }

    fn unwrapped_cos_turns(self) -> Self {
        self.strict_cos_turns()
    }

    fn unwrapped_sin_cos_turns(self) -> (Self, Self) {
        self.strict_sin_cos_turns()
    }

    fn unwrapped_atan2_turns(self, x: Self) -> Self {
        self.strict_atan2_turns(x)
    }
}

impl<T: Word, const F: u32> UnwrappedRadians for Fixed<T, F> {
    fn unwrapped_sin(self) -> Self {
        self.strict_sin()
    }

    fn unwrapped_cos(self) -> Self {
        self.strict_cos()
    }

    fn unwrapped_sin_cos(self) -> (Self, Self) {
        self.strict_sin_cos()
    }

    fn unwrapped_atan2(self, x: Self) -> Self {
        self.strict_atan2(x)
    }
}
