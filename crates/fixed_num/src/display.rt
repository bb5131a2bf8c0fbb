//! Numbers as text.

ghost use Rattle.std.specs.Prelude.{◌≡◌, ◌≤◌, drop};
ghost use Rattle.std.specs.Fmt.{padded_integral, spec_precision};
ghost use Rattle.std.specs.Option.{unwrap_or};
ghost use Rattle.fixed_word.specs.declared.rounding.Rounding.TheVariants.{Even};
ghost use Rattle.fixed_decimal.specs.Text.{shortest, text_of};
ghost use Rattle.fixed_num.specs.Shown.{plain_text, styled_text};

use crate::format::Fixed;
use fixed_decimal::{pad_number, shortest_places, write_decimal};
use fixed_word::{RawWord, Rounding};
use std::{fmt, str};

/// Writes the shortest decimal that is read back as the number. With a precision, writes that many digits after the
/// point, rounded to the nearest, ties to even. Sign, width and fill work as for integers. Fails if F is greater than
/// the width.
impl<T: RawWord, const F: u32> fmt::Display for Fixed<T, F> {
    ghost output = { λ x. plain_text (T.value x.bits) F T.BITS };

    ghost styled_output = { λ x s. styled_text (padded_integral s) (spec_precision s) (T.value x.bits) F T.BITS };

    fn fmt<W: fmt::Write>(&self, f: &mut fmt::Formatter<W>) -> fmt::Result {
        if F > T::BITS {
            return Err(fmt::Error);
        }
        let shown = places_for(self.bits, F, f.precision());
        let places = shown.min(64);
        let mut buffer = [0; 86];
        let start = write_decimal(self.bits, F, places, Rounding::Even, &mut buffer);
        let below_zero = self.bits.is_below_zero();
        let from = start + usize::from(below_zero);
        match str::from_utf8(&buffer[from..]) {
            // Digits past the 64th behind the point are zeros.
            Ok(digits) => pad_number(f, below_zero, "", digits, shown - places),
            Err(_) => Err(fmt::Error),
        }
    }
}

/// Writes the value, as `{}` does.
impl<T: RawWord, const F: u32> fmt::Debug for Fixed<T, F> {
    ghost debug_output = { λ x. plain_text (T.value x.bits) F T.BITS };

    fn fmt<W: fmt::Write>(&self, f: &mut fmt::Formatter<W>) -> fmt::Result {
        fmt::Display::fmt(self, f)
    }
}

/// Text without a formatter. Each call writes the text at the end of the buffer, and returns the index at which it
/// begins. (`fixed` does not have these calls.)
impl<T: RawWord, const F: u32> Fixed<T, F> {
    /// Writes the shortest decimal that is read back as the number, and returns where it begins. Precondition: F is
    /// at most the width.
    pub fn write_decimal(self, buffer: &mut [u8; 86]) -> usize
        requires { F ≤ T.BITS }
        ensures within { result ≤ 86 }
        ensures text { drop result buffer.new ≡ text_of (T.value self.bits) F (shortest (T.value self.bits) F) Even }
    {
        let places = shortest_places(self.bits, F);
        write_decimal(self.bits, F, places, Rounding::Even, buffer)
    }

    /// Writes that many digits after the point, rounded as named, and returns where the text begins. Preconditions: F
    /// is at most the width, and at most 64 digits after the point are requested.
    pub fn write_decimal_places(
        self,
        places: usize,
        rounding: Rounding,
        buffer: &mut [u8; 86],
    ) -> usize
        requires fraction { F ≤ T.BITS }
        requires places { places ≤ 64 }
        ensures within { result ≤ 86 }
        ensures text { drop result buffer.new ≡ text_of (T.value self.bits) F places rounding }
    {
        write_decimal(self.bits, F, places, rounding, buffer)
    }
}

/// Returns how many digits after the point a number has with that precision.
fn places_for<T: RawWord>(bits: T, frac: u32, precision: Option<usize>) -> usize
    requires { frac ≤ T.BITS }
    ensures { result ≡ unwrap_or precision (shortest (T.value bits) frac) }
{
    match precision {
        Some(places) => places,
        None => shortest_places(bits, frac),
    }
}
