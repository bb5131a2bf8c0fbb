//! The reply of a filter to a sample.

ghost use Rattle.std.specs.Prelude.{◌≡◌};
ghost use Rattle.fixed_filter.specs.Replies.{as_result};

use crate::overflow::TapOverflow;

/// The output after a sample, or the first tap whose partial sum does not fit.
#[derive(Clone, Copy, PartialEq, Eq, Hash, Debug)]
pub enum Reply<T> {
    /// The output, with the fraction bits of outputs.
    Value(T),
    /// The index of the first tap whose partial sum does not fit. For a [`Biquad`](crate::Biquad), this is the index of
    /// a coefficient.
    Overflow(usize),
}

impl<T> Reply<T> {
    /// Returns the output, or an error with the index of the tap, so that `?` works.
    pub fn into_result(self) -> Result<T, TapOverflow>
        ensures { result ≡ as_result self }
    {
        match self {
            Reply::Value(output) => Ok(output),
            Reply::Overflow(tap) => Err(TapOverflow { tap }),
        }
    }
}
