//! Why a polynomial has no value.

use thiserror::Error;

/// The value of a step of Horner's rule does not fit.
#[derive(Clone, Copy, Debug, PartialEq, Eq, Hash, Error)]
#[error("overflow at coefficient {step}")]
pub struct StepOverflow {
    /// The first step whose value does not fit. A step is named by the index of the coefficient that it adds.
    pub step: usize,
}
