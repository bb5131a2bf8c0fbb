//! Why a filter has no output.

use thiserror::Error;

/// A partial sum of an output does not fit.
#[derive(Clone, Copy, Debug, PartialEq, Eq, Hash, Error)]
#[error("overflow at tap {tap}")]
pub struct TapOverflow {
    /// The index of the first tap whose partial sum does not fit.
    pub tap: usize,
}

/// A partial sum of an output of a block does not fit.
#[derive(Clone, Copy, Debug, PartialEq, Eq, Hash, Error)]
#[error("overflow at sample {sample}, tap {tap}")]
pub struct BlockOverflow {
    /// The index in the block of the first sample whose output does not fit.
    pub sample: usize,
    /// The index of the first tap whose partial sum does not fit.
    pub tap: usize,
}
