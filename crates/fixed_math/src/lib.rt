//! Elementary functions as methods of [`Fixed`](fixed_num::Fixed). The name of each call is its policy and its
//! operation.
//!
//! Results are in units of `2^-F`. No call allocates.
#![tactic(auto)]

mod checked;
mod numbers;
mod overflowing;
mod saturating;
mod strict;
mod unwrapped;
mod wrapping;

pub use checked::CheckedMath;
pub use overflowing::OverflowingMath;
pub use saturating::SaturatingMath;
pub use strict::StrictMath;
pub use unwrapped::UnwrappedMath;
pub use wrapping::WrappingMath;
