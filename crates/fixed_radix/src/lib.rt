//! Numbers in the bases 2, 8 and 16, with a point: `InBase` prints a number with every option of a formatter.
#![tactic(auto)]

mod bases;
mod digits;
mod display;
mod places;

pub use bases::Base;
pub use display::InBase;
