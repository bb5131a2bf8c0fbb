//! Polynomials by Horner's rule, with a proved bound on their rounding.
//!
//! The lowest coefficient is the first: `c_0 .. c_k`. Each step multiplies by the point, rounds the product down, and
//! adds the next lower coefficient. If the value of a step does not fit, the reply names the step.
//! [`laws::bound_law`](laws::bound_law) bounds how far a value lies below the exact one. Only [`poly_run`], which runs
//! a script, allocates.
//!
//! The Rust crate `fixed` does not have these items.
#![tactic(auto)]

mod evaluation;
mod fault;
mod header;
pub mod laws;
mod overflow;
mod poly_script;
mod reply;
mod typed;

pub use evaluation::horner_of;
pub use fault::PolyFault;
pub use overflow::StepOverflow;
pub use poly_script::poly_run;
pub use reply::PolyReply;
pub use typed::horner;
