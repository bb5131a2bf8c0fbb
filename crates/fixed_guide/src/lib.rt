//! The example programs of the docs. The contract of each is the property that it was written for.
//!
//! The Rust crate `fixed` does not have these programs.
#![tactic(auto)]

pub mod arriving;
pub mod controller;
pub mod desk;
pub mod filter;
pub mod generic;
pub mod invoice;
pub mod sine;
pub mod stock;
pub mod transfer;
