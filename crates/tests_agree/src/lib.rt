//! Tests of `fixed_agree`, and of the typed calls and operators below it on the families of cases of the Rust
//! crate: every expected number is computed in 128 bits.
#![tactic(auto)]

#[cfg(test)]
mod exact;
#[cfg(test)]
mod forms;
pub mod machine;
#[cfg(test)]
mod operators;
#[cfg(test)]
mod policies;
#[cfg(test)]
mod products;
#[cfg(test)]
mod remainders;
#[cfg(test)]
mod roots;
#[cfg(test)]
mod same;
