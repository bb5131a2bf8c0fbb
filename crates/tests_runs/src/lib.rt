//! Tests of the runs over text: scripts with known answers.
#![tactic(auto)]

#[cfg(test)]
mod enclosure;
#[cfg(test)]
mod filter;
#[cfg(test)]
mod fir;
#[cfg(test)]
mod interval;
#[cfg(test)]
mod poly;
#[cfg(test)]
mod sine;
#[cfg(test)]
mod table;
pub mod whole;
