//! Tests of `fixed_text`, `fixed_script` and `fixed_calc`: text read and written, scripts from bytes to bytes,
//! and devices that fail.
#![tactic(auto)]

#[cfg(test)]
mod calls;
#[cfg(test)]
mod demo;
pub mod devices;
#[cfg(test)]
mod faults;
#[cfg(test)]
mod hostile;
#[cfg(test)]
mod lines;
#[cfg(test)]
mod pairs;
#[cfg(test)]
mod programs;
#[cfg(test)]
mod quick;
#[cfg(test)]
mod refused;
#[cfg(test)]
mod same;
#[cfg(test)]
mod spelled;
#[cfg(test)]
mod text;
#[cfg(test)]
mod worked;
