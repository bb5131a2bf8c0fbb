//! Text for the runs: cutting a script into pieces and a piece into tokens, reading and writing decimals, the bytes of
//! an output, and one loop over the pieces of a script.
//!
//! The Rust crate `fixed` does not have these functions. Contracts use the decimals and pieces that
//! [`fixed_word`](fixed_word) defines.
#![tactic(auto)]

mod added;
mod decimal;
mod fault;
pub mod laws;
mod names;
mod numbers;
mod output;
mod pieces;
mod run;
mod tokens;

pub use added::push_all;
pub use decimal::{Decimal, read_decimal, value_in};
pub use fault::{LineFault, RunFault};
pub use names::{WordName, word_of};
pub use numbers::{fitting, read_natural, read_numbered, read_only_number, read_word, read_words};
pub use output::Output;
pub use pieces::{body_of, piece_end};
pub use run::{InWord, Run, open, run_lines};
pub use tokens::{Tokens, cut};
