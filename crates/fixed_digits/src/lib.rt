//! Reading and writing the digits of natural numbers, without allocation.
//!
//! `decimal_before` and `decimal_into` write both the calculator's whole numbers and the decimals of fixed-point
//! numbers. A number that is read is capped: `2^64` stands for each number of `2^64` or more, which no word has as its
//! value. Contracts use the text of a natural number that [`fixed_word`](fixed_word) defines.
#![tactic(auto)]

mod numerals;
mod written;

pub use numerals::{is_decimal, natural_of, sign_of, value_of};
pub use written::{decimal_before, decimal_into};
