//! Logarithms on words that count their calls.

pub use fixed_logs::{Base, frac_log10_part, frac_part, int_log10_part, int_part};
pub use fixed_word::{Count, Digits, Ledger, Silent, Steps};
