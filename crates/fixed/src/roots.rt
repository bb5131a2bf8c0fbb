//! The root on words that count their calls.

pub use fixed_root::root;
pub use fixed_word::{Count, Digits, Ledger, Silent, Steps};
