//! Facts in rows, with one assertion for all of them.

use std::process::Abort;

/// Asserts that each row holds of these operands; the message names the first that does not.
pub fn all_hold(rt: &impl Abort, operands: (i128, i128), rows: &[(&str, bool)]) {
    for (what, holds) in rows {
        assert!(rt; *holds, "{what} of {operands:?}");
    }
}
