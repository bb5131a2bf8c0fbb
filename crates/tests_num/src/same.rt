//! Facts in rows, with one assertion for all of them.

use std::process::Abort;

/// Asserts that in each row the value found is the one wanted; the message names the row.
pub fn all_same(rt: &impl Abort, rows: &[(&str, i64, i64)]) {
    for (what, found, wanted) in rows {
        assert!(rt; *found == *wanted, "{what}: {found}, not {wanted}");
    }
}

/// Asserts that each row holds; the message names the first that does not.
pub fn all_hold(rt: &impl Abort, rows: &[(&str, bool)]) {
    for (what, holds) in rows {
        assert!(rt; *holds, "{what}");
    }
}
