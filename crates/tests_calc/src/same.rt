//! Facts in rows, and what calls leave, with one assertion for all of them.

use fixed_calc::Status;
use std::process::Abort;

/// What a call of the program leaves: its status, and the bytes written and told.
pub type Left<'a> = (Status, &'a [u8], &'a [u8]);

/// Asserts that a call leaves what is wanted; the message names the call.
pub fn left(rt: &impl Abort, what: &str, found: Left, wanted: Left) {
    let (status, written, told) = found;
    let (wanted_status, wanted_written, wanted_told) = wanted;
    let same = status == wanted_status && written == wanted_written && told == wanted_told;
    assert!(rt;
        same,
        "{what}: {status:?}, written {written:?}, told {told:?}"
    );
}

/// Asserts that each row holds; the message names the first that does not.
pub fn all_hold(rt: &impl Abort, rows: &[(&str, bool)]) {
    for (what, holds) in rows {
        assert!(rt; *holds, "{what}");
    }
}
