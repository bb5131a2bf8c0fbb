//! The guide's sine, at parts of a quarter turn.

use fixed_guide::sine::{Q29, sine};

/// Bits of the part, and those of the polynomial by Horner's rule, computed in whole numbers.
#[test]
fn parts_of_a_quarter_turn(rt: HostRuntime) {
    for (part, want) in [
        (0, 0),
        (12_345_678, 19_388_274),
        (178_956_971, 268_435_495),
        (268_435_456, 379_625_376),
        (536_870_912, 536_870_561),
    ] {
        assert!(rt; sine(Q29 { bits: part }).bits == want, "at {part}");
    }
}
