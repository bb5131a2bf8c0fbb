//! Typed tables: values at points and between them, and outside of the table.

use fixed_num::{FixedI8, FixedI16};
use fixed_table::Table;

/// The values 1, 2 and 511/256 at -8, -4 and 0.
const VALUES: [FixedI16<8>; 3] = [
    FixedI16 { bits: 256 },
    FixedI16 { bits: 512 },
    FixedI16 { bits: 511 },
];

/// Points, and the bits of their values: a quarter of the way from 512 to 511 lies 511.75.
const POINTS: [(i8, i16); 8] = [
    (-8, 256),
    (-7, 320),
    (-5, 448),
    (-4, 512),
    (-3, 511),
    (-2, 511),
    (-1, 511),
    (0, 511),
];

#[test]
fn points(rt: HostRuntime) {
    let table = Table {
        first: FixedI8::<0> { bits: -8 },
        step: 2,
        values: &VALUES,
    };
    for (x, bits) in POINTS {
        let x = FixedI8 { bits: x };
        let value = FixedI16::<8> { bits };
        let (found, checked) = (table.at(x), table.checked_at(x));
        assert!(rt; found == value && checked == Some(value), "wanted {bits}");
    }
}

#[test]
fn outside(rt: HostRuntime) {
    let table = Table {
        first: FixedI8::<0> { bits: -8 },
        step: 2,
        values: &VALUES,
    };
    for (x, bits) in [(-128, 256), (-9, 256), (1, 511), (127, 511)] {
        let x = FixedI8 { bits: x };
        let value = FixedI16::<8> { bits };
        let (found, checked) = (table.at(x), table.checked_at(x));
        assert!(rt; found == value && checked.is_none(), "wanted {bits}");
    }
}
