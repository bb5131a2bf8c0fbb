//! Polynomials: scripts with known answers, and the calls on bits and on typed numbers. A point is from 0 to 1
//! where it is from 0 to `2^f`.

use fixed_num::{FixedI8, FixedI16, FixedU8};
use fixed_poly::{PolyFault, PolyReply, horner, horner_of, poly_run};

/// Scripts and what they print.
const WORKED: [(&str, &str); 6] = [
    ("poly i16 8\ncoefs 256 128 64\nat 128\n", "336\n"),
    ("poly i8 4\ncoefs 0 1 1\nat 8\n", "0\n"),
    (
        "poly i8 4\ncoefs 0 100 100\nat 16\nat 0\n",
        "overflow 1\n0\n",
    ),
    ("poly u8 8\ncoefs 255\nat 255\n", "255\n"),
    ("poly i8 4\n", ""),
    (
        "poly i8 4\ncoefs -5\nat 1\nat -128\ncoefs 7\nat 127\n",
        "-5\n-5\n7\n",
    ),
];

/// Each word once.
const WORDS: [(&str, &str); 8] = [
    (
        "poly i8 4\ncoefs -5 40 -16\nat 12\nat -16\nat 24\n",
        "16\n-61\n19\n",
    ),
    (
        "poly i16 15\ncoefs 100 -32768 32767\nat 16384\nat 32767\n",
        "-8093\n98\n",
    ),
    (
        "poly i32 30\ncoefs 0 1073741824 -178956971\nat 1073741824\nat 536870912\n",
        "894784853\n492131669\n",
    ),
    (
        "poly i64 63\ncoefs -9223372036854775808 9223372036854775807\nat 9223372036854775807\n",
        "-2\n",
    ),
    (
        "poly u8 0\ncoefs 1 2 3\nat 8\nat 9\nat 255\n",
        "209\noverflow 0\noverflow 1\n",
    ),
    (
        "poly u16 16\ncoefs 65535 1\nat 65535\nat 0\n",
        "65535\n65535\n",
    ),
    (
        "poly u32 31\ncoefs 5 2147483648 4294967295\nat 1\nat 2147483648\n",
        "6\noverflow 1\n",
    ),
    (
        "poly u64 64\ncoefs 18446744073709551614 1 18446744073709551615\nat 18446744073709551615\nat 1\n",
        "overflow 0\n18446744073709551614\n",
    ),
];

/// Overflow at the first step, the one from the greatest coefficient, and at the last; and points below 0 and
/// above 1, of which no bound is claimed.
const STEPS: [(&str, &str); 8] = [
    ("poly i8 4\ncoefs 0 0 100 127\nat 127\n", "overflow 2\n"),
    ("poly i8 4\ncoefs 127 0 127\nat 127\n", "overflow 1\n"),
    ("poly i8 4\ncoefs 127 1 0 0\nat 16\n", "overflow 0\n"),
    ("poly i8 8\ncoefs 3 -100\nat -128\nat 127\n", "53\n-47\n"),
    ("poly i8 4\ncoefs 100 -100 -100\nat -16\n", "100\n"),
    ("poly i8 0\ncoefs 1 2 3\nat -4\n", "41\n"),
    ("poly i8 4\ncoefs -128 8 100\nat 17\nat -17\n", "-7\n-23\n"),
    (
        "poly u8 4\ncoefs 1 2 3\nat 200\nat 16\nat 17\n",
        "overflow 0\n6\n6\n",
    ),
];

/// As far below the exact value as a value of that degree lies. With E and the bound in the units of E: 15 of 15,
/// 465 of 480, 10815 of 11520, 255 of 255, 130305 of 130560. The bound counts with x at `2^f`, where no product is
/// rounded; one below it each step can lose `2^f - 1`, and no more.
const EDGES: [(&str, &str); 5] = [
    ("poly i8 4\ncoefs 0 1\nat 15\n", "0\n"),
    ("poly i8 4\ncoefs 0 1 1\nat 15\n", "0\n"),
    ("poly i8 4\ncoefs 0 1 1 1\nat 15\n", "0\n"),
    ("poly u8 8\ncoefs 0 1\nat 255\n", "0\n"),
    ("poly i16 8\ncoefs 0 1 1\nat 255\n", "0\n"),
];

/// Scripts without an output, and their faults.
const FAULTS: [(&str, PolyFault); 18] = [
    ("", PolyFault::Syntax(1)),
    ("poly i8 4", PolyFault::Syntax(1)),
    ("poly i8 -1\n", PolyFault::Syntax(1)),
    ("poly i8 9 \n", PolyFault::Syntax(1)),
    ("poly i9 4\n", PolyFault::Syntax(1)),
    ("filter i8 4\n", PolyFault::Syntax(1)),
    ("poly i8 9\n", PolyFault::OutOfRange(1)),
    ("poly i8 18446744073709551620\n", PolyFault::OutOfRange(1)),
    ("poly i8 4\nat 1\n", PolyFault::Syntax(2)),
    ("poly i8 4\nat 128\n", PolyFault::Syntax(2)),
    ("poly i8 4\ncoefs\n", PolyFault::Syntax(2)),
    ("poly i8 4\ncoefs 128\n", PolyFault::OutOfRange(2)),
    ("poly i8 4\ncoefs 128 x\n", PolyFault::Syntax(2)),
    ("poly i8 4\ncoefs 1\nat 128\n", PolyFault::OutOfRange(3)),
    ("poly i8 4\ncoefs 1\nat 1 1\n", PolyFault::Syntax(3)),
    ("poly i8 4\ncoefs 1\nof 1\n", PolyFault::Syntax(3)),
    ("poly i8 4\ncoefs 1\nat 1", PolyFault::Syntax(3)),
    (
        "poly u8 4\ncoefs 1\nat 1\ncoefs -1\nat\n",
        PolyFault::OutOfRange(4),
    ),
];

#[test]
fn scripts(rt: HostRuntime) {
    let alloc = rt.alloc();
    for rows in [WORKED.as_slice(), &WORDS, &STEPS, &EDGES] {
        for (script, text) in rows {
            match poly_run(alloc, script.as_bytes()) {
                Ok(output) => assert!(rt; output.as_bytes() == text.as_bytes(), "{script}"),
                Err(fault) => assert!(rt; false, "{fault:?} at {script}"),
            }
        }
    }
}

#[test]
fn faults(rt: HostRuntime) {
    let alloc = rt.alloc();
    for (script, fault) in &FAULTS {
        match poly_run(alloc, script.as_bytes()) {
            Ok(_) => assert!(rt; false, "{script}"),
            Err(found) => assert!(rt; &found == fault, "{script}"),
        }
    }
}

#[test]
fn on_bits(rt: HostRuntime) {
    assert!(rt; horner_of(&[256i16, 128, 64], 128, 8) == PolyReply::Value(336));
    assert!(rt; horner_of(&[0i8, 1, 1], 8, 4) == PolyReply::Value(0));
    assert!(rt; horner_of(&[0i8, 100, 100], 16, 4) == PolyReply::Overflow(1));
    assert!(rt; horner_of(&[0i8, 100, 100], 0, 4) == PolyReply::Value(0));
    assert!(rt; horner_of(&[255u8], 255, 8) == PolyReply::Value(255));
}

#[test]
fn on_numbers(rt: HostRuntime) {
    let bits = |bits| FixedI8::<4> { bits };
    let coefs = [bits(0), bits(100), bits(100)];
    assert!(rt; horner(&coefs, bits(16)) == PolyReply::Overflow(1));
    assert!(rt; horner(&coefs, bits(0)) == PolyReply::Value(bits(0)));
    let wide = |bits| FixedI16::<8> { bits };
    assert!(rt;
        horner(&[wide(256), wide(128), wide(64)], wide(128)) == PolyReply::Value(wide(336))
    );
    let one = FixedU8::<8> { bits: 255 };
    assert!(rt; horner(&[one], one) == PolyReply::Value(one));
}
