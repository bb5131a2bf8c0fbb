//! Banks of filters: scripts with known answers, and the calls of a bank.

use fixed_filter::{Bank, Biquad, FilterFault, Reply, Section, Shape, filter_run};
use fixed_num::Fixed;
use std::test::Fail;

/// Scripts and what they print.
const WORKED: [(&str, &str); 4] = [
    (
        "filter i16 8 8 8\ntaps 128 128\nc0 256\nc0 512\n",
        "128\n384\n",
    ),
    (
        "filter i8 0 0 0\ntaps 100 1\ntaps 1\nc0 1\nc0 2\nc1 5\nc0 0\n",
        "100\noverflow 0 1 0\n5\n2\n",
    ),
    ("filter i8 0 0 0\n", ""),
    ("filter i8 8 8 8\ntaps 127\ntaps -128\n", ""),
];

/// Each word once.
const WORDS: [(&str, &str); 8] = [
    (
        "filter i8 4 7 4\ntaps 64 -128 127\nc0 16\nc0 -128\nc0 127\n",
        "8\n-80\noverflow 0 2 1\n",
    ),
    (
        "filter i16 15 15 15\ntaps -32768 32767\nc0 -32767\nc0 1\nc0 -32768\n",
        "32767\n-32768\noverflow 0 2 0\n",
    ),
    (
        "filter i32 16 30 16\ntaps 1073741824 -1073741824\nc0 65536\nc0 -2147483648\nc0 2147483647\n",
        "65536\noverflow 0 1 1\noverflow 0 2 1\n",
    ),
    (
        "filter i64 63 63 63\ntaps -9223372036854775808 9223372036854775807\nc0 9223372036854775807\nc0 -1\n",
        "-9223372036854775807\n9223372036854775807\n",
    ),
    (
        "filter u8 8 8 8\ntaps 255 255\nc0 255\nc0 1\nc0 2\n",
        "254\n254\n1\n",
    ),
    (
        "filter u16 0 16 16\ntaps 65535 65535\nc0 65535\nc0 65535\n",
        "0\n0\n",
    ),
    (
        "filter u32 32 0 0\ntaps 1\nc0 0\nc0 1\n",
        "0\noverflow 0 1 0\n",
    ),
    (
        "filter u64 64 64 64\ntaps 18446744073709551615 1\nc0 18446744073709551615\nc0 18446744073709551615\n",
        "18446744073709551614\n18446744073709551614\n",
    ),
];

/// Overflow in the middle of a sum that comes back to the word, which is named and not answered; at the first tap,
/// at the last and between them; and products that move up, where the output has more places than they.
const SUMS: [(&str, &str); 4] = [
    (
        "filter i8 0 0 0\ntaps 1 1 -1\nc0 100\nc0 100\nc0 100\nc0 -1\n",
        "100\noverflow 0 1 1\noverflow 0 2 1\n-1\n",
    ),
    (
        "filter i8 0 0 0\ntaps 2 1 1\nc0 64\nc0 0\nc0 63\nc0 63\nc0 -64\n",
        "overflow 0 0 0\n64\noverflow 0 2 2\noverflow 0 3 1\n-2\n",
    ),
    (
        "filter i8 2 0 0\ntaps 3 1\nc0 5\nc0 2\nc0 11\nc0 -8\n",
        "60\n44\noverflow 0 2 0\n-52\n",
    ),
    (
        "filter u8 8 1 2\ntaps 3 1\nc0 2\nc0 1\nc0 3\n",
        "192\n160\noverflow 0 2 0\n",
    ),
];

/// Two channels interleaved, and each of them alone.
const CHANNELS: [(&str, &str); 3] = [
    (
        "filter i8 0 0 0\ntaps 1 2\ntaps -1 -2\nc0 10\nc1 10\nc1 20\nc0 30\nc0 -1\nc1 -2\n",
        "10\n-10\n-40\n50\n59\n-38\n",
    ),
    (
        "filter i8 0 0 0\ntaps 1 2\nc0 10\nc0 30\nc0 -1\n",
        "10\n50\n59\n",
    ),
    (
        "filter i8 0 0 0\ntaps -1 -2\nc0 10\nc0 20\nc0 -2\n",
        "-10\n-40\n-38\n",
    ),
];

/// As far below the exact sum as an output of so many taps lies: every product of the last line has all its lost bits
/// set. The sums are 765 of three taps, 255 over a product of -1, 510 of two taps, and 131070.
const EDGES: [(&str, &str); 4] = [
    (
        "filter i8 0 4 4\ntaps 15 15 15\nc0 17\nc0 17\nc0 17\n",
        "0\n0\n0\n",
    ),
    ("filter i8 0 4 4\ntaps -1\nc0 1\n", "-1\n"),
    ("filter u8 8 8 8\ntaps 85 51\nc0 5\nc0 3\n", "1\n0\n"),
    ("filter i16 0 8 8\ntaps 257 257\nc0 255\nc0 255\n", "0\n0\n"),
];

/// Scripts without an output, and their faults.
const FAULTS: [(&str, FilterFault); 24] = [
    ("", FilterFault::Syntax(1)),
    ("filter i8 0 0 0", FilterFault::Syntax(1)),
    ("filter i8 0 0\n", FilterFault::Syntax(1)),
    ("filter i8 0 0 0 0\n", FilterFault::Syntax(1)),
    ("filter i9 0 0 0\n", FilterFault::Syntax(1)),
    ("poly i8 0 0 0\n", FilterFault::Syntax(1)),
    ("filter i8 9 0 -0\n", FilterFault::Syntax(1)),
    ("filter i8 9 0 0\n", FilterFault::OutOfRange(1)),
    ("filter i8 0 9 0\n", FilterFault::OutOfRange(1)),
    ("filter u16 0 0 17\n", FilterFault::OutOfRange(1)),
    ("filter i8 0 0 0\nc0 1\n", FilterFault::OutOfRange(2)),
    ("filter i8 0 0 0\ntaps 128\n", FilterFault::OutOfRange(2)),
    ("filter i8 0 0 0\ntaps\n", FilterFault::Syntax(2)),
    ("filter i8 0 0 0\ntaps 1", FilterFault::Syntax(2)),
    ("filter i8 0 0 0\ntaps 128 x\n", FilterFault::Syntax(2)),
    ("filter i8 0 0 0\nc-0 1\n", FilterFault::Syntax(2)),
    ("filter i8 0 0 0\nc9 x\n", FilterFault::Syntax(2)),
    ("filter i8 0 0 0\nc 1\n", FilterFault::Syntax(2)),
    ("filter i8 0 0 0\n\n", FilterFault::Syntax(2)),
    (
        "filter i8 0 0 0\ntaps 1\nc0 128\n",
        FilterFault::OutOfRange(3),
    ),
    (
        "filter u8 0 0 0\ntaps 1\nc0 -1\n",
        FilterFault::OutOfRange(3),
    ),
    (
        "filter i8 0 0 0\ntaps 1\nc18446744073709551616 1\n",
        FilterFault::OutOfRange(3),
    ),
    (
        "filter i8 0 0 0\ntaps 1\nc0 1\ntaps 2\n",
        FilterFault::Syntax(4),
    ),
    (
        "filter i8 0 0 0\ntaps 1\nc0 1\nc1 1\ntaps\n",
        FilterFault::OutOfRange(4),
    ),
];

#[test]
fn scripts(rt: HostRuntime) {
    let alloc = rt.alloc();
    for rows in [WORKED.as_slice(), &WORDS, &SUMS, &CHANNELS, &EDGES] {
        for (script, text) in rows {
            match filter_run(alloc, script.as_bytes()) {
                Ok(output) => assert!(rt; output.as_bytes() == text.as_bytes(), "{script}"),
                Err(fault) => assert!(rt; false, "{fault:?} at {script}"),
            }
        }
    }
}

#[test]
fn faults(rt: HostRuntime) {
    let alloc = rt.alloc();
    for (script, fault) in &FAULTS {
        match filter_run(alloc, script.as_bytes()) {
            Ok(_) => assert!(rt; false, "{script}"),
            Err(found) => assert!(rt; &found == fault, "{script}"),
        }
    }
}

/// The first channel is that of the first script. The second overflows, and has its sample all the same.
#[test]
fn on_words(rt: HostRuntime) -> Result<(), Fail> {
    let shape = Shape {
        out_frac: 8,
        coef_frac: 8,
        sample_frac: 8,
    };
    let mut bank = Bank::<i16>::new(rt.alloc(), shape);
    bank.add_channel(&[128, 128])?;
    bank.add_channel(&[32767, 256])?;
    assert!(rt; bank.push(0, 256) == Reply::Value(128));
    assert!(rt; bank.push(1, 257) == Reply::Overflow(0));
    assert!(rt; bank.push(0, 512) == Reply::Value(384));
    assert!(rt; bank.push(1, 0) == Reply::Value(257));
    assert!(rt; bank.channels() == 2);
    assert!(rt; bank.taps(1) == 2);
    assert!(rt; bank.tap(1, 0) == 32767);
    assert!(rt; bank.past(0, 0) == 512 && bank.past(0, 1) == 256);
    Ok(())
}

#[test]
fn a_second_order_section(rt: HostRuntime) {
    let half = Fixed::<i16, 14> { bits: 8192 };
    let zero = Fixed::<i16, 14> { bits: 0 };
    let one = Fixed::<i16, 8> { bits: 256 };
    let mut filter = Biquad::new(Section {
        b0: half,
        b1: zero,
        b2: zero,
        a1: half,
        a2: zero,
    });
    let found = [filter.push(one), filter.push(one), filter.push(one)];
    let wanted = [
        Reply::Value(Fixed { bits: 128 }),
        Reply::Value(Fixed { bits: 192 }),
        Reply::Value(Fixed { bits: 224 }),
    ];
    assert!(rt; found == wanted);
}
