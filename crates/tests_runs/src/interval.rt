//! Intervals: scripts with known answers, and the ends of every pair of some `i8` intervals and of the roots of
//! neighbours, against products in a wider type.

ghost use Rattle.std.specs.Prelude.{◌≤◌};

use fixed_interval::{
    Interval, IntervalFault, add_in, div_in, interval_run, mul_in, sqrt_in, sub_in,
};
use std::alloc::{AllocError, Global};
use std::process::Abort;

/// Scripts and what they print.
const WORKED: [(&str, &str); 5] = [
    (
        "interval i8 4 2\ni0 set -24 40\ni1 set 3 8\ni0 mul i0 i1\n",
        "-24 40\n3 8\n-12 20\n",
    ),
    (
        "interval i8 4 2\ni0 set 1 1\ni1 set 3 3\ni0 div i0 i1\n",
        "1 1\n3 3\n5 6\n",
    ),
    (
        "interval i8 4 2\ni1 set -1 1\ni0 div i0 i1\ni0 mul i1 i1\n",
        "-1 1\nnone\n-1 1\n",
    ),
    ("interval u8 4 1\ni0 set 2 32\ni0 sqrt i0\n", "2 32\n5 23\n"),
    (
        "interval u8 8 1\ni0 set 255 255\ni0 sqrt i0\n",
        "255 255\nnone\n",
    ),
];

/// Each word once.
const WORDS: [(&str, &str); 8] = [
    (
        "interval i8 7 3\ni0 set -128 127\ni1 set -128 -3\ni2 mul i0 i1\ni2 div i0 i1\ni2 mul i1 i0\ni1 sub i1 i1\ni1 mul i1 i0\n",
        "-128 127\n-128 -3\nnone\nnone\nnone\n-125 125\n-125 125\n",
    ),
    (
        "interval i16 8 3\ni0 set -300 513\ni1 set 77 1024\ni2 add i0 i1\ni2 sub i2 i0\ni2 mul i0 i1\ni2 div i2 i1\ni1 sqrt i1\ni2 sqrt i2\n",
        "-300 513\n77 1024\n-223 1537\n-736 1837\n-1200 2052\n-3990 6823\n140 512\nnone\n",
    ),
    (
        "interval i32 16 2\ni0 set 65537 196609\ni1 set -131073 -65535\ni0 mul i0 i1\ni0 div i0 i1\ni0 sqrt i0\ni1 sub i1 i0\n",
        "65537 196609\n-131073 -65535\n-393222 -65535\n32767 393229\n46340 160533\n-291606 -111875\n",
    ),
    (
        "interval i64 63 2\ni0 set -9223372036854775808 9223372036854775807\ni1 set 9223372036854775807 9223372036854775807\ni0 mul i0 i1\ni0 div i0 i1\ni0 add i1 i1\ni1 sqrt i1\n",
        "-9223372036854775808 9223372036854775807\n9223372036854775807 9223372036854775807\n-9223372036854775807 9223372036854775807\nnone\nnone\nnone\n",
    ),
    (
        "interval u8 3 2\ni0 set 3 200\ni1 set 5 7\ni1 mul i1 i1\ni0 div i0 i1\ni0 sqrt i0\ni0 sub i0 i1\n",
        "3 200\n5 7\n3 7\nnone\n4 40\nnone\n",
    ),
    (
        "interval u16 16 2\ni0 set 1 65535\ni1 set 32768 65535\ni0 mul i0 i1\ni0 div i0 i1\ni1 div i1 i1\ni1 sqrt i1\n",
        "1 65535\n32768 65535\n0 65535\nnone\nnone\nnone\n",
    ),
    (
        "interval u32 0 2\ni0 set 7 4294967295\ni1 set 3 4\ni0 div i0 i1\ni0 sqrt i0\ni0 mul i0 i0\n",
        "7 4294967295\n3 4\n1 1431655765\n1 37838\n1 1431714244\n",
    ),
    (
        "interval u64 64 2\ni0 set 1 18446744073709551614\ni1 set 18446744073709551615 18446744073709551615\ni0 div i0 i1\ni0 mul i0 i0\ni0 sqrt i0\ni1 sqrt i1\n",
        "1 18446744073709551614\n18446744073709551615 18446744073709551615\n1 18446744073709551615\n0 18446744073709551615\nnone\nnone\n",
    ),
];

/// Registers and destinations that are one, ends at 0, and the most registers.
const MORE: [(&str, &str); 7] = [
    ("interval i8 0 1\n", ""),
    (
        "interval i16 0 2\ni0 set -3 4\ni1 sub i1 i0\ni1 add i1 i1\n",
        "-3 4\n-4 3\n-8 6\n",
    ),
    (
        "interval i8 4 3\ni0 set 16 16\ni1 set -2 5\ni1 mul i1 i0\ni0 sub i0 i1\ni0 sub i0 i0\n",
        "16 16\n-2 5\n-2 5\n11 18\n-7 7\n",
    ),
    (
        "interval i8 4 2\ni0 set 0 5\ni1 set 0 3\ni0 div i0 i1\ni1 set -3 0\ni0 div i0 i1\ni1 set -3 -1\ni0 div i0 i1\n",
        "0 5\n0 3\nnone\n-3 0\nnone\n-3 -1\n-80 0\n",
    ),
    (
        "interval i8 4 2\ni0 set -1 9\ni1 sqrt i0\ni0 set 0 9\ni1 sqrt i0\ni0 set 127 127\ni0 sqrt i0\n",
        "-1 9\nnone\n0 9\n0 12\n127 127\n45 46\n",
    ),
    (
        "interval i8 0 2\ni0 set -128 -128\ni1 set -1 -1\ni0 div i0 i1\ni0 mul i0 i1\ni0 sub i1 i0\ni0 add i0 i1\n",
        "-128 -128\n-1 -1\nnone\nnone\n127 127\n126 126\n",
    ),
    (
        "interval i8 0 1000000\ni999999 set 1 2\ni0 add i999999 i999999\n",
        "1 2\n2 4\n",
    ),
];

/// Scripts without an output, and their faults.
const FAULTS: [(&str, IntervalFault); 24] = [
    ("", IntervalFault::Syntax(1)),
    ("interval i8 4 1", IntervalFault::Syntax(1)),
    ("interval i8 4\n", IntervalFault::Syntax(1)),
    ("interval i8 9 -1\n", IntervalFault::Syntax(1)),
    ("interval i8 4 1 \n", IntervalFault::Syntax(1)),
    ("interval f8 4 1\n", IntervalFault::Syntax(1)),
    ("interval i8 4 0\n", IntervalFault::OutOfRange(1)),
    ("interval i8 4 1000001\n", IntervalFault::OutOfRange(1)),
    ("interval i8 9 1\n", IntervalFault::OutOfRange(1)),
    (
        "interval i8 4 18446744073709551617\n",
        IntervalFault::OutOfRange(1),
    ),
    (
        "interval i8 4 1\ni0 set 2 1\n",
        IntervalFault::OutOfRange(2),
    ),
    (
        "interval i8 4 1\ni1 sqrt i1\n",
        IntervalFault::OutOfRange(2),
    ),
    (
        "interval i8 4 1\ni0 add i0 i1\n",
        IntervalFault::OutOfRange(2),
    ),
    (
        "interval i8 4 1\ni0 set -129 0\n",
        IntervalFault::OutOfRange(2),
    ),
    (
        "interval u8 4 1\ni0 set 0 256\n",
        IntervalFault::OutOfRange(2),
    ),
    (
        "interval i8 4 1\ni18446744073709551616 sqrt i0\n",
        IntervalFault::OutOfRange(2),
    ),
    ("interval i8 4 1\ni0 sqrt i0 i0\n", IntervalFault::Syntax(2)),
    ("interval i8 4 1\ni1 set 128 x\n", IntervalFault::Syntax(2)),
    ("interval i8 4 1\ni-0 sqrt i0\n", IntervalFault::Syntax(2)),
    ("interval i8 4 1\ni0 mul i0\n", IntervalFault::Syntax(2)),
    ("interval i8 4 1\ni0 neg i0\n", IntervalFault::Syntax(2)),
    ("interval i8 4 1\ni0 sqrt i0", IntervalFault::Syntax(2)),
    (
        "interval i8 4 1\ni0 set 1 1\n\ni0 set 2 1\n",
        IntervalFault::Syntax(3),
    ),
    (
        "interval i8 4 1\ni0 set 1 1\ni0 sqrt i1\nx\n",
        IntervalFault::OutOfRange(3),
    ),
];

/// Ends of `i8` intervals.
const NUMBERS: [i8; 20] = [
    -128, -127, -100, -64, -33, -17, -16, -8, -3, -1, 0, 1, 2, 7, 15, 16, 31, 64, 100, 127,
];

#[test]
fn scripts(rt: HostRuntime) {
    let alloc = rt.alloc();
    for rows in [WORKED.as_slice(), &WORDS, &MORE] {
        for (script, text) in rows {
            match interval_run(alloc, script.as_bytes()) {
                Ok(output) => assert!(rt; output.as_bytes() == text.as_bytes(), "{script}"),
                Err(fault) => assert!(rt; false, "{fault:?} at {script}"),
            }
        }
    }
}

#[test]
fn faults(rt: HostRuntime) {
    let alloc = rt.alloc();
    for (script, fault) in &FAULTS {
        match interval_run(alloc, script.as_bytes()) {
            Ok(_) => assert!(rt; false, "{script}"),
            Err(found) => assert!(rt; &found == fault, "{script}"),
        }
    }
}

/// The intervals between two of the numbers.
fn intervals(alloc: Global) -> Result<Vec<Interval<i8>>, AllocError> {
    let mut all = Vec::new(alloc);
    for lo in NUMBERS {
        for hi in NUMBERS {
            if let Some(interval) = Interval::new(lo, hi) {
                all.push(interval)?;
            }
        }
    }
    Ok(all)
}

/// Whether the ends are those of the corners, each a number and a divisor above 0: every corner lies between the
/// ends, and with either end nearer by one, some corner would not.
fn has_ends(interval: &Interval<i8>, corners: &[(i64, i64); 4]) -> bool {
    let low = interval.lo() as i64;
    let high = interval.hi() as i64;
    let (mut low_is_near, mut high_is_near) = (false, false);
    for (number, divisor) in corners {
        if *number < low.wrapping_mul(*divisor) || high.wrapping_mul(*divisor) < *number {
            return false;
        }
        if *number < low.wrapping_add(1).wrapping_mul(*divisor) {
            low_is_near = true;
        }
        if high.wrapping_sub(1).wrapping_mul(*divisor) < *number {
            high_is_near = true;
        }
    }
    low_is_near && high_is_near
}

/// Whether a corner lies outside the range of an `i8`.
fn leaves_range(corners: &[(i64, i64); 4]) -> bool {
    for (number, divisor) in corners {
        if *number < divisor.wrapping_mul(-128) || divisor.wrapping_mul(127) < *number {
            return true;
        }
    }
    false
}

/// Whether an answer is that of the corners.
fn is_of(found: Option<Interval<i8>>, corners: &[(i64, i64); 4]) -> bool {
    match found {
        Some(interval) => has_ends(&interval, corners),
        None => leaves_range(corners),
    }
}

/// The product of two ends, over the units of the format.
fn product(x: i8, y: i8, units: i64) -> (i64, i64) {
    ((x as i64).wrapping_mul(y as i64), units)
}

/// The quotient of two ends, over a divisor above 0.
fn quotient(x: i8, y: i8, units: i64) -> (i64, i64) {
    let (number, divisor) = ((x as i64).wrapping_mul(units), y as i64);
    if divisor < 0 {
        (number.wrapping_neg(), divisor.wrapping_neg())
    } else {
        (number, divisor)
    }
}

/// The product and the quotient of two intervals.
fn try_pair(rt: &impl Abort, a: &Interval<i8>, b: &Interval<i8>, frac: u32, units: i64)
    requires { frac ≤ 8 }
{
    let (p, q, r, s) = (a.lo(), a.hi(), b.lo(), b.hi());
    let products = [
        product(p, r, units),
        product(p, s, units),
        product(q, r, units),
        product(q, s, units),
    ];
    assert!(rt;
        is_of(mul_in(a, b, frac), &products),
        "{a:?} by {b:?} at {frac}"
    );
    let found = div_in(a, b, frac);
    if r <= 0 && 0 <= s {
        assert!(rt; found.is_none(), "{a:?} over {b:?} at {frac}");
    } else {
        let quotients = [
            quotient(p, r, units),
            quotient(p, s, units),
            quotient(q, r, units),
            quotient(q, s, units),
        ];
        assert!(rt; is_of(found, &quotients), "{a:?} over {b:?} at {frac}");
    }
}

/// An interval with each.
fn try_with_each(rt: &impl Abort, a: &Interval<i8>, all: &[Interval<i8>], frac: u32, units: i64)
    requires { frac ≤ 8 }
{
    for b in all {
        try_pair(rt, a, b, frac, units);
    }
}

/// Each interval with each.
fn try_pairs(rt: &impl Abort, all: &[Interval<i8>], frac: u32, units: i64)
    requires { frac ≤ 8 }
{
    for a in all {
        try_with_each(rt, a, all, frac, units);
    }
}

#[test]
fn every_pair(rt: HostRuntime) -> Result<(), AllocError> {
    let all = intervals(rt.alloc())?;
    assert!(rt; all.len() == 210);
    try_pairs(&rt, &all, 0, 1);
    try_pairs(&rt, &all, 4, 16);
    try_pairs(&rt, &all, 8, 256);
    Ok(())
}

/// The square of a whole number.
fn square(number: i64) -> i64 {
    number.wrapping_mul(number)
}

/// The root of the numbers from one to the next.
fn try_root(rt: &impl Abort, a: &Interval<u8>, frac: u32, units: i64)
    requires { frac ≤ 8 }
{
    let low = (a.lo() as i64).wrapping_mul(units);
    let high = (a.hi() as i64).wrapping_mul(units);
    match sqrt_in(a, frac) {
        Some(root) => {
            let (down, up) = (root.lo() as i64, root.hi() as i64);
            assert!(rt;
                square(down) <= low && low < square(down.wrapping_add(1)),
                "{a:?} at {frac}"
            );
            assert!(rt;
                square(up.wrapping_sub(1)) < high && high <= square(up),
                "{a:?} at {frac}"
            );
        }
        None => assert!(rt; square(255) < high, "{a:?} at {frac}"),
    }
}

/// The roots of all neighbours.
fn try_roots(rt: &impl Abort, frac: u32, units: i64)
    requires { frac ≤ 8 }
{
    for low in 0..255_u8 {
        match Interval::new(low, low + 1) {
            Some(a) => try_root(rt, &a, frac, units),
            None => assert!(rt; false, "{low}"),
        }
    }
}

#[test]
fn roots_of_neighbours(rt: HostRuntime) {
    let mut units = 1_i64;
    for frac in 0..=8_u32 {
        try_roots(&rt, frac, units);
        units = units.wrapping_mul(2);
    }
}

#[test]
fn calls(rt: HostRuntime) {
    assert!(rt; Interval::new(2_i8, 1).is_none());
    match (Interval::new(-3_i8, 4), Interval::new(100_i8, 120)) {
        (Some(a), Some(b)) => {
            assert!(rt; a.lo() == -3 && a.hi() == 4);
            assert!(rt; add_in(&a, &b) == Interval::new(97_i8, 124));
            assert!(rt; sub_in(&a, &b) == Interval::new(-123_i8, -96));
            assert!(rt; add_in(&b, &b).is_none());
            assert!(rt; a != b);
        }
        _ => assert!(rt; false),
    }
}
