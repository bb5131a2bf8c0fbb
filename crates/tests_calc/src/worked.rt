//! Scripts with known answers.

use super::programs::{answers, outcome_of};
use super::same::left;
use fixed_calc::{Cause, ScriptFault, Status, SureSource, run};
use std::alloc::Global;
use std::process::Abort;
use std::test::Fail;

/// Scripts and their answers.
pub const ANSWERS: [(&str, &str); 41] = [
    ("i32 16\n", ""),
    ("i8 4\n", ""),
    ("u64 0 64 32\n", ""),
    ("i32 16\nr0 saturating add r0 r0\n", "0\n"),
    (
        "i32 16 16\nr0 set 98304\nr1 set 131072\nr0 checked mul r0 r1\nr1 wrapping add r0 r1\n",
        "98304\n131072\n196608\n327680\n",
    ),
    (
        "i32 0\nr0 set 2147483647\nr0 checked add r0 r0\nr0 wrapping add r0 r0\n",
        "2147483647\nnone\n-2\n",
    ),
    (
        "i32 16 16 16\nr1 set 16384\nr2 set 229376\nr0 strict add_prod r0 r1 r2\n\
         r1 set 32768\nr2 set -65537\nr0 strict add_prod r0 r1 r2\n",
        "16384\n229376\n57344\n32768\n-65537\n24575\n",
    ),
    (
        "i8 4 4\nr0 set 68\nr1 set -8\nr0 checked div_euclid r0 r1\n",
        "68\n-8\n-128\n",
    ),
    (
        "i8 4 4\nr0 set 127\nr1 set 4\nr0 overflowing div_euclid r0 r1\n",
        "127\n4\n-16 true\n",
    ),
    (
        "i8 8\nr0 set -64\nr0 saturating div_euclid_int r0 2\n",
        "-64\n-128\n",
    ),
    (
        "i8 8 8\nr0 set -128\nr1 set -1\nr0 overflowing div r0 r1\n",
        "-128\n-1\n0 true\n",
    ),
    ("u8 8\nr0 set 3\nr0 overflowing recip r0\n", "3\n85 true\n"),
    (
        "i8 7\nr0 set -128\nr0 overflowing recip r0\n",
        "-128\n-128 false\n",
    ),
    (
        "i8 8 8\nr0 set 1\nr1 set -1\nr0 strict mul r0 r1\n",
        "1\n-1\n-1\n",
    ),
    (
        "i16 8 8\nr0 set 1\nr1 set -1\nr0 strict mul r0 r1\n",
        "1\n-1\n-1\n",
    ),
    (
        "u8 4 4\nr0 set 255\nr1 set 32\nr0 checked mul r0 r1\nr1 wrapping add r0 r1\n",
        "255\n32\nnone\n31\n",
    ),
    (
        "i8 4 4 4\nr0 set 127\nr1 set 24\nr2 set -127\nr0 strict mul_add r0 r1 r2\n",
        "127\n24\n-127\n63\n",
    ),
    (
        "u64 0 64 64\nr0 set 18446744073709551615\nr1 set 18446744073709551615\n\
         r2 set 18446744073709551615\nr0 overflowing add_prod r0 r1 r2\n",
        "18446744073709551615\n18446744073709551615\n18446744073709551615\n\
         18446744073709551615 false\n",
    ),
    (
        "i64 63 0 0\nr0 set -1\nr1 set 1\nr2 set 1\nr0 checked add_prod r0 r1 r2\n",
        "-1\n1\n1\n9223372036854775807\n",
    ),
    ("u8 8\nr0 set 255\nr0 strict sqrt r0\n", "255\n255\n"),
    ("u16 7\nr0 set 256\nr0 strict sqrt r0\n", "256\n181\n"),
    (
        "i8 8\nr0 set 64\nr0 overflowing sqrt r0\n",
        "64\n-128 true\n",
    ),
    (
        "i32 31\nr0 set -1073741824\nr0 overflowing rem_euclid_int r0 3\n",
        "-1073741824\n1073741824 true\n",
    ),
    (
        "i8 4 4\nr0 set 64\nr1 set -24\nr0 strict next_multiple_of r0 r1\n",
        "64\n-24\n48\n",
    ),
    (
        "u8 4\nr0 checked next_power_of_two r0\nr0 set 200\nr0 wrapping next_power_of_two r0\n",
        "1\n200\n0\n",
    ),
    ("i8 4\nr0 set 5\nr0 checked div_int r0 0\n", "5\nnone\n"),
    (
        "i8 4\nr0 set -128\nr0 overflowing div_int r0 -1\nr0 saturating abs r0\n",
        "-128\n-128 true\n127\n",
    ),
    (
        "u8 0\nr0 set 1\nr0 overflowing neg r0\nr0 saturating neg r0\n",
        "1\n255 true\n0\n",
    ),
    (
        "u64 64\nr0 set 1\nr0 overflowing recip r0\nr0 set 18446744073709551615\n\
         r0 overflowing recip r0\n",
        "1\n0 true\n18446744073709551615\n1 true\n",
    ),
    (
        "i8 8\nr0 set -1\nr0 overflowing div_euclid_int r0 2\nr0 strict rem_int r0 -128\n",
        "-1\n0 true\n0\n",
    ),
    (
        "i64 32\nr0 set -9223372036854775808\nr0 set 9223372036854775807\nr0 set 0\n",
        "-9223372036854775808\n9223372036854775807\n0\n",
    ),
    (
        "i8 4 4\nr0 set -3\nr1 set 8\nr0 strict mul r0 r1 zero\n",
        "-3\n8\n-1\n",
    ),
    (
        "i8 4 4\nr0 set -3\nr1 set 8\nr0 strict mul r0 r1 even\n",
        "-3\n8\n-2\n",
    ),
    (
        "i8 4 4\nr0 set -3\nr1 set 8\nr0 strict mul r0 r1\n",
        "-3\n8\n-2\n",
    ),
    ("i8 4\nr0 set 7\nr0 strict div_int r0 2 even\n", "7\n4\n"),
    ("i8 4\nr0 set -7\nr0 strict div_int r0 2 down\n", "-7\n-4\n"),
    (
        "i8 1 1\nr0 set 85\nr1 set 3\nr0 overflowing mul r0 r1 even\n",
        "85\n3\n-128 true\n",
    ),
    (
        "i8 1 1\nr0 set 85\nr1 set 3\nr0 checked mul r0 r1 even\nr0 checked mul r0 r1\n",
        "85\n3\nnone\n127\n",
    ),
    (
        "u8 8\nr0 set 3\nr0 overflowing recip r0 even\n",
        "3\n85 true\n",
    ),
    (
        "i16 4 4 2\nr0 set 11\nr1 set -6\nr2 set 1\nr0 wrapping mul_add r0 r2 r1 even\n\
         r0 set 3\nr0 saturating add_prod r0 r1 r2 zero\n\
         r0 checked div r0 r1 down\nr0 checked recip r0 zero\n",
        "11\n-6\n1\n-3\n3\n2\n-6\n-42\n",
    ),
    (
        "i8 4 4\nr0 set 3\nr0 checked div r0 r1 even\nr0 checked recip r1 down\n",
        "3\nnone\nnone\n",
    ),
];

/// Scripts whose answers were worked out by hand.
#[test]
fn known_answers(rt: HostRuntime) -> Result<(), Fail> {
    let alloc = rt.alloc();
    for (script, want) in ANSWERS {
        answers(&rt, alloc, script, want)?;
    }
    Ok(())
}

/// Asserts that `run` hands out these answers, or this fault.
fn gives(rt: &impl Abort, alloc: Global, script: &str, want: Result<&str, ScriptFault>) {
    let holds = match (run(alloc, script.as_bytes()), want) {
        (Ok(answers), Ok(want)) => answers.as_bytes() == want.as_bytes(),
        (Err(fault), Err(want)) => fault == want,
        _ => false,
    };
    assert!(rt; holds, "{script}");
}

/// `run` hands out the answers, or the first cause and nothing else.
#[test]
fn runs_in_memory(rt: HostRuntime) -> Result<(), Fail> {
    let alloc = rt.alloc();
    for (script, want) in [
        (
            "i32 16 16\nr0 set 98304\nr1 set 131072\nr0 checked mul r0 r1\nr1 wrapping add r0 r1\n",
            Ok("98304\n131072\n196608\n327680\n"),
        ),
        (
            "i8 8 8\nr0 set 1\nr1 set -1\nr0 strict mul r0 r1\n",
            Ok("1\n-1\n-1\n"),
        ),
        (
            "i8 0\nr0 set 127\nr0 strict mul_int r0 2\nr0 wrapping add r0 r0\n",
            Err(ScriptFault::Script(Cause::Overflow(3))),
        ),
    ] {
        gives(&rt, alloc, script, want);
    }
    Ok(())
}

/// Asserts what the program leaves on a script of so many empty lines.
fn leaves(
    rt: &impl Abort,
    alloc: Global,
    length: usize,
    status: Status,
    line: &str,
) -> Result<(), Fail> {
    let script = vec![in alloc; b'\n'; length]?;
    let seen = outcome_of(alloc, &mut SureSource::new(script));
    let found = (seen.status, seen.sink.taken(), seen.errors.taken());
    left(rt, "newlines alone", found, (status, b"", line.as_bytes()));
    Ok(())
}

/// A script of the greatest length is run, and its first line is no header.
#[test]
fn the_limit(rt: HostRuntime) -> Result<(), Fail> {
    let status = Status::Script(Cause::Syntax(1));
    leaves(&rt, rt.alloc(), 67_108_864, status, "line 1: syntax\n")
}

/// A script of a byte more is not run.
#[test]
fn past_the_limit(rt: HostRuntime) -> Result<(), Fail> {
    leaves(&rt, rt.alloc(), 67_108_865, Status::TooLong, "too long\n")
}
