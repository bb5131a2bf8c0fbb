//! One line for each operation under each policy that has it.

use super::programs::{answers, refuses};
use fixed_calc::Cause;
use std::alloc::Global;
use std::process::Abort;
use std::test::Fail;

/// A script for each operation on a signed and on an unsigned word, and its answers.
pub const PAIRS: [(&str, &str); 41] = [
    (
        "i8 4 4\nr1 set -128\nr0 checked neg r1\nr0 saturating neg r1\nr0 wrapping neg r1\n\
         r0 overflowing neg r1\nr1 set 5\nr0 strict neg r1\n",
        "-128\nnone\n127\n-128\n-128 true\n5\n-5\n",
    ),
    (
        "u8 4 4\nr1 set 1\nr0 checked neg r1\nr0 saturating neg r1\nr0 wrapping neg r1\n\
         r0 overflowing neg r1\nr1 set 0\nr0 strict neg r1\n",
        "1\nnone\n0\n255\n255 true\n0\n0\n",
    ),
    (
        "i16 8 8 8\nr1 set 32767\nr2 set 1\nr0 checked add r1 r2\nr0 saturating add r1 r2\n\
         r0 wrapping add r1 r2\nr0 overflowing add r1 r2\nr2 set -1\nr0 strict add r1 r2\n",
        "32767\n1\nnone\n32767\n-32768\n-32768 true\n-1\n32766\n",
    ),
    (
        "u16 8 8 8\nr1 set 65535\nr2 set 2\nr0 checked add r1 r2\nr0 saturating add r1 r2\n\
         r0 wrapping add r1 r2\nr0 overflowing add r1 r2\nr1 set 65533\nr0 strict add r1 r2\n",
        "65535\n2\nnone\n65535\n1\n1 true\n65533\n65535\n",
    ),
    (
        "i32 16 16 16\nr1 set -2147483648\nr2 set 1\nr0 checked sub r1 r2\n\
         r0 saturating sub r1 r2\nr0 wrapping sub r1 r2\nr0 overflowing sub r1 r2\n\
         r1 set -5\nr0 strict sub r1 r2\n",
        "-2147483648\n1\nnone\n-2147483648\n2147483647\n2147483647 true\n-5\n-6\n",
    ),
    (
        "u32 16 16 16\nr1 set 1\nr2 set 2\nr0 checked sub r1 r2\nr0 saturating sub r1 r2\n\
         r0 wrapping sub r1 r2\nr0 overflowing sub r1 r2\nr1 set 2\nr0 strict sub r1 r2\n",
        "1\n2\nnone\n0\n4294967295\n4294967295 true\n2\n0\n",
    ),
    (
        "i8 4 4 4\nr1 set 127\nr2 set 24\nr0 checked mul r1 r2\nr0 saturating mul r1 r2\n\
         r0 wrapping mul r1 r2\nr0 overflowing mul r1 r2\nr1 set -1\nr0 strict mul r1 r2\n",
        "127\n24\nnone\n127\n-66\n-66 true\n-1\n-2\n",
    ),
    (
        "u8 4 4 4\nr1 set 255\nr2 set 32\nr0 checked mul r1 r2\nr0 saturating mul r1 r2\n\
         r0 wrapping mul r1 r2\nr0 overflowing mul r1 r2\nr1 set 3\nr0 strict mul r1 r2\n",
        "255\n32\nnone\n255\n254\n254 true\n3\n6\n",
    ),
    (
        "i8 4 4 4\nr1 set -100\nr2 set 8\nr0 checked div r1 r2\nr0 saturating div r1 r2\n\
         r0 wrapping div r1 r2\nr0 overflowing div r1 r2\nr1 set -7\nr2 set 32\n\
         r0 strict div r1 r2\n",
        "-100\n8\nnone\n-128\n56\n56 true\n-7\n32\n-3\n",
    ),
    (
        "u8 4 4 4\nr1 set 200\nr2 set 8\nr0 checked div r1 r2\nr0 saturating div r1 r2\n\
         r0 wrapping div r1 r2\nr0 overflowing div r1 r2\nr1 set 7\nr2 set 32\n\
         r0 strict div r1 r2\n",
        "200\n8\nnone\n255\n144\n144 true\n7\n32\n3\n",
    ),
    (
        "i8 4 4\nr1 set 1\nr0 checked recip r1\nr0 saturating recip r1\n\
         r0 wrapping recip r1\nr0 overflowing recip r1\nr1 set -3\nr0 strict recip r1\n",
        "1\nnone\n127\n0\n0 true\n-3\n-85\n",
    ),
    (
        "u8 4 4\nr1 set 1\nr0 checked recip r1\nr0 saturating recip r1\n\
         r0 wrapping recip r1\nr0 overflowing recip r1\nr1 set 3\nr0 strict recip r1\n",
        "1\nnone\n255\n0\n0 true\n3\n85\n",
    ),
    (
        "i8 4 4 6 4\nr1 set 100\nr2 set 127\nr3 set 30\nr0 checked mul_add r1 r2 r3\n\
         r0 saturating mul_add r1 r2 r3\nr0 wrapping mul_add r1 r2 r3\n\
         r0 overflowing mul_add r1 r2 r3\nr3 set -100\nr0 strict mul_add r1 r2 r3\n",
        "100\n127\n30\nnone\n127\n-28\n-28 true\n-100\n98\n",
    ),
    (
        "u8 4 4 6 4\nr1 set 200\nr2 set 255\nr3 set 5\nr0 checked mul_add r1 r2 r3\n\
         r0 saturating mul_add r1 r2 r3\nr0 wrapping mul_add r1 r2 r3\n\
         r0 overflowing mul_add r1 r2 r3\nr1 set 1\nr0 strict mul_add r1 r2 r3\n",
        "200\n255\n5\nnone\n255\n33\n33 true\n1\n8\n",
    ),
    (
        "i16 8 8 12 2\nr1 set 100\nr2 set 32767\nr3 set 2000\nr0 checked add_prod r1 r2 r3\n\
         r0 saturating add_prod r1 r2 r3\nr0 wrapping add_prod r1 r2 r3\n\
         r0 overflowing add_prod r1 r2 r3\nr2 set -1\nr0 strict add_prod r1 r2 r3\n",
        "100\n32767\n2000\nnone\n32767\n-24508\n-24508 true\n-1\n68\n",
    ),
    (
        "u16 8 8 3 2\nr1 set 100\nr2 set 1000\nr3 set 9\nr0 checked add_prod r1 r2 r3\n\
         r0 saturating add_prod r1 r2 r3\nr0 wrapping add_prod r1 r2 r3\n\
         r0 overflowing add_prod r1 r2 r3\nr2 set 10\nr0 strict add_prod r1 r2 r3\n",
        "100\n1000\n9\nnone\n65535\n6564\n6564 true\n10\n820\n",
    ),
    (
        "i32 16 16\nr1 set 2147483647\nr0 checked mul_int r1 3\nr0 saturating mul_int r1 3\n\
         r0 wrapping mul_int r1 3\nr0 overflowing mul_int r1 3\nr0 strict mul_int r1 -1\n",
        "2147483647\nnone\n2147483647\n2147483645\n2147483645 true\n-2147483647\n",
    ),
    (
        "u32 16 16\nr1 set 4294967295\nr0 checked mul_int r1 2\nr0 saturating mul_int r1 2\n\
         r0 wrapping mul_int r1 2\nr0 overflowing mul_int r1 2\nr1 set 7\n\
         r0 strict mul_int r1 6\n",
        "4294967295\nnone\n4294967295\n4294967294\n4294967294 true\n7\n42\n",
    ),
    (
        "i64 32 32\nr1 set -9223372036854775808\nr0 checked div_int r1 -1\n\
         r0 saturating div_int r1 -1\nr0 wrapping div_int r1 -1\n\
         r0 overflowing div_int r1 -1\nr1 set -7\nr0 strict div_int r1 2\n",
        "-9223372036854775808\nnone\n9223372036854775807\n-9223372036854775808\n\
         -9223372036854775808 true\n-7\n-3\n",
    ),
    (
        "u64 32 32\nr1 set 18446744073709551615\nr0 checked div_int r1 2\n\
         r0 saturating div_int r1 2\nr0 wrapping div_int r1 2\nr0 overflowing div_int r1 2\n\
         r0 strict div_int r1 3\n",
        "18446744073709551615\n9223372036854775807\n9223372036854775807\n\
         9223372036854775807\n9223372036854775807 false\n6148914691236517205\n",
    ),
    (
        "i8 4 4 4\nr1 set 127\nr2 set 4\nr0 checked div_euclid r1 r2\n\
         r0 saturating div_euclid r1 r2\nr0 wrapping div_euclid r1 r2\n\
         r0 overflowing div_euclid r1 r2\nr1 set 68\nr2 set -8\nr0 strict div_euclid r1 r2\n",
        "127\n4\nnone\n127\n-16\n-16 true\n68\n-8\n-128\n",
    ),
    (
        "u8 4 4 4\nr1 set 255\nr2 set 8\nr0 checked div_euclid r1 r2\n\
         r0 saturating div_euclid r1 r2\nr0 wrapping div_euclid r1 r2\n\
         r0 overflowing div_euclid r1 r2\nr2 set 16\nr0 strict div_euclid r1 r2\n",
        "255\n8\nnone\n255\n240\n240 true\n16\n240\n",
    ),
    (
        "i8 4 4\nr1 set -127\nr0 checked div_euclid_int r1 -1\n\
         r0 saturating div_euclid_int r1 -1\nr0 wrapping div_euclid_int r1 -1\n\
         r0 overflowing div_euclid_int r1 -1\nr0 strict div_euclid_int r1 3\n",
        "-127\nnone\n127\n-128\n-128 true\n-48\n",
    ),
    (
        "u8 4 4\nr1 set 255\nr0 checked div_euclid_int r1 3\n\
         r0 saturating div_euclid_int r1 3\nr0 wrapping div_euclid_int r1 3\n\
         r0 overflowing div_euclid_int r1 3\nr0 strict div_euclid_int r1 16\n",
        "255\n80\n80\n80\n80 false\n0\n",
    ),
    (
        "i8 7 7\nr1 set -1\nr0 checked rem_euclid_int r1 2\n\
         r0 saturating rem_euclid_int r1 2\nr0 wrapping rem_euclid_int r1 2\n\
         r0 overflowing rem_euclid_int r1 2\nr0 strict rem_euclid_int r1 1\n",
        "-1\nnone\n127\n-1\n-1 true\n127\n",
    ),
    (
        "u8 4 4\nr1 set 255\nr0 checked rem_euclid_int r1 3\n\
         r0 saturating rem_euclid_int r1 3\nr0 wrapping rem_euclid_int r1 3\n\
         r0 overflowing rem_euclid_int r1 3\nr0 strict rem_euclid_int r1 16\n",
        "255\n15\n15\n15\n15 false\n255\n",
    ),
    (
        "i8 4 4 4\nr1 set 120\nr2 set 50\nr0 checked next_multiple_of r1 r2\n\
         r0 saturating next_multiple_of r1 r2\nr0 wrapping next_multiple_of r1 r2\n\
         r0 overflowing next_multiple_of r1 r2\nr2 set -50\n\
         r0 strict next_multiple_of r1 r2\n",
        "120\n50\nnone\n127\n-106\n-106 true\n-50\n100\n",
    ),
    (
        "u8 4 4 4\nr1 set 250\nr2 set 60\nr0 checked next_multiple_of r1 r2\n\
         r0 saturating next_multiple_of r1 r2\nr0 wrapping next_multiple_of r1 r2\n\
         r0 overflowing next_multiple_of r1 r2\nr1 set 61\nr0 strict next_multiple_of r1 r2\n",
        "250\n60\nnone\n255\n44\n44 true\n61\n120\n",
    ),
    (
        "i8 4 4 4\nr1 set 127\nr2 set -1\nr0 checked dist r1 r2\nr0 saturating dist r1 r2\n\
         r0 wrapping dist r1 r2\nr0 overflowing dist r1 r2\nr1 set -4\nr0 strict dist r1 r2\n",
        "127\n-1\nnone\n127\n-128\n-128 true\n-4\n3\n",
    ),
    (
        "u8 4 4 4\nr1 set 3\nr2 set 255\nr0 checked dist r1 r2\nr0 saturating dist r1 r2\n\
         r0 wrapping dist r1 r2\nr0 overflowing dist r1 r2\nr1 set 255\n\
         r0 strict dist r1 r2\n",
        "3\n255\n252\n252\n252\n252 false\n255\n0\n",
    ),
    (
        "i8 8 8\nr1 set 64\nr0 checked sqrt r1\nr0 saturating sqrt r1\nr0 wrapping sqrt r1\n\
         r0 overflowing sqrt r1\nr1 set 63\nr0 strict sqrt r1\n",
        "64\nnone\n127\n-128\n-128 true\n63\n126\n",
    ),
    (
        "u8 4 4\nr1 set 255\nr0 checked sqrt r1\nr0 saturating sqrt r1\nr0 wrapping sqrt r1\n\
         r0 overflowing sqrt r1\nr1 set 1\nr0 strict sqrt r1\n",
        "255\n63\n63\n63\n63 false\n1\n4\n",
    ),
    (
        "i16 8 8\nr1 set -32768\nr0 checked abs r1\nr0 saturating abs r1\n\
         r0 wrapping abs r1\nr0 overflowing abs r1\nr1 set -5\nr0 strict abs r1\n",
        "-32768\nnone\n32767\n-32768\n-32768 true\n-5\n5\n",
    ),
    (
        "i8 7 7\nr1 set 5\nr0 checked signum r1\nr0 saturating signum r1\n\
         r0 wrapping signum r1\nr0 overflowing signum r1\nr1 set -5\nr0 strict signum r1\n",
        "5\nnone\n127\n-128\n-128 true\n-5\n-128\n",
    ),
    (
        "i8 4 4 4 4\nr1 set -7\nr2 set 3\nr0 checked rem r1 r2\nr0 strict rem r1 r2\n\
         r0 checked rem r1 r3\n",
        "-7\n3\n-1\n-1\nnone\n",
    ),
    (
        "u8 4 4 4 4\nr1 set 200\nr2 set 7\nr0 checked rem r1 r2\nr0 strict rem r1 r2\n\
         r0 checked rem r1 r3\n",
        "200\n7\n4\n4\nnone\n",
    ),
    (
        "i8 1 1\nr1 set -7\nr0 checked rem_int r1 2\nr0 strict rem_int r1 -128\n\
         r0 checked rem_int r1 0\n",
        "-7\n-3\n-7\nnone\n",
    ),
    (
        "u8 1 1\nr1 set 255\nr0 checked rem_int r1 50\nr0 strict rem_int r1 100\n\
         r0 checked rem_int r1 0\n",
        "255\n55\n55\nnone\n",
    ),
    (
        "i8 4 4 4 4\nr1 set -7\nr2 set -3\nr0 checked rem_euclid r1 r2\n\
         r0 strict rem_euclid r1 r2\nr0 checked rem_euclid r1 r3\n",
        "-7\n-3\n2\n2\nnone\n",
    ),
    (
        "u8 4 4 4 4\nr1 set 200\nr2 set 7\nr0 checked rem_euclid r1 r2\n\
         r0 strict rem_euclid r1 r2\nr0 checked rem_euclid r1 r3\n",
        "200\n7\n4\n4\nnone\n",
    ),
    (
        "u8 4 4\nr1 set 200\nr0 checked next_power_of_two r1\n\
         r0 wrapping next_power_of_two r1\nr1 set 100\nr0 strict next_power_of_two r1\n",
        "200\nnone\n0\n100\n128\n",
    ),
];

/// Each operation on a signed and on an unsigned word, where it is offered: a number that does not
/// fit, where there is one, under checked, saturating, wrapping and overflowing, and one that fits
/// under strict.
#[test]
fn each_pair(rt: HostRuntime) -> Result<(), Fail> {
    let alloc = rt.alloc();
    for (script, want) in PAIRS {
        answers(&rt, alloc, script, want)?;
    }
    Ok(())
}

const POLICIES: [&str; 5] = ["checked", "saturating", "wrapping", "overflowing", "strict"];

/// The first number of each operation of the table above does not fit, which strict refuses.
#[test]
fn strict_overflows(rt: HostRuntime) -> Result<(), Fail> {
    let alloc = rt.alloc();
    for (sets, call) in [
        ("i8 4 4\nr0 set -128\nr1 set 0\n", "neg r0"),
        ("u8 4 4\nr0 set 1\nr1 set 0\n", "neg r0"),
        ("i8 4 4\nr0 set 127\nr1 set 1\n", "add r0 r1"),
        ("u8 4 4\nr0 set 255\nr1 set 1\n", "add r0 r1"),
        ("i8 4 4\nr0 set -128\nr1 set 1\n", "sub r0 r1"),
        ("u8 4 4\nr0 set 1\nr1 set 2\n", "sub r0 r1"),
        ("i8 4 4\nr0 set 127\nr1 set 24\n", "mul r0 r1"),
        ("i8 4 4\nr0 set -100\nr1 set 8\n", "div r0 r1"),
        ("i8 4 4\nr0 set 1\nr1 set 0\n", "recip r0"),
        ("i8 4 6\nr0 set 100\nr1 set 127\n", "mul_add r0 r1 r0"),
        ("i8 4 0\nr0 set 100\nr1 set 7\n", "add_prod r0 r1 r1"),
        ("i8 4 4\nr0 set 127\nr1 set 0\n", "mul_int r0 2"),
        ("i8 4 4\nr0 set -128\nr1 set 0\n", "div_int r0 -1"),
        ("i8 4 4\nr0 set 127\nr1 set 4\n", "div_euclid r0 r1"),
        ("i8 4 4\nr0 set -127\nr1 set 0\n", "div_euclid_int r0 -1"),
        ("i8 7 7\nr0 set -1\nr1 set 0\n", "rem_euclid_int r0 2"),
        ("i8 4 4\nr0 set 120\nr1 set 50\n", "next_multiple_of r0 r1"),
        ("i8 4 4\nr0 set 127\nr1 set -1\n", "dist r0 r1"),
        ("i8 8 8\nr0 set 64\nr1 set 0\n", "sqrt r0"),
        ("i8 4 4\nr0 set -128\nr1 set 0\n", "abs r0"),
        ("i8 7 7\nr0 set 5\nr1 set 0\n", "signum r0"),
        ("u8 4 4\nr0 set 129\nr1 set 0\n", "next_power_of_two r0"),
    ] {
        let script = format!(in alloc; "{sets}r0 strict {call}\n")?;
        refuses(
            &rt,
            alloc,
            script.as_bytes(),
            Cause::Overflow(4),
            "line 4: overflow\n",
        )?;
    }
    Ok(())
}

/// Asserts what the operation, whose row is undefined, says under the policy, where it is offered.
fn undefined(rt: &impl Abort, alloc: Global, policy: &str, call: &str) -> Result<(), Fail> {
    let script = format!(in alloc; "i8 4 4\nr1 set -5\nr0 {policy} {call}\n")?;
    let bytes = script.as_bytes();
    if policy == "checked" {
        answers(rt, alloc, &script, "-5\nnone\n")
    } else if call == "sqrt r1" {
        refuses(
            rt,
            alloc,
            bytes,
            Cause::NegativeRoot(3),
            "line 3: negative root\n",
        )
    } else {
        refuses(
            rt,
            alloc,
            bytes,
            Cause::ZeroDivisor(3),
            "line 3: zero divisor\n",
        )
    }
}

/// Where its row is undefined, an operation answers no value under checked, and has its cause under
/// each other policy that has it.
#[test]
fn undefined_rows(rt: HostRuntime) -> Result<(), Fail> {
    let alloc = rt.alloc();
    for call in [
        "div r1 r0",
        "recip r0",
        "div_int r1 0",
        "div_euclid r1 r0",
        "div_euclid_int r1 0",
        "rem_euclid_int r1 0",
        "next_multiple_of r1 r0",
        "sqrt r1",
    ] {
        undefined(&rt, alloc, "checked", call)?;
        undefined(&rt, alloc, "saturating", call)?;
        undefined(&rt, alloc, "wrapping", call)?;
        undefined(&rt, alloc, "overflowing", call)?;
        undefined(&rt, alloc, "strict", call)?;
    }
    for call in ["rem r1 r0", "rem_int r1 0", "rem_euclid r1 r0"] {
        undefined(&rt, alloc, "checked", call)?;
        undefined(&rt, alloc, "strict", call)?;
    }
    Ok(())
}

/// An operation that the word and the policy do not have is refused as text, before any number of its
/// line is looked at: no register of these lines was declared.
#[test]
fn pairs_not_offered(rt: HostRuntime) -> Result<(), Fail> {
    let alloc = rt.alloc();
    for (word, policies, call) in [
        (
            "i16",
            ["saturating", "wrapping", "overflowing"].as_slice(),
            "rem r7 r8",
        ),
        (
            "u16",
            ["saturating", "wrapping", "overflowing"].as_slice(),
            "rem r7 r8",
        ),
        (
            "i32",
            ["saturating", "wrapping", "overflowing"].as_slice(),
            "rem_int r7 999999999999",
        ),
        (
            "u32",
            ["saturating", "wrapping", "overflowing"].as_slice(),
            "rem_int r7 -1",
        ),
        (
            "i64",
            ["saturating", "wrapping", "overflowing"].as_slice(),
            "rem_euclid r7 r8",
        ),
        (
            "u64",
            ["saturating", "wrapping", "overflowing"].as_slice(),
            "rem_euclid r7 r8",
        ),
        ("u8", POLICIES.as_slice(), "abs r7"),
        ("u64", POLICIES.as_slice(), "signum r7"),
        ("i8", POLICIES.as_slice(), "next_power_of_two r7"),
        (
            "u8",
            ["saturating", "overflowing"].as_slice(),
            "next_power_of_two r7",
        ),
    ] {
        for policy in policies {
            let script = format!(in alloc; "{word} 4\nr9 {policy} {call}\n")?;
            refuses(
                &rt,
                alloc,
                script.as_bytes(),
                Cause::Syntax(2),
                "line 2: syntax\n",
            )?;
        }
    }
    Ok(())
}
