//! Scripts in which each line that may name a rounding does.

use fixed_calc::{ExplicitFault, explicit, run};
use std::alloc::Global;
use std::process::Abort;
use std::test::Fail;

/// Scripts, and what is written of them.
const SPELLED: [(&str, &str); 6] = [
    (
        "i8 8 8\nr0 set 1\nr1 set -1\nr0 strict mul r0 r1\n",
        "i8 8 8\nr0 set 1\nr1 set -1\nr0 strict mul r0 r1 down\n",
    ),
    (
        "i8 4\nr0 set 8\nr0 checked recip r0 even\nr0 checked div r0 r0\n",
        "i8 4\nr0 set 8\nr0 checked recip r0 even\nr0 checked div r0 r0 zero\n",
    ),
    ("u8 4\nr0 checked abs r0\n", "u8 4\nr0 checked abs r0\n"),
    ("i32 33\n", "i32 33\n"),
    (
        "i16 4 4 4\nr0 wrapping recip r1\nr0 saturating div_int r1 3\nr2 checked mul_add r2 r1 r0\n\
         r1 overflowing add_prod r1 r0 r2\nr0 strict div_int r0 2 down\n",
        "i16 4 4 4\nr0 wrapping recip r1 zero\nr0 saturating div_int r1 3 zero\n\
         r2 checked mul_add r2 r1 r0 down\nr1 overflowing add_prod r1 r0 r2 down\n\
         r0 strict div_int r0 2 down\n",
    ),
    (
        "i16 4 4\nr0 checked add r0 r1\nr0 checked mul_int r0 7\nr0 checked div_euclid r0 r1\n\
         r0 checked rem r0 r1\nr0 checked next_multiple_of r0 r1\nr0 checked sqrt r0\n",
        "i16 4 4\nr0 checked add r0 r1\nr0 checked mul_int r0 7\nr0 checked div_euclid r0 r1\n\
         r0 checked rem r0 r1\nr0 checked next_multiple_of r0 r1\nr0 checked sqrt r0\n",
    ),
];

/// Asserts that the script is spelled so.
fn spells(rt: &impl Abort, alloc: Global, script: &str, want: &str) {
    match explicit(alloc, script.as_bytes()) {
        Ok(spelled) => assert!(rt; spelled.as_bytes() == want.as_bytes(), "{script}"),
        Err(fault) => assert!(rt; false, "{fault} at {script}"),
    }
}

/// Asserts that the script has no spelling for its line of that number, and what is told of it.
fn spells_none(rt: &impl Abort, alloc: Global, script: &str, number: u64) -> Result<(), Fail> {
    let fault = match explicit(alloc, script.as_bytes()) {
        Ok(_) => ExplicitFault::Memory,
        Err(fault) => fault,
    };
    let told = format!(in alloc; "{fault}")?;
    let line = format!(in alloc; "line {number}: syntax")?;
    let holds = fault == ExplicitFault::Syntax(number) && told == line;
    assert!(rt; holds, "{fault} at {script}");
    Ok(())
}

#[test]
fn spelled_scripts(rt: HostRuntime) -> Result<(), Fail> {
    let alloc = rt.alloc();
    for (script, want) in SPELLED {
        spells(&rt, alloc, script, want);
        spells(&rt, alloc, want, want);
    }
    for (script, number) in [
        ("", 1),
        ("i8\n", 1),
        ("i8 4", 1),
        ("i8 4\nr0 set 01\n", 2),
        ("i8 4\nr0 set 1\nr0 checked mul r0 r0", 3),
        ("i8 4\nr0 strict add r0 r0 down\nr0 set 01\n", 2),
        ("i8 4\nr0 set 1\n\nr0 set 1\n", 3),
    ] {
        spells_none(&rt, alloc, script, number)?;
    }
    let text = format!(in alloc; "{}", ExplicitFault::Memory)?;
    assert!(rt; text.as_str() == "out of memory", "{text}");
    Ok(())
}

/// Whether both runs answer the same, or have the same fault.
fn run_alike(alloc: Global, script: &[u8], spelled: &[u8]) -> bool {
    match (run(alloc, script), run(alloc, spelled)) {
        (Ok(one), Ok(two)) => one.as_bytes() == two.as_bytes(),
        (Err(one), Err(two)) => one == two,
        _ => false,
    }
}

/// A run of a script that is spelled out answers what the script's own answers.
#[test]
fn spelled_scripts_run_alike(rt: HostRuntime) -> Result<(), Fail> {
    let alloc = rt.alloc();
    for script in [
        "i8 4 4\nr0 set -3\nr1 set 8\nr0 strict mul r0 r1\nr0 wrapping div r0 r1\nr1 overflowing recip r1\n",
        "i8 4 4\nr0 set 5\nr0 strict div_int r0 -2\nr0 strict div r0 r1\n",
        "i8 1\nr0 set 85\nr0 strict mul r0 r0\n",
    ] {
        let alike = match explicit(alloc, script.as_bytes()) {
            Ok(spelled) => run_alike(alloc, script.as_bytes(), spelled.as_bytes()),
            Err(_) => false,
        };
        assert!(rt; alike, "{script}");
    }
    Ok(())
}
