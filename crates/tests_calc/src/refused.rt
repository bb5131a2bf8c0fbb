//! Scripts with a cause.

use super::programs::refuses;
use fixed_calc::Cause;
use std::alloc::Global;
use std::test::Fail;

/// Scripts, their first causes and the lines for the errors.
const CAUSES: [(&str, Cause, &str); 27] = [
    ("", Cause::Syntax(1), "line 1: syntax\n"),
    ("i32 33\n", Cause::OutOfRange(1), "line 1: out of range\n"),
    ("u8 9\nxx\n", Cause::OutOfRange(1), "line 1: out of range\n"),
    (
        "i32 16\nr0 set 2147483648\n",
        Cause::OutOfRange(2),
        "line 2: out of range\n",
    ),
    (
        "i8 4\nr0 set 128\n",
        Cause::OutOfRange(2),
        "line 2: out of range\n",
    ),
    (
        "i8 4\nr0 set -129\n",
        Cause::OutOfRange(2),
        "line 2: out of range\n",
    ),
    (
        "i8 4\nr1 set 0\n",
        Cause::OutOfRange(2),
        "line 2: out of range\n",
    ),
    (
        "u8 4\nr0 set -1\n",
        Cause::OutOfRange(2),
        "line 2: out of range\n",
    ),
    (
        "u64 4\nr0 set 18446744073709551616\n",
        Cause::OutOfRange(2),
        "line 2: out of range\n",
    ),
    (
        "i8 4\nr0 set 999999999999999999999999\n",
        Cause::OutOfRange(2),
        "line 2: out of range\n",
    ),
    (
        "i8 4\nr0 checked mul_int r0 128\n",
        Cause::OutOfRange(2),
        "line 2: out of range\n",
    ),
    (
        "i8 4\nr0 checked add r0 r1\n",
        Cause::OutOfRange(2),
        "line 2: out of range\n",
    ),
    (
        "i8 4\nr18446744073709551616 checked neg r0\n",
        Cause::OutOfRange(2),
        "line 2: out of range\n",
    ),
    (
        "i32 16 8\nr0 checked add r0 r1\n",
        Cause::FractionMismatch(2),
        "line 2: fraction mismatch\n",
    ),
    (
        "i16 8 4\nr0 checked add r0 r1\n",
        Cause::FractionMismatch(2),
        "line 2: fraction mismatch\n",
    ),
    (
        "i8 4 2\nr0 strict div r1 r1\n",
        Cause::FractionMismatch(2),
        "line 2: fraction mismatch\n",
    ),
    (
        "i8 4 2\nr0 strict mul_add r0 r0 r1\n",
        Cause::FractionMismatch(2),
        "line 2: fraction mismatch\n",
    ),
    (
        "i8 4 2\nr0 strict add_prod r1 r0 r0\n",
        Cause::FractionMismatch(2),
        "line 2: fraction mismatch\n",
    ),
    (
        "u8 4\nr0 set 0\nr0 wrapping recip r0\nxx\n",
        Cause::ZeroDivisor(3),
        "line 3: zero divisor\n",
    ),
    (
        "i8 4\nr0 set 5\nr0 wrapping div_int r0 0\n",
        Cause::ZeroDivisor(3),
        "line 3: zero divisor\n",
    ),
    (
        "i8 4\nr0 set -16\nr0 checked sqrt r0\nr0 saturating sqrt r0\n",
        Cause::NegativeRoot(4),
        "line 4: negative root\n",
    ),
    (
        "i8 0\nr0 set 127\nr0 strict mul_int r0 2\nr0 wrapping add r0 r0\n",
        Cause::Overflow(3),
        "line 3: overflow\n",
    ),
    (
        "i8 4\nr0 strict add r0 r0 down\n",
        Cause::Syntax(2),
        "line 2: syntax\n",
    ),
    (
        "i8 4\nr0 strict mul r0 r0 up\n",
        Cause::Syntax(2),
        "line 2: syntax\n",
    ),
    (
        "i8 4\nr0 strict mul r0 r0  even\n",
        Cause::Syntax(2),
        "line 2: syntax\n",
    ),
    (
        "i8 1\nr0 set 85\nr0 strict mul r0 r0 zero\n",
        Cause::Overflow(3),
        "line 3: overflow\n",
    ),
    (
        "i8 4\nr0 wrapping div_int r0 0 even\n",
        Cause::ZeroDivisor(2),
        "line 2: zero divisor\n",
    ),
];

/// The first cause of a script, and the whole line for the errors.
#[test]
fn first_causes(rt: HostRuntime) -> Result<(), Fail> {
    let alloc = rt.alloc();
    for (script, cause, line) in CAUSES {
        refuses(&rt, alloc, script.as_bytes(), cause, line)?;
    }
    Ok(())
}

/// Text that is no header.
#[test]
fn no_headers(rt: HostRuntime) -> Result<(), Fail> {
    let alloc = rt.alloc();
    for script in [
        b"i8 4".as_slice(),
        b"\n",
        b"i8\n",
        b"i8 \n",
        b" i8 4\n",
        b"i8 4 \n",
        b"i8  4\n",
        b"i8\t4\n",
        b"i8 4\r\n",
        b"i8 04\n",
        b"i8 +4\n",
        b"i8 -4\n",
        b"i8 -0\n",
        b"i8 4.0\n",
        b"i8 four\n",
        b"I8 4\n",
        b"i128 4\n",
        b"i9 4\n",
        b"i8,4\n",
        b"\xef\xbb\xbfi8 4\n",
        b"\xff\xfe\n",
        b"i8 4\0\n",
        b"\0i8 4\n",
        b"i8 \xd9\xa4\n",
    ] {
        refuses(&rt, alloc, script, Cause::Syntax(1), "line 1: syntax\n")?;
    }
    Ok(())
}

/// Text that is no line.
#[test]
fn no_lines(rt: HostRuntime) -> Result<(), Fail> {
    let alloc = rt.alloc();
    for script in [
        b"i8 4\nr0 set 1".as_slice(),
        b"i8 4\n\n",
        b"i8 4\n \n",
        b"i8 4\nr0  set 1\n",
        b"i8 4\nr0 set  1\n",
        b"i8 4\n r0 set 1\n",
        b"i8 4\nr0 set 1 \n",
        b"i8 4\nr0 set 1\r\n",
        b"i8 4\nr0\tset 1\n",
        b"i8 4\nr0 set 01\n",
        b"i8 4\nr0 set -01\n",
        b"i8 4\nr0 set -0\n",
        b"i8 4\nr0 set +1\n",
        b"i8 4\nr0 set --1\n",
        b"i8 4\nr0 set -\n",
        b"i8 4\nr0 set 0x1\n",
        b"i8 4\nr0 set 1_0\n",
        b"i8 4\nr0 set 1.0\n",
        b"i8 4\nr0 set r0\n",
        b"i8 4\nr0 set\n",
        b"i8 4\nr0 set 1 1\n",
        b"i8 4\nr0\n",
        b"i8 4\nr00 set 1\n",
        b"i8 4\nr set 1\n",
        b"i8 4\nr-0 set 1\n",
        b"i8 4\nR0 set 1\n",
        b"i8 4\n0 set 1\n",
        b"i8 4\nr0 Set 1\n",
        b"i8 4\nr0 checked\n",
        b"i8 4\nr0 checked foo r0 r0\n",
        b"i32 16\nr0 checked foo r0 r0\n",
        b"i8 4\nr0 check add r0 r0\n",
        b"i8 4\nr0 add r0 r0\n",
        b"i8 4\nr0 checked add r0\n",
        b"i8 4\nr0 checked add r0 r0 r0\n",
        b"i8 4\nr0 checked add r0 0\n",
        b"i8 4\nr0 checked neg r0 r0\n",
        b"i8 4\nr0 checked neg\n",
        b"i8 4\nr0 checked mul_int r0 r0\n",
        b"i8 4\nr0 checked mul_int r0 01\n",
        b"i8 4\nr0 checked mul_add r0 r0\n",
        b"i8 4\nr0 checked add_prod r0 r0 r0 r0\n",
        b"i8 4\nr0 saturating rem r0 r0\n",
        b"i8 4\nr9 saturating rem r0 r0\n",
        b"u8 4\nr0 checked abs r0\n",
        b"i8 4\nr0 set 1\0\n",
        b"i8 4\nr0 set \0\n",
        b"i8 4\n\xc3\x28\n",
        b"i8 4\nr0 set \xff\n",
        b"i8 4\nr0 set \xe2\x88\x921\n",
        b"i8 4\ni8 4\n",
        b"i8 4\n# nothing\n",
    ] {
        refuses(&rt, alloc, script, Cause::Syntax(2), "line 2: syntax\n")?;
    }
    Ok(())
}

fn thousand_nines(alloc: Global) -> Result<String, Fail> {
    let mut nines = String::new(alloc);
    for _ in 0..1000 {
        nines.push_str("9")?;
    }
    Ok(nines)
}

/// Numbers of a thousand digits: out of range where they are decimals, and no text of a line where a 0
/// stands in front.
#[test]
fn long_numbers(rt: HostRuntime) -> Result<(), Fail> {
    let alloc = rt.alloc();
    let nines = thousand_nines(alloc)?;
    let script = format!(in alloc; "i8 {nines}\n")?;
    refuses(
        &rt,
        alloc,
        script.as_bytes(),
        Cause::OutOfRange(1),
        "line 1: out of range\n",
    )?;
    let script = format!(in alloc; "i8 0{nines}\n")?;
    refuses(
        &rt,
        alloc,
        script.as_bytes(),
        Cause::Syntax(1),
        "line 1: syntax\n",
    )?;
    for (front, back, cause, line) in [
        (
            "r0 set ",
            "",
            Cause::OutOfRange(2),
            "line 2: out of range\n",
        ),
        (
            "r0 set -",
            "",
            Cause::OutOfRange(2),
            "line 2: out of range\n",
        ),
        ("r0 set 0", "", Cause::Syntax(2), "line 2: syntax\n"),
        ("r0 set -0", "", Cause::Syntax(2), "line 2: syntax\n"),
        (
            "r",
            " set 0",
            Cause::OutOfRange(2),
            "line 2: out of range\n",
        ),
        ("r0", " set 0", Cause::Syntax(2), "line 2: syntax\n"),
        (
            "r0 checked neg r",
            "",
            Cause::OutOfRange(2),
            "line 2: out of range\n",
        ),
        (
            "r0 checked mul_int r0 ",
            "",
            Cause::OutOfRange(2),
            "line 2: out of range\n",
        ),
    ] {
        let script = format!(in alloc; "i8 4\n{front}{nines}{back}\n")?;
        refuses(&rt, alloc, script.as_bytes(), cause, line)?;
    }
    Ok(())
}
