//! Headers and lines, each kind once.

use super::same::all_hold;
use fixed_script::*;
use std::test::Fail;

fn whole(below_zero: bool, magnitude: u128) -> Literal {
    Literal {
        below_zero,
        magnitude,
    }
}

fn set(dest: u128, literal: Literal) -> Line {
    Line::Set { dest, literal }
}

/// Whether the text is a header of that word and those fractions.
fn is_header(text: &str, word: WordName, fractions: &[u128]) -> bool {
    match parse_header(text.as_bytes()) {
        Some(header) => {
            let mut at = 0;
            for fraction in header.fractions() {
                if at < fractions.len() && fraction == fractions[at] {
                    at += 1;
                } else {
                    return false;
                }
            }
            header.word() == word && at == fractions.len()
        }
        None => false,
    }
}

/// A header gives its word and its fractions, those of `2^64` or more as `2^64`.
#[test]
fn headers(rt: HostRuntime) -> Result<(), Fail> {
    for (text, word, fractions) in [
        ("i8 4", WordName::I8, [4].as_slice()),
        ("i16 0", WordName::I16, &[0]),
        ("i32 16 16 8", WordName::I32, &[16, 16, 8]),
        ("i64 64", WordName::I64, &[64]),
        ("u8 9", WordName::U8, &[9]),
        ("u16 1 2 3 4", WordName::U16, &[1, 2, 3, 4]),
        (
            "u32 18446744073709551615",
            WordName::U32,
            &[18_446_744_073_709_551_615],
        ),
        (
            "u64 18446744073709551616 0",
            WordName::U64,
            &[18_446_744_073_709_551_616, 0],
        ),
        (
            "u64 99999999999999999999999999",
            WordName::U64,
            &[18_446_744_073_709_551_616],
        ),
    ] {
        assert!(rt; is_header(text, word, fractions), "{text}");
    }
    assert!(rt; parse_header(b"i8 4\n").is_none(), "a newline");
    Ok(())
}

/// A line of each kind.
#[test]
fn lines(rt: HostRuntime) -> Result<(), Fail> {
    for (text, line) in [
        ("r3 set -129", Some(set(3, whole(true, 129)))),
        (
            "r18446744073709551617 set 0",
            Some(set(18_446_744_073_709_551_616, whole(false, 0))),
        ),
        (
            "r0 strict sqrt r12",
            Some(Line::One {
                dest: 0,
                policy: Policy::Strict,
                op: Op::Sqrt,
                a: 12,
                rounding: None,
            }),
        ),
        (
            "r1 wrapping next_multiple_of r2 r3",
            Some(Line::Two {
                dest: 1,
                policy: Policy::Wrapping,
                op: Op::NextMultipleOf,
                a: 2,
                b: 3,
                rounding: None,
            }),
        ),
        (
            "r1 overflowing rem_euclid_int r2 -18446744073709551617",
            Some(Line::Int {
                dest: 1,
                policy: Policy::Overflowing,
                op: Op::RemEuclidInt,
                a: 2,
                literal: whole(true, 18_446_744_073_709_551_616),
                rounding: None,
            }),
        ),
        (
            "r1 saturating add_prod r2 r3 r4",
            Some(Line::Three {
                dest: 1,
                policy: Policy::Saturating,
                op: Op::AddProd,
                a: 2,
                b: 3,
                c: 4,
                rounding: None,
            }),
        ),
    ] {
        assert!(rt; parse_line(text.as_bytes()) == line, "{text}");
    }
    Ok(())
}

/// A line of each kind that names its rounding.
#[test]
fn rounded_lines(rt: HostRuntime) -> Result<(), Fail> {
    for (text, line) in [
        (
            "r0 strict recip r1 down",
            Some(Line::One {
                dest: 0,
                policy: Policy::Strict,
                op: Op::Recip,
                a: 1,
                rounding: Some(Rounding::Down),
            }),
        ),
        (
            "r0 checked div r1 r2 even",
            Some(Line::Two {
                dest: 0,
                policy: Policy::Checked,
                op: Op::Div,
                a: 1,
                b: 2,
                rounding: Some(Rounding::Even),
            }),
        ),
        (
            "r0 saturating div_int r1 -2 zero",
            Some(Line::Int {
                dest: 0,
                policy: Policy::Saturating,
                op: Op::DivInt,
                a: 1,
                literal: whole(true, 2),
                rounding: Some(Rounding::Zero),
            }),
        ),
        (
            "r0 overflowing mul_add r1 r2 r3 even",
            Some(Line::Three {
                dest: 0,
                policy: Policy::Overflowing,
                op: Op::MulAdd,
                a: 1,
                b: 2,
                c: 3,
                rounding: Some(Rounding::Even),
            }),
        ),
    ] {
        assert!(rt; parse_line(text.as_bytes()) == line, "{text}");
    }
    Ok(())
}

/// What no line is.
#[test]
fn texts_of_no_line(rt: HostRuntime) -> Result<(), Fail> {
    for text in [
        "r0 strict add r0 r0 down",
        "r0 strict mul_int r0 2 even",
        "r0 strict sqrt r0 zero",
        "r0 strict mul r0 r0 up",
        "r0 strict mul r0 r0  even",
        "r0 strict mul r0 r0 even even",
        "r0 strict mul r0 r0 even ",
        "r0 strict mul r0 r0 ",
        "r0 strict mul r0 even",
        "r0 set 1 down",
        "r0 set 1\n",
        "",
    ] {
        assert!(rt; parse_line(text.as_bytes()).is_none(), "{text}");
    }
    Ok(())
}

/// A piece has its newline.
#[test]
fn pieces(rt: HostRuntime) {
    let line = line_of_piece(b"r3 set -129\n") == Some(set(3, whole(true, 129)));
    all_hold(
        &rt,
        &[
            ("a line", line),
            ("no newline", line_of_piece(b"r3 set -129").is_none()),
            ("a header", header_of_piece(b"i8 4\n").is_some()),
            (
                "a header with no newline",
                header_of_piece(b"i8 4").is_none(),
            ),
            ("three operands", arity_of(Op::MulAdd) == Arity::Ternary),
        ],
    );
}
