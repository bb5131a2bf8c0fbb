//! Decimals, tokens, pieces, outputs and the run over lines, each call once.

use super::same::all_hold;
use fixed_digits::*;
use fixed_text::*;
use std::alloc::Global;
use std::test::Fail;

#[test]
fn decimals_read(rt: HostRuntime) {
    for (text, number) in [
        ("0", Some(0)),
        ("1024", Some(1024)),
        ("18446744073709551615", Some(18_446_744_073_709_551_615)),
        ("18446744073709551617", Some(18_446_744_073_709_551_616)),
        ("", None),
        ("01", None),
        ("-1", None),
        ("1x", None),
        ("12 3", None),
        ("012 3", None),
    ] {
        let found = natural_of(text.as_bytes());
        let decimal = is_decimal(text.as_bytes());
        assert!(rt;
            found == number && decimal == number.is_some(),
            "{text}: {found:?}"
        );
    }
    all_hold(
        &rt,
        &[
            ("99", value_of(b"99") == 99),
            ("-12", sign_of(b"-12") == (true, b"12".as_slice())),
            ("12", sign_of(b"12") == (false, b"12".as_slice())),
        ],
    );
}

#[test]
fn decimals_written(rt: HostRuntime) {
    let mut buffer = [0; 20];
    let start = decimal_into(1007, &mut buffer);
    assert!(rt; &buffer[start..] == b"1007".as_slice());
}

#[test]
fn tokens(rt: HostRuntime) {
    let mut tokens = Tokens::new(b"u8  12345678");
    let (word, between) = (tokens.take(), tokens.take());
    let (ended, rest) = (tokens.is_empty(), tokens.rest());
    tokens.go_on(None);
    let (token, left) = cut(b"1234567890 a b");
    all_hold(
        &rt,
        &[
            ("a word", word == Some(b"u8".as_slice())),
            ("between two spaces", between == Some(b"".as_slice())),
            ("the rest", rest == Some(b"12345678".as_slice())),
            ("no token", tokens.take().is_none()),
            ("cut off", token == b"1234567890".as_slice()),
            ("what is left", left == Some(b"a b".as_slice())),
        ],
    );
    let known = word_of(b"u8") == Some(WordName::U8) && word_of(b"u9").is_none();
    assert!(rt; known && !ended, "names of words, and one token left");
}

#[test]
fn pieces(rt: HostRuntime) {
    let opened = open(b"ab\ncd");
    all_hold(
        &rt,
        &[
            ("end of a piece", piece_end(b"ab\ncd\n") == 3),
            ("end of the last", piece_end(b"ab") == 2),
            ("body", body_of(b"ab\n") == Some(b"ab".as_slice())),
            ("no body", body_of(b"ab").is_none()),
            (
                "opened",
                opened == Some((b"ab".as_slice(), b"cd".as_slice())),
            ),
            ("no newline", open(b"ab").is_none()),
            ("nothing", open(b"").is_none()),
        ],
    );
}

#[test]
fn wholes_read(rt: HostRuntime) {
    let held = |below_zero, magnitude| {
        Some(Decimal {
            below_zero,
            magnitude,
        })
    };
    for (text, number) in [
        ("0", held(false, 0)),
        ("-128", held(true, 128)),
        (
            "18446744073709551617",
            held(false, 18_446_744_073_709_551_616),
        ),
        (
            "-18446744073709551617",
            held(true, 18_446_744_073_709_551_616),
        ),
        ("", None),
        ("-", None),
        ("-0", None),
        ("01", None),
        ("+1", None),
        ("1 ", None),
    ] {
        let alone = read_only_number(Tokens::new(text.as_bytes()));
        assert!(rt; read_decimal(text.as_bytes()) == number, "{text}");
        assert!(rt; alone == number, "{text} alone");
    }
    let two = read_only_number(Tokens::new(b"1 2"));
    assert!(rt; two.is_none(), "two numbers");
    all_hold(
        &rt,
        &[
            ("12", read_natural(b"12") == Some(12)),
            ("-12", read_natural(b"-12").is_none()),
            ("c12", read_numbered(b'c', b"c12") == Some(12)),
            ("r12", read_numbered(b'c', b"r12").is_none()),
            ("nothing", read_numbered(b'c', b"").is_none()),
        ],
    );
}

fn decimal(below_zero: bool, magnitude: u128) -> Decimal {
    Decimal {
        below_zero,
        magnitude,
    }
}

/// What the words of the text are refused for.
fn refusal_of(alloc: Global, text: &str) -> Option<LineFault> {
    match read_words::<i8>(alloc, Tokens::new(text.as_bytes())) {
        Ok(_) => None,
        Err(refusal) => Some(refusal),
    }
}

/// Whether the text has those words.
fn has_words(alloc: Global, text: &str, wanted: &[i8]) -> bool {
    match read_words::<i8>(alloc, Tokens::new(text.as_bytes())) {
        Ok(words) => words.as_slice() == wanted,
        Err(_) => false,
    }
}

/// The word of 16 bits that the text is.
fn short_of(text: &[u8]) -> Result<i16, LineFault> {
    read_word::<i16>(text)
}

/// The value in a word of 8 bits.
fn byte_of(below_zero: bool, magnitude: u128) -> Option<i8> {
    value_in::<i8>(&decimal(below_zero, magnitude))
}

#[test]
fn words_read(rt: HostRuntime) -> Result<(), Fail> {
    let past = value_in::<u64>(&decimal(false, 18_446_744_073_709_551_616));
    let fits = fitting::<u8>(&decimal(false, 255));
    let unfit = fitting::<u8>(&decimal(false, 256));
    let alloc = rt.alloc();
    all_hold(
        &rt,
        &[
            ("-128", byte_of(true, 128) == Some(-128)),
            ("128", byte_of(false, 128).is_none()),
            (
                "-1 without a sign",
                value_in::<u8>(&decimal(true, 1)).is_none(),
            ),
            ("past the greatest", past.is_none()),
            ("255", fits == Ok(255)),
            ("256", unfit == Err(LineFault::Unfit)),
            (
                "three words",
                has_words(alloc, "-128 0 127", &[-128, 0, 127]),
            ),
        ],
    );
    let (short, unformed) = (short_of(b"32768"), short_of(b"32768 "));
    all_hold(
        &rt,
        &[
            ("-32768", short_of(b"-32768") == Ok(-32768)),
            ("32768", short == Err(LineFault::Unfit)),
            ("32768 and a space", unformed == Err(LineFault::Unformed)),
            (
                "1 128",
                refusal_of(alloc, "1 128") == Some(LineFault::Unfit),
            ),
            (
                "128 x",
                refusal_of(alloc, "128 x") == Some(LineFault::Unformed),
            ),
            (
                "1  2",
                refusal_of(alloc, "1  2") == Some(LineFault::Unformed),
            ),
        ],
    );
    Ok(())
}

#[test]
fn outputs(rt: HostRuntime) -> Result<(), Fail> {
    let mut output = Output::new(rt.alloc());
    assert!(rt; output.as_bytes().is_empty());
    output.append(b"none\n")?;
    output.append_natural(18_446_744_073_709_551_615)?;
    output.append(b" ")?;
    output.append_word(-128i8)?;
    output.append_word(0u64)?;
    assert!(rt; output.as_bytes() == b"none\n18446744073709551615 -1280".as_slice());
    Ok(())
}
