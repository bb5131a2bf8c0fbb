//! Writing a number with its padding.

ghost use Rattle.std.specs.Prelude.{◌≡◌, ◌≤◌, ◌++◌, [], length, replicate, if◌then◌else◌};
ghost use Rattle.std.specs.List.{repeat};
ghost use Rattle.std.specs.Char.{encode_utf8};
ghost use Rattle.std.specs.Fmt.{WritesStyledOnOk, char_count, formatter_spec, padded_integral, padding_before, sign_text_with};

use std::fmt::{self, Alignment, Write};

/// Writes a number as `pad_integral` does, with `zeros` zeros after its digits. The prefix is written if the formatter
/// is alternate. Precondition: the prefix has as many characters as bytes.
pub fn pad_number<W: fmt::Write>(
    f: &mut fmt::Formatter<W>,
    below_zero: bool,
    prefix: &str,
    digits: &str,
    zeros: usize,
) -> fmt::Result
    requires { char_count prefix.now ≡ length prefix.now }
    ensures { WritesStyledOnOk W.write_str_gives f.old result
        (padded_integral (formatter_spec f.old) below_zero prefix.now (digits.now ++ replicate zeros 48)) f.new }
{
    if zeros == 0 {
        return f.pad_integral(!below_zero, prefix, digits);
    }
    let sign = sign_shown(f.sign_plus(), below_zero);
    let base = prefix_shown(f.alternate(), prefix);
    let width = f.width().unwrap_or(0);
    let room = width.saturating_sub(digits.len()).saturating_sub(zeros);
    let padding = room.saturating_sub(sign.len()).saturating_sub(base.len());
    let is_zero_padded = f.sign_aware_zero_pad();
    let inner = if is_zero_padded { padding } else { 0 };
    let before = if is_zero_padded {
        0
    } else {
        fill_before(f, padding)
    };
    let fill = f.fill();
    write_repeated(f, fill, before)?;
    f.write_str(sign)?;
    f.write_str(base)?;
    write_repeated(f, '0', inner)?;
    f.write_str(digits)?;
    write_repeated(f, '0', zeros)?;
    write_repeated(f, fill, padding - before - inner)
}

/// Returns the sign to write: `-` below 0, `+` for other numbers if `plus`, and otherwise nothing.
#[inline]
fn sign_shown(plus: bool, below_zero: bool) -> &'static str
    ensures { result.now ≡ sign_text_with plus below_zero }
{
    if below_zero {
        "-"
    } else if plus {
        "+"
    } else {
        ""
    }
}

/// Returns the prefix if the formatter is alternate, and otherwise nothing.
#[inline]
fn prefix_shown(alternate: bool, prefix: &str) -> &str
    ensures { result.now ≡ (if alternate then prefix.now else []) }
{
    if alternate { prefix } else { "" }
}

/// Returns how much of the padding precedes the number.
#[inline]
fn fill_before<W: fmt::Write>(f: &fmt::Formatter<W>, padding: usize) -> usize
    ensures value { result ≡ padding_before (formatter_spec f.now) padding 3 }
    ensures bound { result ≤ padding }
{
    match f.align() {
        Some(Alignment::Left) => 0,
        Some(Alignment::Center) => padding / 2,
        _ => padding,
    }
}

/// Writes a character `count` times.
#[inline]
fn write_repeated<W: fmt::Write>(f: &mut fmt::Formatter<W>, sign: char, count: usize) -> fmt::Result
    ensures { WritesStyledOnOk W.write_str_gives f.old result (repeat count (encode_utf8 sign)) f.new }
{
    for _ in 0..count {
        f.write_char(sign)?;
    }
    Ok(())
}
