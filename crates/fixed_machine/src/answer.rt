//! The text of an answer, written at the end of a buffer with room.

ghost use Rattle.std.specs.Prelude.{◌≡◌, ◌+◌, ◌++◌, ◌≤◌, pos, drop, length, take, vec_len};
ghost use Rattle.std.specs.Vec.{vec_capacity};
ghost use Rattle.fixed_word.specs.Decimal.{whole_text};
ghost use Rattle.fixed_machine.specs.Answers.{answer_text};
ghost use Rattle.fixed_machine.specs.inside.Stepping.{number_in, whole_answer};

use crate::register::{Signed, with_sign};
use fixed_digits::decimal_before;
use fixed_text::push_all;

/// The answer of a line: no value, the destination's bits, or its bits and the verdict of the overflowing policy, which
/// is true if the exact result does not fit.
#[derive(Clone, Copy, Debug, PartialEq, Eq)]
pub enum Answer {
    Absent,
    Bits(i128),
    Flagged(i128, bool),
}

/// An answer whose number is a sign and a magnitude.
#[derive(Clone, Copy, Debug, PartialEq, Eq)]
pub(crate) enum SignedAnswer {
    Absent,
    Bits(Signed),
    Flagged(Signed, bool),
}

impl SignedAnswer {
    /// Returns the answer with its number in one.
    pub(crate) fn into_answer(self) -> Answer
        ensures { result ≡ whole_answer self }
    {
        match self {
            SignedAnswer::Absent => Answer::Absent,
            SignedAnswer::Bits(bits) => Answer::Bits(with_sign(bits.below_zero, bits.magnitude)),
            SignedAnswer::Flagged(bits, verdict) => {
                Answer::Flagged(with_sign(bits.below_zero, bits.magnitude), verdict)
            }
        }
    }
}

/// How many bytes are written for an answer at once. Those after its text are removed again.
pub(crate) const SPARE: usize = 32;

/// Where the digits of a number end in its text.
const DIGITS_END: usize = 24;

/// Writes a number before what follows it, and returns where it begins.
#[inline(always)]
fn put_signed(n: Signed, text: &mut [u8; 56]) -> usize
    ensures start { result + length (whole_text (number_in n)) ≡ 24 }
    ensures length { length (whole_text (number_in n)) ≤ 21 }
    ensures text { drop result text.new ≡ whole_text (number_in n) ++ drop 24 text.old }
{
    let start = decimal_before(n.magnitude, text, DIGITS_END);
    // No number but 0 begins with a 0, and 0 has no minus.
    if n.below_zero && text[start] != b'0' {
        let at = start - 1;
        text[at] = b'-';
        at
    } else {
        start
    }
}

/// Adds the front of a text: all of the text is copied, and the rest removed.
#[inline(always)]
fn push_front(out: &mut Vec<u8>, text: &[u8], count: usize)
    requires count { count ≤ length text.now }
    requires room { vec_len out.old + length text.now ≤ vec_capacity out.old }
    ensures items { out.new.items ≡ out.old.items ++ take count text.now }
    ensures len { vec_len out.new ≡ vec_len out.old + count }
    ensures capacity { vec_capacity out.old ≤ vec_capacity out.new }
{
    let end = out.len() + count;
    push_all(out, text);
    out.truncate(end);
}

/// Writes what follows a number at its place.
#[inline(always)]
fn put_tail(tail: &[u8; 8], text: &mut [u8; 56])
    ensures { drop 24 text.new ≡ tail.now ++ drop 32 text.old }
{
    text[DIGITS_END..DIGITS_END + 8].copy_from_slice(tail);
}

/// Adds a number, and `count` bytes of what follows it in the text.
#[inline(always)]
fn push_before(out: &mut Vec<u8>, text: &mut [u8; 56], n: Signed, count: usize)
    requires count { count ≤ 8 }
    requires room { vec_len out.old + 32 ≤ vec_capacity out.old }
    ensures items { out.new.items ≡ out.old.items
        ++ (whole_text (number_in n) ++ take count (drop 24 text.old)) }
    ensures len { vec_len out.new ≡ vec_len out.old + (length (whole_text (number_in n)) + count) }
    ensures capacity { vec_capacity out.old ≤ vec_capacity out.new }
{
    let start = put_signed(n, text);
    push_front(out, &text[start..start + SPARE], DIGITS_END - start + count);
}

/// Adds a number and the first `count` bytes of `tail`.
#[inline(always)]
fn push_number(out: &mut Vec<u8>, text: &mut [u8; 56], n: Signed, tail: &[u8; 8], count: usize)
    requires count { count ≤ 8 }
    requires room { vec_len out.old + 32 ≤ vec_capacity out.old }
    ensures items { out.new.items ≡ out.old.items ++ (whole_text (number_in n) ++ take count tail.now) }
    ensures len { vec_len out.new ≡ vec_len out.old + (length (whole_text (number_in n)) + count) }
    ensures capacity { vec_capacity out.old ≤ vec_capacity out.new }
{
    put_tail(tail, text);
    push_before(out, text, n, count);
}

/// Adds the text of an answer. `text` is scratch space for its number.
#[inline(always)]
pub(crate) fn push_answer(out: &mut Vec<u8>, text: &mut [u8; 56], answer: SignedAnswer)
    requires { vec_len out.old + length (answer_text (whole_answer answer)) + 32 ≤ vec_capacity out.old }
    ensures items { out.new.items ≡ out.old.items ++ answer_text (whole_answer answer) }
    ensures len { vec_len out.new ≡ vec_len out.old + length (answer_text (whole_answer answer)) }
    ensures capacity { vec_capacity out.old ≤ vec_capacity out.new }
{
    match answer {
        SignedAnswer::Absent => push_all(out, b"none\n"),
        SignedAnswer::Bits(n) => push_number(out, text, n, b"\n.......", 1),
        SignedAnswer::Flagged(n, verdict) => {
            if verdict {
                push_number(out, text, n, b" true\n..", 6);
            } else {
                push_number(out, text, n, b" false\n.", 7);
            }
        }
    }
}
