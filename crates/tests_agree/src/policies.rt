//! Each function that `forms` does not call, once: those of strict, and those of unsigned words.
#![tactic(auto, unfolding(fixed_machine::specs::Rows::exact, fixed_script::specs::Offered::is_offered, fixed_kernel::specs::Rows::power_over))]

use fixed_agree::{checked, overflowing, saturating, strict, wrapping};
use fixed_machine::Answer;
use fixed_num::{FixedI8, FixedU8};
use fixed_script::Op;
use std::process::Abort;

/// Asserts that in each row the answer found is the one wanted.
fn all_answer(rt: &impl Abort, rows: &[(&str, Answer, Answer)]) {
    for (what, found, wanted) in rows {
        assert!(rt; *found == *wanted, "{what}: {found:?}");
    }
}

#[test]
fn strict_answers(rt: HostRuntime) {
    let (seven, three) = (FixedI8::<4> { bits: -7 }, FixedI8::<4> { bits: 3 });
    let power = strict::unary_unsigned(Op::NextPowerOfTwo, FixedU8::<4> { bits: 17 });
    let left = strict::by_integer(Op::RemEuclidInt, FixedI8::<4> { bits: -23 }, 1);
    all_answer(
        &rt,
        &[
            ("negated", strict::unary(Op::Neg, seven), Answer::Bits(7)),
            (
                "magnitude",
                strict::unary_signed(Op::Abs, seven),
                Answer::Bits(7),
            ),
            ("power of two", power, Answer::Bits(32)),
            (
                "quotient",
                strict::binary(Op::Div, seven, three),
                Answer::Bits(-37),
            ),
            ("remainder", left, Answer::Bits(9)),
            (
                "multiply-add",
                strict::mul_add(seven, three, three),
                Answer::Bits(1),
            ),
            (
                "sum",
                strict::add_prod(three, three, seven),
                Answer::Bits(1),
            ),
        ],
    );
}

#[test]
fn unsigned_answers(rt: HostRuntime) {
    let large = FixedU8::<4> { bits: 200 };
    let absent = checked::unary_unsigned(Op::NextPowerOfTwo, large);
    let nothing = wrapping::unary_unsigned(Op::NextPowerOfTwo, large);
    let one = FixedU8::<4> { bits: 1 };
    let flagged = overflowing::unary_unsigned(Op::Neg, one);
    all_answer(
        &rt,
        &[
            ("checked power of two", absent, Answer::Absent),
            ("wrapping power of two", nothing, Answer::Bits(0)),
            ("overflowing negated", flagged, Answer::Flagged(255, true)),
            (
                "saturating negated",
                saturating::unary_unsigned(Op::Neg, one),
                Answer::Bits(0),
            ),
        ],
    );
}
