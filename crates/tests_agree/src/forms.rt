//! The forms of one operation of each kind, where the number does not fit.
#![tactic(auto, unfolding(fixed_machine::specs::Rows::exact, fixed_script::specs::Offered::is_offered))]

use fixed_agree::forms::{
    Forms, Shifts, add_prod, add_signed, add_unsigned, binary, by_integer, mul_acc, mul_add, shl,
    shr, sub_signed, sub_unsigned, unary, unary_signed,
};
use fixed_machine::Answer;
use fixed_num::{FixedI8, FixedU8};
use fixed_script::Op;
use std::process::Abort;

/// The forms of a number that does not fit, by what is left of it and the nearest number that fits.
fn of_unfit(left: i128, nearest: i128) -> Forms {
    Forms {
        checked: Answer::Absent,
        overflowing: Answer::Flagged(left, true),
        wrapping: Answer::Bits(left),
        saturating: Answer::Bits(nearest),
    }
}

/// Asserts that in each row the forms found are those of a number that does not fit, by what is left of it and the
/// nearest number that fits.
fn all_unfit(rt: &impl Abort, rows: &[(&str, Forms, i128, i128)]) {
    for (what, found, left, nearest) in rows {
        assert!(rt; *found == of_unfit(*left, *nearest), "{what}");
    }
}

/// The forms of a shift by the width or more, by the number moved by what the places are modulo the width.
fn of_far_shift(moved: i128) -> Shifts {
    Shifts {
        checked: Answer::Absent,
        overflowing: Answer::Flagged(moved, true),
        wrapping: Answer::Bits(moved),
    }
}

#[test]
fn one_number(rt: HostRuntime) {
    let least = FixedI8::<4> { bits: -128 };
    let half = FixedI8::<7> { bits: 64 };
    all_unfit(
        &rt,
        &[
            ("negated", unary(Op::Neg, least), -128, 127),
            ("magnitude", unary_signed(Op::Abs, least), -128, 127),
            ("sign", unary_signed(Op::Signum, half), -128, 127),
        ],
    );
}

#[test]
fn more_operands(rt: HostRuntime) {
    let (least, unit) = (FixedI8::<8> { bits: -128 }, FixedI8::<8> { bits: -1 });
    let number = FixedI8::<4> { bits: -120 };
    let (factor, term) = (FixedI8::<4> { bits: 48 }, FixedI8::<4> { bits: 127 });
    let (sum, four) = (FixedI8::<4> { bits: 100 }, FixedI8::<4> { bits: 64 });
    all_unfit(
        &rt,
        &[
            ("quotient", binary(Op::Div, least, unit), 0, 127),
            (
                "remainder",
                by_integer(Op::RemEuclidInt, number, 20),
                -56,
                127,
            ),
            ("multiply-add", mul_add(term, factor, term), -4, 127),
            ("sum", add_prod(sum, four, four), 100, 127),
            ("sum that is stored", mul_acc(sum, four, four), 100, 127),
        ],
    );
}

#[test]
fn mixed_signs(rt: HostRuntime) {
    let (ten, most) = (FixedU8::<4> { bits: 10 }, FixedU8::<4> { bits: 250 });
    let (hundred, below) = (FixedI8::<4> { bits: 100 }, FixedI8::<4> { bits: -100 });
    let (addend, twenty) = (FixedU8::<4> { bits: 100 }, FixedI8::<4> { bits: -20 });
    all_unfit(
        &rt,
        &[
            ("10 plus -20", add_signed(ten, twenty), 246, 0),
            ("250 less -20", sub_signed(most, twenty), 14, 255),
            ("100 plus 100", add_unsigned(hundred, addend), -56, 127),
            ("-100 less 100", sub_unsigned(below, addend), 56, -128),
        ],
    );
}

#[test]
fn far_shifts(rt: HostRuntime) {
    let (three, five) = (FixedI8::<4> { bits: 3 }, FixedI8::<4> { bits: -5 });
    assert!(rt; shl(three, 9) == of_far_shift(6));
    assert!(rt; shr(five, 9) == of_far_shift(-3));
}
