//! Four forms of one operation on the same operands, and how their results agree.
#![tactic(auto, unfolding(fixed_script::specs::Offered::is_offered))]

ghost use Rattle.std.specs.Prelude.{◌≡◌, ◌≤◌, ◌%◌, ◌^◌, ◌*ℤ◌, pos, IsSome, None, Some, if◌then◌else◌, is_some, option_map, true, ◌+ℤ◌, ◌-ℤ◌};
ghost use Rattle.fixed_machine.specs.Machine.{row_of};
ghost use Rattle.fixed_script.specs.Offered.{is_offered};
ghost use Rattle.fixed_agree.specs.Agreement.{IsBinary, IsByInteger, IsOfferedOnBoth, IsUnary, one_operand, three_operands, two_operands, with_integer};
ghost use Rattle.fixed_agree.specs.Forms.{FormsAgree, ShiftsAgree};
ghost use Rattle.fixed_kernel.specs.Rows.{exact_add_prod};
ghost use Rattle.fixed_word.specs.Format.{wrap};
ghost use Rattle.fixed_word.specs.Quotient.{floor_quotient};

use crate::answers::{bits_of, bits_or_absent, flagged_of};
use crate::{checked, overflowing, saturating, wrapping};
use fixed_machine::Answer;
use fixed_num::Fixed;
use fixed_policy::{
    Checked, CheckedProducts, CheckedSigned, CheckedUnsigned, Overflowing, OverflowingProducts,
    OverflowingSigned, OverflowingUnsigned, Wrapping, WrappingProducts, WrappingSigned,
    WrappingUnsigned,
};
use fixed_script::{Op, Policy};
use fixed_strict::{SaturatingProducts, SaturatingSigned, SaturatingUnsigned};
use fixed_word::{RawWord, SignedWord, UnsignedWord, Word};

/// The results of four policies on the same operands.
#[derive(Clone, Copy, Debug, PartialEq, Eq)]
pub struct Forms {
    /// The number, or no value.
    pub checked: Answer,
    /// The wrapped number and its verdict.
    pub overflowing: Answer,
    /// The wrapped number.
    pub wrapping: Answer,
    /// The nearest number that fits.
    pub saturating: Answer,
}

/// Runs the forms of an operation on one number that is offered on all words. Precondition: the row is defined.
pub fn unary<T: Word, const F: u32>(op: Op, a: Fixed<T, F>) -> Forms
    requires fraction { F ≤ T.BITS }
    requires arity { IsUnary op }
    requires offered { IsOfferedOnBoth Policy.Overflowing op }
    requires row { IsSome (row_of op (one_operand (T.value a.bits) F)) }
    ensures { FormsAgree T.SIGNED T.BITS (row_of op (one_operand (T.value a.bits) F)) result }
{
    Forms {
        checked: checked::unary(op, a),
        overflowing: overflowing::unary(op, a),
        wrapping: wrapping::unary(op, a),
        saturating: saturating::unary(op, a),
    }
}

/// Runs the forms of an operation on one number that is offered on signed words. Precondition: the row is defined.
pub fn unary_signed<T: SignedWord, const F: u32>(op: Op, a: Fixed<T, F>) -> Forms
    requires fraction { F ≤ T.BITS }
    requires arity { IsUnary op }
    requires offered { is_offered true Policy.Overflowing op ≡ true }
    requires row { IsSome (row_of op (one_operand (T.value a.bits) F)) }
    ensures { FormsAgree T.SIGNED T.BITS (row_of op (one_operand (T.value a.bits) F)) result }
{
    Forms {
        checked: checked::unary_signed(op, a),
        overflowing: overflowing::unary_signed(op, a),
        wrapping: wrapping::unary_signed(op, a),
        saturating: saturating::unary_signed(op, a),
    }
}

/// Runs the forms of an operation on two numbers. Precondition: the row is defined.
pub fn binary<T: Word, const F: u32>(op: Op, a: Fixed<T, F>, b: Fixed<T, F>) -> Forms
    requires fraction { F ≤ T.BITS }
    requires arity { IsBinary op }
    requires offered { is_offered T.SIGNED Policy.Overflowing op ≡ true }
    requires row { IsSome (row_of op (two_operands (T.value a.bits) (T.value b.bits) F)) }
    ensures { FormsAgree T.SIGNED T.BITS
        (row_of op (two_operands (T.value a.bits) (T.value b.bits) F)) result }
{
    Forms {
        checked: checked::binary(op, a, b),
        overflowing: overflowing::binary(op, a, b),
        wrapping: wrapping::binary(op, a, b),
        saturating: saturating::binary(op, a, b),
    }
}

/// Runs the forms of an operation on a number and an integer. Precondition: the row is defined.
pub fn by_integer<T: Word, const F: u32>(op: Op, a: Fixed<T, F>, k: T) -> Forms
    requires fraction { F ≤ T.BITS }
    requires arity { IsByInteger op }
    requires offered { is_offered T.SIGNED Policy.Overflowing op ≡ true }
    requires row { IsSome (row_of op (with_integer (T.value a.bits) (T.value k) F)) }
    ensures { FormsAgree T.SIGNED T.BITS
        (row_of op (with_integer (T.value a.bits) (T.value k) F)) result }
{
    Forms {
        checked: checked::by_integer(op, a, k),
        overflowing: overflowing::by_integer(op, a, k),
        wrapping: wrapping::by_integer(op, a, k),
        saturating: saturating::by_integer(op, a, k),
    }
}

/// Runs the forms of multiply-add: `a` times `mul`, plus `add`.
pub fn mul_add<T: Word, const F: u32, const G: u32>(
    a: Fixed<T, F>,
    mul: Fixed<T, G>,
    add: Fixed<T, F>,
) -> Forms
    requires { G ≤ T.BITS }
    ensures { FormsAgree T.SIGNED T.BITS (row_of Op.MulAdd
        (three_operands (T.value a.bits) (T.value mul.bits) (T.value add.bits) F G F)) result }
{
    Forms {
        checked: checked::mul_add(a, mul, add),
        overflowing: overflowing::mul_add(a, mul, add),
        wrapping: wrapping::mul_add(a, mul, add),
        saturating: saturating::mul_add(a, mul, add),
    }
}

/// Runs the forms of the sum with a product: `sum` plus `a` times `b`.
pub fn add_prod<T: Word, const F: u32, const A: u32, const B: u32>(
    sum: Fixed<T, F>,
    a: Fixed<T, A>,
    b: Fixed<T, B>,
) -> Forms
    requires fraction { F ≤ T.BITS }
    requires a { A ≤ T.BITS }
    requires b { B ≤ T.BITS }
    ensures { FormsAgree T.SIGNED T.BITS (row_of Op.AddProd
        (three_operands (T.value sum.bits) (T.value a.bits) (T.value b.bits) F A B)) result }
{
    Forms {
        checked: checked::add_prod(sum, a, b),
        overflowing: overflowing::add_prod(sum, a, b),
        wrapping: wrapping::add_prod(sum, a, b),
        saturating: saturating::add_prod(sum, a, b),
    }
}

/// Returns the number, or `None` if nothing was stored.
fn where_stored<T: RawWord, const F: u32>(
    stored: Option<()>,
    number: Fixed<T, F>,
) -> Option<Fixed<T, F>>
    ensures { option_map (λ x. T.value x.bits) result
        ≡ (if is_some stored then Some (T.value number.bits) else None) }
{
    match stored {
        Some(()) => Some(number),
        None => None,
    }
}

/// Runs the forms of an accumulator that adds the product of `a` and `b`, and returns what each form leaves in it.
/// Checked has no value if its call returns `None`.
pub fn mul_acc<T: Word, const F: u32, const A: u32, const B: u32>(
    sum: Fixed<T, F>,
    a: Fixed<T, A>,
    b: Fixed<T, B>,
) -> Forms
    requires fraction { F ≤ T.BITS }
    requires a { A ≤ T.BITS }
    requires b { B ≤ T.BITS }
    ensures { FormsAgree T.SIGNED T.BITS (Some
        (exact_add_prod (T.value sum.bits) (T.value a.bits) (T.value b.bits) F A B)) result }
{
    let (mut checked, mut overflowing, mut wrapping, mut saturating) = (sum, sum, sum, sum);
    let stored = checked.checked_mul_acc(a, b);
    let verdict = overflowing.overflowing_mul_acc(a, b);
    wrapping.wrapping_mul_acc(a, b);
    saturating.saturating_mul_acc(a, b);
    Forms {
        checked: bits_or_absent(where_stored(stored, checked)),
        overflowing: flagged_of((overflowing, verdict)),
        wrapping: bits_of(wrapping),
        saturating: bits_of(saturating),
    }
}

/// Runs the forms of the sum of an unsigned number and a signed one.
pub fn add_signed<T: UnsignedWord, const F: u32>(a: Fixed<T, F>, b: Fixed<T::Signed, F>) -> Forms
    ensures { FormsAgree T.SIGNED T.BITS
        (Some (T.value a.bits +ℤ T.Signed.value b.bits)) result }
{
    Forms {
        checked: bits_or_absent(a.checked_add_signed(b)),
        overflowing: flagged_of(a.overflowing_add_signed(b)),
        wrapping: bits_of(a.wrapping_add_signed(b)),
        saturating: bits_of(a.saturating_add_signed(b)),
    }
}

/// Runs the forms of an unsigned number minus a signed one.
pub fn sub_signed<T: UnsignedWord, const F: u32>(a: Fixed<T, F>, b: Fixed<T::Signed, F>) -> Forms
    ensures { FormsAgree T.SIGNED T.BITS
        (Some (T.value a.bits -ℤ T.Signed.value b.bits)) result }
{
    Forms {
        checked: bits_or_absent(a.checked_sub_signed(b)),
        overflowing: flagged_of(a.overflowing_sub_signed(b)),
        wrapping: bits_of(a.wrapping_sub_signed(b)),
        saturating: bits_of(a.saturating_sub_signed(b)),
    }
}

/// Runs the forms of the sum of a signed number and an unsigned one.
pub fn add_unsigned<T: SignedWord, const F: u32>(a: Fixed<T, F>, b: Fixed<T::Unsigned, F>) -> Forms
    ensures { FormsAgree T.SIGNED T.BITS
        (Some (T.value a.bits +ℤ T.Unsigned.value b.bits)) result }
{
    Forms {
        checked: bits_or_absent(a.checked_add_unsigned(b)),
        overflowing: flagged_of(a.overflowing_add_unsigned(b)),
        wrapping: bits_of(a.wrapping_add_unsigned(b)),
        saturating: bits_of(a.saturating_add_unsigned(b)),
    }
}

/// Runs the forms of a signed number minus an unsigned one.
pub fn sub_unsigned<T: SignedWord, const F: u32>(a: Fixed<T, F>, b: Fixed<T::Unsigned, F>) -> Forms
    ensures { FormsAgree T.SIGNED T.BITS
        (Some (T.value a.bits -ℤ T.Unsigned.value b.bits)) result }
{
    Forms {
        checked: bits_or_absent(a.checked_sub_unsigned(b)),
        overflowing: flagged_of(a.overflowing_sub_unsigned(b)),
        wrapping: bits_of(a.wrapping_sub_unsigned(b)),
        saturating: bits_of(a.saturating_sub_unsigned(b)),
    }
}

/// The results of the three policies that shift on the same number.
#[derive(Clone, Copy, Debug, PartialEq, Eq)]
pub struct Shifts {
    /// The shifted number, or no value.
    pub checked: Answer,
    /// The shifted number, and whether the places are the width or more.
    pub overflowing: Answer,
    /// The shifted number.
    pub wrapping: Answer,
}

/// Runs the forms of a left shift by `by` places, modulo the width.
pub fn shl<T: Word, const F: u32>(a: Fixed<T, F>, by: u32) -> Shifts
    ensures { ShiftsAgree T.BITS by
        (wrap T.SIGNED T.BITS (T.value a.bits *ℤ pos (2 ^ (by % T.BITS)))) result }
{
    Shifts {
        checked: bits_or_absent(a.checked_shl(by)),
        overflowing: flagged_of(a.overflowing_shl(by)),
        wrapping: bits_of(a.wrapping_shl(by)),
    }
}

/// Runs the forms of a right shift by `by` places, modulo the width, rounded down.
pub fn shr<T: Word, const F: u32>(a: Fixed<T, F>, by: u32) -> Shifts
    ensures { ShiftsAgree T.BITS by
        (floor_quotient (T.value a.bits) (2 ^ (by % T.BITS))) result }
{
    Shifts {
        checked: bits_or_absent(a.checked_shr(by)),
        overflowing: flagged_of(a.overflowing_shr(by)),
        wrapping: bits_of(a.wrapping_shr(by)),
    }
}
