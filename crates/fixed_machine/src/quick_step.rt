//! A line that the fast path read, run on the registers. It returns an answer only if the line has no cause. For any
//! other line, the general step follows, which names the cause.

ghost use Rattle.std.specs.Prelude.{◌≡◌, ◌<◌, ◌≤◌, length, Some, None, Ok, IfSome, true, false};
ghost use Rattle.std.specs.List.{All};
ghost use Rattle.fixed_word.specs.Format.{fits};
ghost use Rattle.fixed_script.specs.Names.{arity};
ghost use Rattle.fixed_script.specs.Text.{Apply};
ghost use Rattle.fixed_text.specs.declared.names.WordName.{WordName};
ghost use Rattle.fixed_text.specs.Words.{is_signed as signed, width as width_in};
ghost use Rattle.fixed_machine.specs.Machine.{cell_at as cell_in, is_mismatched as mismatched};
ghost use Rattle.fixed_machine.specs.Step.{IsCell, IsStepOfLine, cell_of, cells_of, state_in};
ghost use Rattle.fixed_machine.specs.inside.Quick.{quick_number, quick_operands, script_line_of_quick};
ghost use Rattle.fixed_machine.specs.inside.QuickSteps.{AreEqual, IsSecond, fractions_in};
ghost use Rattle.fixed_machine.specs.inside.Stepping.{IsAnswerOfLine, whole_answer};

use crate::answer::SignedAnswer;
use crate::projected::answer_as;
use crate::quick::{Applied, QuickLine};
use crate::register::{OperandRegisters, Register, Signed};
use crate::stepping::{is_offered, store};
use fixed_script::{Arity, Op, arity_of};
use fixed_text::WordName;
use fixed_word::{Side, Word, outcome_of};

/// Returns whether the number of the line is a value of the word.
#[inline(always)]
fn is_number<T: Word>(line: QuickLine) -> bool
    ensures { result ≡ fits T.SIGNED T.BITS (quick_number line) }
{
    outcome_of::<T>(line.below_zero, u128::from(line.magnitude)).side == Side::Fits
}

/// Returns whether the operands have the numbers of fraction bits that the operation requires. If all registers have one
/// number of fraction bits, as `one_fraction` says, they have.
#[inline(always)]
#[tactic(auto, unfolding(crate::specs::Machine::is_mismatched))]
fn is_matched(registers: &[Register], one_fraction: bool, line: QuickLine, applied: Applied) -> bool
    requires one_fraction { one_fraction ≡ true → AreEqual (fractions_in (cells_of registers.now)) }
    requires dest { line.dest < length registers.now }
    requires a { line.a < length registers.now }
    requires b { line.b < length registers.now }
    requires c { line.c < length registers.now }
    ensures { result ≡ true → (word : WordName) → mismatched (state_in word (cells_of registers.now))
        (Apply line.dest applied.policy applied.op (quick_operands (arity applied.op) line) None) ≡ false }
{
    if one_fraction {
        return true;
    }
    let fraction = registers[line.dest].fraction;
    registers[line.a].fraction == fraction
        && match applied.op {
            Op::AddProd => true,
            Op::MulAdd => registers[line.c].fraction == fraction,
            _ => registers[line.b].fraction == fraction,
        }
}

/// Returns the second operand: a register, or the number of the line, if it is a value of the word.
#[inline(always)]
fn second_of<T: Word>(registers: &[Register], line: QuickLine, op: Op) -> Option<Register>
    requires b { line.b < length registers.now }
    ensures { IfSome result
        (λ second. IsSecond T.SIGNED T.BITS (cells_of registers.now) line (arity op) (cell_of second)) }
{
    match arity_of(op) {
        Arity::ByInteger => {
            if is_number::<T>(line) {
                Some(Register {
                    magnitude: line.magnitude,
                    fraction: 0,
                    below_zero: line.below_zero,
                })
            } else {
                None
            }
        }
        Arity::Unary | Arity::Binary | Arity::Ternary => Some(registers[line.b]),
    }
}

/// Returns the answer of a line that applies an operation. `None` decides nothing: the line may have a cause.
#[inline(always)]
fn answer_of_applied<T: Word>(
    word: WordName,
    registers: &[Register],
    one_fraction: bool,
    line: QuickLine,
    applied: Applied,
    number: u64,
) -> Option<SignedAnswer>
    requires signed { T.SIGNED ≡ signed word }
    requires bits { T.BITS ≡ width_in word }
    requires cells { All (IsCell word) (cells_of registers.now) }
    requires one_fraction { one_fraction ≡ true → AreEqual (fractions_in (cells_of registers.now)) }
    requires dest { line.dest < length registers.now }
    requires a { line.a < length registers.now }
    requires b { line.b < length registers.now }
    requires c { line.c < length registers.now }
    ensures { IfSome result (λ answer. IsAnswerOfLine (state_in word (cells_of registers.now))
        (Apply line.dest applied.policy applied.op (quick_operands (arity applied.op) line) None) number (Ok (whole_answer answer))) }
{
    if !is_offered(word, applied.policy, applied.op) {
        return None;
    }
    let b = match second_of::<T>(registers, line, applied.op) {
        Some(second) => second,
        None => return None,
    };
    if !is_matched(registers, one_fraction, line, applied) {
        return None;
    }
    let taken = OperandRegisters {
        a: registers[line.a],
        b,
        c: registers[line.c],
    };
    let Ok(answer) = answer_as::<T>(applied.policy, applied.op, None, &taken, number) else {
        return None;
    };
    Some(answer)
}

/// Returns the answer of a line. `None` decides nothing: the line may have a cause.
#[inline(always)]
fn quick_answer<T: Word>(
    word: WordName,
    registers: &[Register],
    one_fraction: bool,
    line: QuickLine,
    number: u64,
) -> Option<SignedAnswer>
    requires signed { T.SIGNED ≡ signed word }
    requires bits { T.BITS ≡ width_in word }
    requires cells { All (IsCell word) (cells_of registers.now) }
    requires one_fraction { one_fraction ≡ true → AreEqual (fractions_in (cells_of registers.now)) }
    requires dest { line.dest < length registers.now }
    requires a { line.a < length registers.now }
    requires b { line.b < length registers.now }
    requires c { line.c < length registers.now }
    ensures { IfSome result (λ answer. IsAnswerOfLine (state_in word (cells_of registers.now))
        (script_line_of_quick line) number (Ok (whole_answer answer))) }
{
    match line.applied {
        None => {
            if is_number::<T>(line) {
                Some(SignedAnswer::Bits(Signed {
                    below_zero: line.below_zero,
                    magnitude: line.magnitude,
                }))
            } else {
                None
            }
        }
        Some(applied) => answer_of_applied::<T>(
            word,
            registers,
            one_fraction,
            line,
            applied,
            number,
        ),
    }
}

/// Runs one line on the registers and returns its answer. If it returns `None`, the line may have a cause, and the
/// registers have not changed. The word is given by its name and by its type. If `one_fraction`, all registers have one
/// number of fraction bits.
#[inline(always)]
pub(crate) fn quick_step<T: Word>(
    word: WordName,
    registers: &mut [Register],
    one_fraction: bool,
    line: QuickLine,
    number: u64,
) -> Option<SignedAnswer>
    requires signed { T.SIGNED ≡ signed word }
    requires bits { T.BITS ≡ width_in word }
    requires cells { All (IsCell word) (cells_of registers.old) }
    requires one_fraction { one_fraction ≡ true → AreEqual (fractions_in (cells_of registers.old)) }
    requires dest { line.dest < length registers.old }
    requires a { line.a < length registers.old }
    requires b { line.b < length registers.old }
    requires c { line.c < length registers.old }
    ensures some { IfSome result (λ answer. IsStepOfLine (state_in word (cells_of registers.old))
        (Some (script_line_of_quick line)) number (Ok (whole_answer answer)) (cells_of registers.new)) }
    ensures none { result ≡ None → cells_of registers.new ≡ cells_of registers.old }
    ensures kept { All (IsCell word) (cells_of registers.new) }
{
    let answer = match quick_answer::<T>(word, registers, one_fraction, line, number) {
        Some(answer) => answer,
        None => return None,
    };
    match answer {
        SignedAnswer::Absent => Some(answer),
        SignedAnswer::Bits(bits) => {
            store(registers, line.dest, bits);
            Some(answer)
        }
        SignedAnswer::Flagged(bits, _) => {
            store(registers, line.dest, bits);
            Some(answer)
        }
    }
}
