//! One piece of a script.

ghost use Rattle.std.specs.Prelude.{◌≡◌, None};
ghost use Rattle.std.specs.List.{All};
ghost use Rattle.fixed_script.specs.Lines.{line_of_piece};
ghost use Rattle.fixed_machine.specs.inside.Stepping.{in_whole};
ghost use Rattle.fixed_machine.specs.Step.{IsCell, IsStepOfLine, cells_of, state_in};

use crate::answer::SignedAnswer;
use crate::cause::Cause;
use crate::register::Register;
use crate::stepping::step_registers;
use fixed_script::line_of_piece;
use fixed_text::WordName;

/// Runs one piece on the registers. Returns its answer, or its cause, which leaves the registers unchanged.
pub(crate) fn read_and_step(
    word: WordName,
    registers: &mut [Register],
    piece: &[u8],
    number: u64,
) -> Result<SignedAnswer, Cause>
    requires { All (IsCell word) (cells_of registers.old) }
    ensures tells { IsStepOfLine (state_in word (cells_of registers.old))
        (line_of_piece piece.now) number (in_whole result) (cells_of registers.new) }
    ensures kept { All (IsCell word) (cells_of registers.new) }
{
    match line_of_piece(piece) {
        Some(line) => step_registers(word, registers, &line, number),
        None => Err(Cause::Syntax(number)),
    }
}
