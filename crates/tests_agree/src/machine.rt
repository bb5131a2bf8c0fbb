//! A caller that knows what the machine answers by the agreement alone.

ghost use Rattle.std.specs.Prelude.{true};
ghost use Rattle.fixed_script.specs.Offered.{is_offered};
ghost use Rattle.fixed_agree.specs.Agreement.{MachineAnswers, two_operands};

use fixed_agree::checked;
use fixed_machine::Answer;
use fixed_num::FixedI32;
use fixed_script::{Op, Policy};

/// What the machine answers to a checked sum of registers that hold the numbers, without a machine.
#[tactic(auto, unfolding(fixed_script::specs::Offered::is_offered))]
pub fn checked_sum(a: FixedI32<16>, b: FixedI32<16>) -> Answer
    ensures { MachineAnswers true 32 Policy.Checked Op.Add (two_operands a.bits b.bits 16) result }
{
    checked::binary(Op::Add, a, b)
}
