//! The calculator as a library: one room for many scripts.

ghost use Rattle.std.specs.Prelude.{◌≡◌, IfErr, OnOk, Some};
ghost use Rattle.fixed_calc.specs.Meaning.{meaning};
ghost use Rattle.fixed_calc.specs.Runs.{Fault, Output};

use fixed_calc::{Cause, Room, ScriptFault, run_in};
use std::alloc::Global;

/// Runs a script in the room and leaves its answers there. If the room does not suffice for the script, a larger one is
/// allocated and replaces it. Fails with the first cause of the script, or if memory runs out.
pub fn run_again(alloc: Global, script: &[u8], room: &mut Room) -> Result<(), ScriptFault>
    ensures ok { OnOk result (meaning script.now ≡ Output room.new.answers) }
    ensures cause { (cause : Cause) → result ≡ Err (ScriptFault.Script cause)
        → meaning script.now ≡ Fault cause }
{
    if !room.suffices(script) {
        match Room::for_script(alloc, script) {
            Ok(larger) => *room = larger,
            Err(_) => return Err(ScriptFault::Memory),
        }
    }
    match run_in(script, room) {
        Ok(()) => Ok(()),
        Err(cause) => Err(ScriptFault::Script(cause)),
    }
}
