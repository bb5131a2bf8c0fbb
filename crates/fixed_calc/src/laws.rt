//! Laws of the definitions. These functions do nothing: the contract of each is the law.

ghost use Rattle.std.specs.Prelude.{◌≡◌, ◌*◌, ◌+◌, ◌<◌, ◌≤◌, Bool, List, None, Ok, ℕ, ℤ, false, flat_map, length, min, true};
ghost use Rattle.fixed_word.specs.Format.{IsWidth, fits};
ghost use Rattle.fixed_machine.specs.Answers.{answer_text};
ghost use Rattle.fixed_calc.specs.Before.{MeansAsBefore, ReadsOldLines};
ghost use Rattle.fixed_calc.specs.Calls.{ReadsUntil, TookBytes, buffer_size};
ghost use Rattle.fixed_machine.specs.CapLaw.{CapsAlike};
ghost use Rattle.fixed_calc.specs.Demo.{demo_answers, demo_text};
ghost use Rattle.fixed_text.specs.Runs.{Output};
ghost use Rattle.fixed_machine.specs.Meaning.{meaning, script_run, start};
ghost use Rattle.fixed_stream.specs.Memory.{IsCallsFor, MemoryInput, MemoryOutput};
ghost use Rattle.fixed_calc.specs.PolicyLaws.{WhereItFits, WhereItMisses};
ghost use Rattle.fixed_stream.specs.Outside.{last_count};
ghost use Rattle.fixed_calc.specs.Spelled.{KeepsMeaning};
ghost use Rattle.fixed_calc.specs.Widening.{IsWider, rows_fit, script_of, with_word};
ghost use Rattle.fixed_script.specs.Text.{ScriptHeader};
ghost use Rattle.fixed_text.specs.declared.names.WordName.{WordName};
ghost use Rattle.fixed_word.specs.Pieces.{pieces};

pub use fixed_script::laws::{reading_law, text_law};
use fixed_stream::{MemorySink, MemorySource, Sink, Source};

/// If `2^64` stands for each number of `2^64` or more, neither the cause of a line nor its move changes.
pub fn cap_law()
    ensures { CapsAlike }
{}

/// The output of a script is at most twice as long as the script, so the room that is made for it suffices.
pub fn output_law()
    ensures { (script bytes : List ℕ)
        → meaning script ≡ Output bytes → length bytes ≤ 2 * length script }
{}

/// If a number fits, checked, saturating, wrapping and overflowing all return it, as strict does. If it does not fit,
/// checked returns nothing, saturating the nearest number that fits, wrapping the wrapped number, and overflowing the
/// wrapped number with the verdict.
pub fn policy_law()
    ensures fits { (s : Bool) (n : ℕ) (x : ℤ) → IsWidth n → fits s n x ≡ true → WhereItFits s n x }
    ensures misses { (s : Bool) (n : ℕ) (x : ℤ) → fits s n x ≡ false → WhereItMisses s n x }
{}

/// The script of a demonstration has no cause, whatever its number of lines. Its output is the texts of its answers,
/// one for each line.
pub fn demo_law()
    ensures no_cause { (n : ℕ) → (script_run (demo_text n)).cause ≡ None }
    ensures output { (n : ℕ)
        → meaning (demo_text n) ≡ Output (flat_map answer_text (demo_answers n)) }
    ensures one_each { (n : ℕ) → length (demo_answers n) ≡ n }
{}

/// A script has the same output with a wider word of the same sign in its header, if each row that it takes is
/// undefined or fits. So `run_in` on the second script leaves the same bytes. Each script that has an output begins
/// with a header.
pub fn widening_law()
    ensures widens { (header : ScriptHeader) (wide : WordName) (lines bytes : List ℕ)
        → IsWider header.word wide → rows_fit (start header) (pieces lines) ≡ true
        → meaning (script_of header lines) ≡ Output bytes
        → meaning (script_of (with_word wide header) lines) ≡ Output bytes }
    ensures headed { (script bytes : List ℕ) → meaning script ≡ Output bytes
        → (header : ScriptHeader) × ((lines : List ℕ) × (script ≡ script_of header lines)) }
{}

/// If no piece of a script has a space and the name of a rounding before its newline, the script means what it meant
/// before lines could name a rounding.
pub fn before_law()
    ensures meaning { MeansAsBefore }
    ensures lines { ReadsOldLines }
{}

/// A script that is spelled out means what the script means: it has the same output, or the same cause of the same
/// line.
pub fn spelling_law()
    ensures { KeepsMeaning }
{}

/// The number of calls of a run that reads all of a source in memory and writes all to a sink in memory. Each read
/// returns as many bytes of the input as it may, and one more read meets the end. Each write takes as many bytes of the
/// output as it may; an output without bytes has no write.
pub fn calls_law()
    ensures reads { (calls total : ℕ) (source source' : MemoryInput) → 1 ≤ source.most
        → ReadsUntil ⟦<MemorySource as Source>⟧.read_gives calls total (Ok 0) source source'
        → (total ≡ length source.left) × IsCallsFor (min source.most buffer_size) total calls
        × (source.calls + calls < last_count → source'.calls ≡ source.calls + calls + 1) }
    ensures writes { (bytes : List ℕ) (calls : ℕ) (sink sink' : MemoryOutput) → 1 ≤ sink.most
        → TookBytes ⟦<MemorySink as Sink>⟧.write_gives bytes calls (length bytes) sink sink'
        → IsCallsFor sink.most (length bytes) calls
        × (sink.calls + calls ≤ last_count → sink'.calls ≡ sink.calls + calls) }
{}
