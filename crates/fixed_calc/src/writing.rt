//! Writing to a sink until all is taken.

ghost use Rattle.std.specs.Prelude.{MatchResult, ℕ, length};
ghost use Rattle.std.specs.Io.KnownBytes.{Appends};
ghost use Rattle.fixed_calc.specs.Calls.{TookBytes, WritesToRefusal};
ghost use Rattle.fixed_stream.specs.Outside.{CountsAfterWrite};
ghost use Rattle.fixed_calc.specs.Headline.{AppendsProperPrefix};

use fixed_stream::{Refusal, Sink};

/// Offers all bytes that remain, until none do or a write is refused.
pub(crate) fn write_all<K: Sink>(bytes: &[u8], sink: &mut K) -> Result<(), Refusal>
    ensures bytes { MatchResult result
        (λ _. Appends (K.state sink.old).taken (K.state sink.new).taken bytes.now)
        (λ _. AppendsProperPrefix (K.state sink.old).taken (K.state sink.new).taken bytes.now) }
    ensures counts { CountsAfterWrite (K.state sink.old) (K.state sink.new) result }
    ensures writes { MatchResult result
        (λ _. (calls : ℕ) × TookBytes K.write_gives bytes.now calls (length bytes.now) sink.old sink.new)
        (λ refusal. WritesToRefusal K.write_gives bytes.now refusal sink.old sink.new) }
{
    let mut at = 0;
    while at < bytes.len() {
        match sink.write(&bytes[at..]) {
            Ok(count) => at += count,
            Err(refusal) => return Err(refusal),
        }
    }
    Ok(())
}
