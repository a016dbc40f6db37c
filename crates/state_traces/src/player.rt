//! Playing an input.

ghost use Rattle.std.specs.Prelude.{◌≡◌, ◌≢◌, ◌+◌, min, ℕ, List, length, IfOk, IfErr, IsErrOf};
ghost use Rattle.sc_values.specs.Streams.{IsNotReadBehind};
ghost use Rattle.trace_player.specs.Trace.{Good, greatest};
ghost use Rattle.state_traces.specs.Trace.{Leaves, Plays};

use crate::telling::begin;
use crate::words::Words;
use sc_values::{Sink, Source};
use std::alloc::Global;
use trace_player::{PlayFault, Streams};
use verifier::Verified;

/// Plays an input to an output as `trace_player::play` does, by the caller's thread alone; behind the number of its
/// tick each line has the words for the configuration in which the tick ended. Gives the number of ticks.
pub fn play_with<S: Source, K: Sink, W: Words>(
    alloc: Global,
    verified: &Verified,
    words: &W,
    source: &mut S,
    sink: &mut K,
) -> Result<u64, PlayFault>
    ensures whole { IfOk result (λ ticks. (out : List (List ℕ)) × (ticks ≡ min (length out) greatest)
        × Plays (W.words words.now) verified.now
        (S.to_come source.old) (K.taken sink.old) (K.taken sink.new) out Good) }
    ensures fault { IfErr result (Leaves (W.words words.now) verified.now
        (S.to_come source.old) (K.taken sink.old) (K.taken sink.new)) }
    ensures read { IsErrOf result PlayFault.Read
        → S.failures source.new ≡ S.failures source.old + 1 }
    ensures not_read { result ≢ Err PlayFault.Read
        → S.failures source.new ≡ S.failures source.old }
    ensures end { IsNotReadBehind (S.progress source.old) (S.progress source.new) }
    ensures write { IsErrOf result PlayFault.Write
        → K.failures sink.new ≡ K.failures sink.old + 1 }
    ensures not_write { result ≢ Err PlayFault.Write
        → K.failures sink.new ≡ K.failures sink.old }
{
    let mut streams = Streams { source, sink };
    begin(alloc, verified, words, &mut streams)
}
