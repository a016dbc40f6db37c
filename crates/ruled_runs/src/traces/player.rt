//! Playing an input under rules.

ghost use Rattle.std.specs.Prelude.{◌≡◌, ◌≢◌, ◌+◌, ℕ, List, IfOk, IfErr, IsErrOf};
ghost use Rattle.sc_graph.specs.Tick.{Rests};
ghost use Rattle.sc_values.specs.Streams.{IsNotReadBehind};
ghost use Rattle.trace_player.specs.Trace.{Good};
ghost use Rattle.ruled_runs.specs.Trace.{Leaves, Plays};

use crate::traces::place::RunPlace;
use crate::traces::ruled_player::begin;
use crate::traces::rules::Rules;
use sc_values::{Sink, Source};
use std::alloc::Global;
use trace_player::{PlayFault, Streams};
use verifier::Verified;

/// Plays an input to an output as `trace_player::play` does, by the caller's thread alone, under these rules and from
/// this place on. Gives the place behind the last line.
pub fn play_by<S: Source, K: Sink>(
    alloc: Global,
    verified: &Verified,
    rules: Rules,
    from: RunPlace,
    source: &mut S,
    sink: &mut K,
) -> Result<RunPlace, PlayFault>
    requires rests { Rests verified.now.program from.control }
    ensures whole { IfOk result (λ last. (out : List (List ℕ)) × Plays rules verified.now from
        (S.to_come source.old) (K.taken sink.old) (K.taken sink.new) out Good last) }
    ensures rests { IfOk result (λ last. Rests verified.now.program last.control) }
    ensures fault { IfErr result (Leaves rules verified.now from
        (S.to_come source.old) (K.taken sink.old) (K.taken sink.new)) }
    ensures read { IsErrOf result PlayFault.Read
        → S.failures source.new ≡ S.failures source.old + 1 }
    ensures not_read { result ≢ Err PlayFault.Read
        → S.failures source.new ≡ S.failures source.old }
    ensures end { IsNotReadBehind (S.progress source.old) (S.progress source.new) }
    ensures write { IsErrOf result PlayFault.Write
        → K.failures sink.new ≡ K.failures sink.old + 1 }
    ensures not_write { result ≢ Err PlayFault.Write
        → K.failures sink.new ≡ K.failures sink.old }
{
    let mut streams = Streams { source, sink };
    begin(alloc, verified, rules, from, &mut streams)
}
