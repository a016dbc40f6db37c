//! Playing an input from a place on.

ghost use Rattle.std.specs.Prelude.{◌≡◌, ◌+◌, ℕ, List, IfErr, IfOk, OnOk};
ghost use Rattle.sc_graph.specs.Tick.{Rests};
ghost use Rattle.sc_values.specs.Streams.{IsNotReadBehind};
ghost use Rattle.trace_player.specs.Trace.{Good};
ghost use Rattle.ruled_runs.specs.Trace.{Plays};
ghost use Rattle.ruled_runs.specs.Failing.{files_failed, reads_failed, writes_failed};
ghost use Rattle.ruled_runs.specs.Inside.Held.{RefusesPlaying};

use crate::fault::RuledFault;
use crate::met::cause_met;
use crate::traces::{Rules, RunPlace, play_by};
use sc_values::{Sink, Source};
use std::alloc::Global;
use std::marker::Brand;
use trace_lines::{Lent, OfInput, Recent};
use verifier::Verified;

// Plays an input by an image, and gives it back. Where words are wanted, the lines that were read last are kept, and so
// it is known what was met on one that is refused.
fn play_told<'a, R: Source, W: Sink, N: OfInput>(
    alloc: Global,
    image: &Verified,
    rules: Rules,
    from: RunPlace,
    wanted: bool,
    input: &'a mut R,
    output: &mut W,
) -> (Result<RunPlace, RuledFault>, &'a mut R)
    requires rests { Rests image.now.program from.control }
    requires name { input.ghost_name ≡ N.name }
    requires start { R.to_come input.now ≡ N.start }
    ensures name { result.1.ghost_name ≡ input.entry.ghost_name }
    ensures done { IfOk result.0 (λ last. (out : List (List ℕ)) × Plays rules image.now from
        (R.to_come input.entry.now) (W.taken output.old) (W.taken output.new) out Good last) }
    ensures refused { IfErr result.0 (RefusesPlaying rules image.now from
        (R.to_come input.entry.now) (W.taken output.old) (W.taken output.new)) }
    ensures none_read { OnOk result.0 (R.failures result.1.now ≡ R.failures input.entry.now) }
    ensures read { IfErr result.0 (λ fault. R.failures result.1.now
        ≡ R.failures input.entry.now + reads_failed fault) }
    ensures end { IsNotReadBehind (R.progress input.entry.now) (R.progress result.1.now) }
    ensures none_failed { OnOk result.0 (W.failures output.new ≡ W.failures output.old) }
    ensures failed { IfErr result.0 (λ fault. W.failures output.new ≡ W.failures output.old + writes_failed fault) }
    ensures missed { IfErr result.0 (λ fault. files_failed fault ≡ 0) }
{
    let lent = Lent { source: input };
    let mut recent: Recent<'a, R, N> = Recent::of(alloc, lent, wanted);
    let played = match play_by(alloc, image, rules, from, &mut recent, output) {
        Ok(last) => Ok(last),
        Err(fault) => Err(RuledFault::Play(
            fault,
            cause_met(alloc, rules.strict, image, &recent, fault),
        )),
    };
    let Lent { source } = recent.lent();
    (played, source)
}

/// Plays an input by an image from a place on, under these rules. Gives the place behind it.
pub(crate) fn play_from<R: Source, W: Sink>(
    alloc: Global,
    image: &Verified,
    rules: Rules,
    from: RunPlace,
    wanted: bool,
    input: &mut R,
    output: &mut W,
) -> Result<RunPlace, RuledFault>
    requires rests { Rests image.now.program from.control }
    ensures done { IfOk result (λ last. (out : List (List ℕ)) × Plays rules image.now from
        (R.to_come input.old) (W.taken output.old) (W.taken output.new) out Good last) }
    ensures refused { IfErr result (RefusesPlaying rules image.now from
        (R.to_come input.old) (W.taken output.old) (W.taken output.new)) }
    ensures none_read { OnOk result (R.failures input.new ≡ R.failures input.old) }
    ensures read { IfErr result (λ fault. R.failures input.new ≡ R.failures input.old + reads_failed fault) }
    ensures end { IsNotReadBehind (R.progress input.old) (R.progress input.new) }
    ensures none_failed { OnOk result (W.failures output.new ≡ W.failures output.old) }
    ensures failed { IfErr result (λ fault. W.failures output.new ≡ W.failures output.old + writes_failed fault) }
    ensures missed { IfErr result (λ fault. files_failed fault ≡ 0) }
{
    let (played, _given_back) = play_told::<R, W, Brand>(
        alloc, image, rules, from, wanted, input, output,
    );
    played
}
