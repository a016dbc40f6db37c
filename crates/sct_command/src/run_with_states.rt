//! The verb `run` with a chart, whose active states each line tells.

ghost use Rattle.std.specs.Prelude.{◌≡◌, ◌+◌, ℕ, List, IfErr, OnOk};
ghost use Rattle.image_charts.specs.Charts.{state_words};
ghost use Rattle.sc_values.specs.Streams.{IsNotReadBehind};
ghost use Rattle.sct_command.specs.Failing.{files_failed, reads_failed, writes_failed};
ghost use Rattle.sct_command.specs.TellingStates.{PlaysStates, RefusesStates, RefusesWords};
ghost use Rattle.state_traces.specs.Trace.{Plays};
ghost use Rattle.trace_player.specs.Trace.{Good};

use crate::fault::Fault;
use command_files::Files;
use image_charts::{ChartStates, load_states};
use ruled_runs::cause_met;
use sc_values::{Sink, Source};
use state_traces::play_with;
use std::alloc::Global;
use std::marker::Brand;
use trace_lines::{Lent, OfInput, Recent};
use verifier::Verified;

// Plays an input by an image with these states of its chart, and gives it back. Where words are wanted, the lines that
// were read last are kept, and so it is known what was met on one that is refused.
fn play_states<'a, R: Source, W: Sink, N: OfInput>(
    alloc: Global,
    image: &Verified,
    states: &ChartStates,
    wanted: bool,
    input: &'a mut R,
    output: &mut W,
) -> (Result<(), Fault>, &'a mut R)
    requires name { input.ghost_name ≡ N.name }
    requires start { R.to_come input.now ≡ N.start }
    ensures name { result.1.ghost_name ≡ input.entry.ghost_name }
    ensures done { OnOk result.0 ((out : List (List ℕ)) × Plays (state_words states.now) image.now
        (R.to_come input.entry.now) (W.taken output.old) (W.taken output.new) out Good) }
    ensures refused { IfErr result.0 (RefusesWords (state_words states.now) image.now
        (R.to_come input.entry.now) (W.taken output.old) (W.taken output.new)) }
    ensures none_read { OnOk result.0 (R.failures result.1.now ≡ R.failures input.entry.now) }
    ensures read { IfErr result.0 (λ fault. R.failures result.1.now
        ≡ R.failures input.entry.now + reads_failed fault) }
    ensures end { IsNotReadBehind (R.progress input.entry.now) (R.progress result.1.now) }
    ensures none_failed { OnOk result.0 (W.failures output.new ≡ W.failures output.old) }
    ensures failed { IfErr result.0 (λ fault. W.failures output.new ≡ W.failures output.old + writes_failed fault) }
    ensures missed { IfErr result.0 (λ fault. files_failed fault ≡ 0) }
{
    let lent = Lent { source: input };
    let mut recent: Recent<'a, R, N> = Recent::of(alloc, lent, wanted);
    let played = match play_with(alloc, image, states, &mut recent, output) {
        Ok(_) => Ok(()),
        Err(fault) => Err(Fault::Play(fault, cause_met(alloc, false, image, &recent, fault))),
    };
    let Lent { source } = recent.lent();
    (played, source)
}

// Plays an input by an image with these states of its chart.
fn play_beside<R: Source, W: Sink>(
    alloc: Global,
    image: &Verified,
    states: &ChartStates,
    wanted: bool,
    input: &mut R,
    output: &mut W,
) -> Result<(), Fault>
    ensures done { OnOk result ((out : List (List ℕ)) × Plays (state_words states.now) image.now
        (R.to_come input.old) (W.taken output.old) (W.taken output.new) out Good) }
    ensures refused { IfErr result (RefusesWords (state_words states.now) image.now
        (R.to_come input.old) (W.taken output.old) (W.taken output.new)) }
    ensures none_read { OnOk result (R.failures input.new ≡ R.failures input.old) }
    ensures read { IfErr result (λ fault. R.failures input.new ≡ R.failures input.old + reads_failed fault) }
    ensures end { IsNotReadBehind (R.progress input.old) (R.progress input.new) }
    ensures none_failed { OnOk result (W.failures output.new ≡ W.failures output.old) }
    ensures failed { IfErr result (λ fault. W.failures output.new ≡ W.failures output.old + writes_failed fault) }
    ensures missed { IfErr result (λ fault. files_failed fault ≡ 0) }
{
    let (played, _given_back) = play_states::<R, W, Brand>(
        alloc, image, states, wanted, input, output,
    );
    played
}

/// Plays the input by the image in one file, by the caller's thread alone; each line of output tells which states are
/// active of the chart in the other file, from which the image was compiled. Where words are `wanted`, a fault of a
/// line tells what was met there. Err: there is no valid image in the first file, or the second has not its chart; or
/// why the input was not played to its end.
pub(crate) fn run_with_states<F: Files, R: Source, W: Sink>(
    alloc: Global,
    name: &str,
    chart: &str,
    wanted: bool,
    files: &mut F,
    input: &mut R,
    output: &mut W,
) -> Result<(), Fault>
    ensures done { OnOk result (PlaysStates (F.contents files.old) name.now chart.now
        (R.to_come input.old) (W.taken output.old) (W.taken output.new)) }
    ensures refused { IfErr result (RefusesStates (F.contents files.old) name.now chart.now
        (R.to_come input.old) (W.taken output.old) (W.taken output.new)) }
    ensures none_read { OnOk result (R.failures input.new ≡ R.failures input.old) }
    ensures read { IfErr result (λ fault. R.failures input.new ≡ R.failures input.old + reads_failed fault) }
    ensures end { IsNotReadBehind (R.progress input.old) (R.progress input.new) }
    ensures none_failed { OnOk result (W.failures output.new ≡ W.failures output.old) }
    ensures failed { IfErr result (λ fault. W.failures output.new ≡ W.failures output.old + writes_failed fault) }
    ensures files { F.contents files.new ≡ F.contents files.old }
    ensures none_missed { OnOk result (F.failures files.new ≡ F.failures files.old) }
    ensures missed { IfErr result (λ fault. F.failures files.new ≡ F.failures files.old + files_failed fault) }
{
    let (image, states) = load_states(alloc, name, chart, files)?;
    play_beside(alloc, image.get(), states.get(), wanted, input, output)
}
