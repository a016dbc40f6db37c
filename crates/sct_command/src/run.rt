//! The verb `run`.

ghost use Rattle.std.specs.Prelude.{◌≡◌, ◌+◌, ℕ, List, IfErr, OnOk};
ghost use Rattle.sc_values.specs.Streams.{IsNotReadBehind};
ghost use Rattle.sct_command.specs.Answer.{PlaysWhole, RefusesPlaying, RefusesRun};
ghost use Rattle.sct_command.specs.Failing.{files_failed, reads_failed, writes_failed};
ghost use Rattle.trace_player.specs.Trace.{Good, Plays};

use crate::fault::Fault;
use command_files::{Files, load_verified};
use command_words::Workers;
use ruled_runs::cause_met;
use sc_values::{Sink, Source};
use std::alloc::Global;
use std::marker::Brand;
use std::sync::Wait;
use std::thread::Threads;
use trace_lines::{Lent, OfInput, Recent};
use trace_player::play;
use verifier::Verified;
use worker_pool::NoGate;

// Plays an input by an image, and gives it back. Where words are wanted, the lines that were read last are kept, and so
// it is known what was met on one that is refused.
fn play_told<'a, T: Threads + Wait + Sync, R: Source, W: Sink, N: OfInput>(
    rt: &T,
    alloc: Global,
    image: &Verified,
    workers: Workers,
    wanted: bool,
    input: &'a mut R,
    output: &mut W,
) -> (Result<(), Fault>, &'a mut R)
    requires name { input.ghost_name ≡ N.name }
    requires start { R.to_come input.now ≡ N.start }
    ensures name { result.1.ghost_name ≡ input.entry.ghost_name }
    ensures done { OnOk result.0 ((out : List (List ℕ)) × Plays image.now
        (R.to_come input.entry.now) (W.taken output.old) (W.taken output.new) out Good) }
    ensures refused { IfErr result.0 (RefusesPlaying image.now
        (R.to_come input.entry.now) (W.taken output.old) (W.taken output.new)) }
    ensures none_read { OnOk result.0 (R.failures result.1.now ≡ R.failures input.entry.now) }
    ensures read { IfErr result.0 (λ fault. R.failures result.1.now
        ≡ R.failures input.entry.now + reads_failed fault) }
    ensures end { IsNotReadBehind (R.progress input.entry.now) (R.progress result.1.now) }
    ensures none_failed { OnOk result.0 (W.failures output.new ≡ W.failures output.old) }
    ensures failed { IfErr result.0 (λ fault. W.failures output.new ≡ W.failures output.old + writes_failed fault) }
    ensures missed { IfErr result.0 (λ fault. files_failed fault ≡ 0) }
{
    let lent = Lent { source: input };
    let mut recent: Recent<'a, R, N> = Recent::of(alloc, lent, wanted);
    let number = workers.number;
    let played = match play(rt, alloc, image, &mut recent, output, number, &NoGate) {
        Ok(_) => Ok(()),
        Err(fault) => Err(Fault::Play(fault, cause_met(alloc, false, image, &recent, fault))),
    };
    let Lent { source } = recent.lent();
    (played, source)
}

/// Plays the input by the image in this file, by so many workers; where words are `wanted`, a fault of a line tells
/// what was met there. Err: there is no valid image in the file; or why the input was not played to its end.
pub(crate) fn run<T: Threads + Wait + Sync, F: Files, R: Source, W: Sink>(
    rt: &T,
    alloc: Global,
    name: &str,
    workers: Workers,
    wanted: bool,
    files: &mut F,
    input: &mut R,
    output: &mut W,
) -> Result<(), Fault>
    ensures done { OnOk result (PlaysWhole (F.contents files.old) name.now
        (R.to_come input.old) (W.taken output.old) (W.taken output.new)) }
    ensures refused { IfErr result (RefusesRun (F.contents files.old) name.now
        (R.to_come input.old) (W.taken output.old) (W.taken output.new)) }
    ensures none_read { OnOk result (R.failures input.new ≡ R.failures input.old) }
    ensures read { IfErr result (λ fault. R.failures input.new ≡ R.failures input.old + reads_failed fault) }
    ensures end { IsNotReadBehind (R.progress input.old) (R.progress input.new) }
    ensures none_failed { OnOk result (W.failures output.new ≡ W.failures output.old) }
    ensures failed { IfErr result (λ fault. W.failures output.new ≡ W.failures output.old + writes_failed fault) }
    ensures files { F.contents files.new ≡ F.contents files.old }
    ensures none_missed { OnOk result (F.failures files.new ≡ F.failures files.old) }
    ensures missed { IfErr result (λ fault. F.failures files.new ≡ F.failures files.old + files_failed fault) }
{
    let image = load_verified(alloc, files, name)?;
    let (played, _given_back) = play_told::<T, R, W, Brand>(
        rt,
        alloc,
        image.get(),
        workers,
        wanted,
        input,
        output,
    );
    played
}
