//! A run under rules.

ghost use Rattle.std.specs.Prelude.{◌≡◌, ◌+◌, IfErr, OnOk, None, Some, option_map};
ghost use Rattle.sc_graph.specs.Tick.{Rests};
ghost use Rattle.sc_values.specs.Streams.{IsNotReadBehind};
ghost use Rattle.ruled_runs.specs.Failing.{files_failed, reads_failed, writes_failed};
ghost use Rattle.ruled_runs.specs.Inside.Held.{PlaysAndKeeps, RefusesKeeping};
ghost use Rattle.ruled_runs.specs.Runs.{RefusesRun, RunsBy};

use crate::fault::RuledFault;
use crate::places::{held_place, keep_place};
use crate::playing::play_from;
use crate::traces::{Rules, RunPlace};
use command_files::{Files, bytes_of, load_verified};
use sc_values::{Sink, Source};
use std::alloc::Global;
use verifier::Verified;

/// The files of a run, by their names.
#[derive(Clone, Copy, PartialEq, Eq)]
pub struct RunFiles<'a> {
    /// The image.
    pub image: &'a str,
    /// The place where it begins, where one is named.
    pub from: Option<&'a str>,
    /// Where its place is kept when it ends, where that is named.
    pub save: Option<&'a str>,
}

// Plays the input by an image from a place on, and keeps the place where it ends.
#[tactic(auto, using(crate::proofs::Ran::not_played, crate::proofs::Ran::not_kept, crate::proofs::Ran::kept))]
fn play_and_keep<F: Files, R: Source, W: Sink>(
    alloc: Global,
    image: &Verified,
    rules: Rules,
    first: RunPlace,
    save: Option<&str>,
    wanted: bool,
    files: &mut F,
    input: &mut R,
    output: &mut W,
) -> Result<(), RuledFault>
    requires rests { Rests image.now.program first.control }
    ensures done { OnOk result (PlaysAndKeeps rules image.now first (F.contents files.old) (F.contents files.new)
        (option_map (λ name. name.now) save.entry) (R.to_come input.old) (W.taken output.old) (W.taken output.new)) }
    ensures refused { IfErr result (RefusesKeeping rules image.now first (F.contents files.old) (F.contents files.new)
        (option_map (λ name. name.now) save.entry) (R.to_come input.old) (W.taken output.old) (W.taken output.new)) }
    ensures none_read { OnOk result (R.failures input.new ≡ R.failures input.old) }
    ensures read { IfErr result (λ fault. R.failures input.new ≡ R.failures input.old + reads_failed fault) }
    ensures end { IsNotReadBehind (R.progress input.old) (R.progress input.new) }
    ensures none_failed { OnOk result (W.failures output.new ≡ W.failures output.old) }
    ensures failed { IfErr result (λ fault. W.failures output.new ≡ W.failures output.old + writes_failed fault) }
    ensures none_missed { OnOk result (F.failures files.new ≡ F.failures files.old) }
    ensures missed { IfErr result (λ fault. F.failures files.new ≡ F.failures files.old + files_failed fault) }
{
    let last = match play_from(alloc, image, rules, first, wanted, input, output) {
        Ok(last) => last,
        Err(fault) => return Err(fault),
    };
    match keep_place(alloc, files, save, &last) {
        Ok(()) => Ok(()),
        Err(fault) => Err(RuledFault::Files(fault)),
    }
}

// Runs the image in a file, from before its first tick on.
#[tactic(auto, using(crate::proofs::Ran::no_image, crate::proofs::Ran::first_ran, crate::proofs::Ran::first_refused))]
fn run_first<F: Files, R: Source, W: Sink>(
    alloc: Global,
    name: &str,
    rules: Rules,
    save: Option<&str>,
    wanted: bool,
    files: &mut F,
    input: &mut R,
    output: &mut W,
) -> Result<(), RuledFault>
    ensures done { OnOk result (RunsBy rules (F.contents files.old) (F.contents files.new) name.now None
        (option_map (λ name. name.now) save.entry) (R.to_come input.old) (W.taken output.old) (W.taken output.new)) }
    ensures refused { IfErr result (RefusesRun rules (F.contents files.old) (F.contents files.new) name.now None
        (option_map (λ name. name.now) save.entry) (R.to_come input.old) (W.taken output.old) (W.taken output.new)) }
    ensures none_read { OnOk result (R.failures input.new ≡ R.failures input.old) }
    ensures read { IfErr result (λ fault. R.failures input.new ≡ R.failures input.old + reads_failed fault) }
    ensures end { IsNotReadBehind (R.progress input.old) (R.progress input.new) }
    ensures none_failed { OnOk result (W.failures output.new ≡ W.failures output.old) }
    ensures failed { IfErr result (λ fault. W.failures output.new ≡ W.failures output.old + writes_failed fault) }
    ensures none_missed { OnOk result (F.failures files.new ≡ F.failures files.old) }
    ensures missed { IfErr result (λ fault. F.failures files.new ≡ F.failures files.old + files_failed fault) }
{
    let image = load_verified(alloc, files, name)?;
    let image = image.get();
    let first = RunPlace::at_first(alloc, image.image().program())?;
    play_and_keep(
        alloc, image, rules, first, save, wanted, files, input, output,
    )
}

// Runs the image in a file, from the place on that another one holds. That is read first, so that it may be written
// when the run ends.
#[tactic(auto, using(crate::proofs::Ran::no_image, crate::proofs::Ran::no_file, crate::proofs::Ran::no_place, crate::proofs::Ran::next_ran, crate::proofs::Ran::next_refused))]
fn run_on<F: Files, R: Source, W: Sink>(
    alloc: Global,
    name: &str,
    from: &str,
    rules: Rules,
    save: Option<&str>,
    wanted: bool,
    files: &mut F,
    input: &mut R,
    output: &mut W,
) -> Result<(), RuledFault>
    ensures done { OnOk result (RunsBy rules (F.contents files.old) (F.contents files.new) name.now
        (Some from.now) (option_map (λ name. name.now) save.entry)
        (R.to_come input.old) (W.taken output.old) (W.taken output.new)) }
    ensures refused { IfErr result (RefusesRun rules (F.contents files.old) (F.contents files.new) name.now
        (Some from.now) (option_map (λ name. name.now) save.entry)
        (R.to_come input.old) (W.taken output.old) (W.taken output.new)) }
    ensures none_read { OnOk result (R.failures input.new ≡ R.failures input.old) }
    ensures read { IfErr result (λ fault. R.failures input.new ≡ R.failures input.old + reads_failed fault) }
    ensures end { IsNotReadBehind (R.progress input.old) (R.progress input.new) }
    ensures none_failed { OnOk result (W.failures output.new ≡ W.failures output.old) }
    ensures failed { IfErr result (λ fault. W.failures output.new ≡ W.failures output.old + writes_failed fault) }
    ensures none_missed { OnOk result (F.failures files.new ≡ F.failures files.old) }
    ensures missed { IfErr result (λ fault. F.failures files.new ≡ F.failures files.old + files_failed fault) }
{
    let bytes = bytes_of(alloc, files, from)?;
    let image = load_verified(alloc, files, name)?;
    let image = image.get();
    let first = match held_place(alloc, image.image().program(), from, &bytes) {
        Ok(first) => first,
        Err(fault) => return Err(fault),
    };
    play_and_keep(
        alloc, image, rules, first, save, wanted, files, input, output,
    )
}

/// Plays the input by the image in a file, by the caller's thread alone, under these rules: from the place on that is
/// in another file, where one is named, and keeps the place where it ends, where that is named. Where words are
/// `wanted`, a fault of a line tells what was met there. Err: there is no valid image in the file, or no place in the
/// other one; why the input was not played to its end; or the place could not be kept, after it was.
pub fn run_by<F: Files, R: Source, W: Sink>(
    alloc: Global,
    rules: Rules,
    names: RunFiles<'_>,
    wanted: bool,
    files: &mut F,
    input: &mut R,
    output: &mut W,
) -> Result<(), RuledFault>
    ensures done { OnOk result (RunsBy rules (F.contents files.old) (F.contents files.new) names.entry.image.now
        (option_map (λ name. name.now) names.entry.from) (option_map (λ name. name.now) names.entry.save)
        (R.to_come input.old) (W.taken output.old) (W.taken output.new)) }
    ensures refused { IfErr result (RefusesRun rules (F.contents files.old) (F.contents files.new) names.entry.image.now
        (option_map (λ name. name.now) names.entry.from) (option_map (λ name. name.now) names.entry.save)
        (R.to_come input.old) (W.taken output.old) (W.taken output.new)) }
    ensures none_read { OnOk result (R.failures input.new ≡ R.failures input.old) }
    ensures read { IfErr result (λ fault. R.failures input.new ≡ R.failures input.old + reads_failed fault) }
    ensures end { IsNotReadBehind (R.progress input.old) (R.progress input.new) }
    ensures none_failed { OnOk result (W.failures output.new ≡ W.failures output.old) }
    ensures failed { IfErr result (λ fault. W.failures output.new ≡ W.failures output.old + writes_failed fault) }
    ensures none_missed { OnOk result (F.failures files.new ≡ F.failures files.old) }
    ensures missed { IfErr result (λ fault. F.failures files.new ≡ F.failures files.old + files_failed fault) }
{
    let RunFiles { image, from, save } = names;
    match from {
        Some(from) => run_on(
            alloc, image, from, rules, save, wanted, files, input, output,
        ),
        None => run_first(alloc, image, rules, save, wanted, files, input, output),
    }
}
