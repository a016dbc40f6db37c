//! The verb `run` under rules.

ghost use Rattle.std.specs.Prelude.{◌≡◌, ◌≢◌, ◌+◌, IfErr, OnOk, true};
ghost use Rattle.std.specs.Option.{is_some};
ghost use Rattle.command_words.specs.Said.{rules_seen};
ghost use Rattle.sc_values.specs.Streams.{IsNotReadBehind};
ghost use Rattle.sct_command.specs.Failing.{files_failed, reads_failed, writes_failed};
ghost use Rattle.sct_command.specs.Running.{RefusesUnder, RunsUnder};

use crate::fault::Fault;
use command_files::Files;
use command_words::RunRules;
use ruled_runs::{Rules, RunFiles, run_by};
use sc_values::{Sink, Source};
use std::alloc::Global;

/// Plays the input by the image in this file, by the caller's thread alone, by these rules; where words are `wanted`,
/// a fault of a line tells what was met there. Err: there is no valid image in the file, or no place of it in the one
/// that has it; why the input was not played to its end; or the place could not be kept where it ended.
#[tactic(auto, using(crate::proofs::Ruled::refused, crate::proofs::Ruled::reads, crate::proofs::Ruled::writes, crate::proofs::Ruled::missed, crate::proofs::Ruled::unchanged))]
pub(crate) fn run_ruled<F: Files, R: Source, W: Sink>(
    alloc: Global,
    name: &str,
    rules: RunRules<'_>,
    wanted: bool,
    files: &mut F,
    input: &mut R,
    output: &mut W,
) -> Result<(), Fault>
    ensures done { OnOk result (RunsUnder (F.contents files.old) (F.contents files.new) name.now
        (rules_seen rules.entry) (R.to_come input.old) (W.taken output.old) (W.taken output.new)) }
    ensures refused { IfErr result (RefusesUnder (F.contents files.old) (F.contents files.new) name.now
        (rules_seen rules.entry) (R.to_come input.old) (W.taken output.old) (W.taken output.new)) }
    ensures unchanged { is_some (rules_seen rules.entry).save ≢ true → F.contents files.new ≡ F.contents files.old }
    ensures none_read { OnOk result (R.failures input.new ≡ R.failures input.old) }
    ensures read { IfErr result (λ fault. R.failures input.new ≡ R.failures input.old + reads_failed fault) }
    ensures end { IsNotReadBehind (R.progress input.old) (R.progress input.new) }
    ensures none_failed { OnOk result (W.failures output.new ≡ W.failures output.old) }
    ensures failed { IfErr result (λ fault. W.failures output.new ≡ W.failures output.old + writes_failed fault) }
    ensures none_missed { OnOk result (F.failures files.new ≡ F.failures files.old) }
    ensures missed { IfErr result (λ fault. F.failures files.new ≡ F.failures files.old + files_failed fault) }
{
    let asked = Rules {
        strict: rules.strict,
        skips: rules.skips,
    };
    let names = RunFiles {
        image: name,
        from: rules.from,
        save: rules.save,
    };
    match run_by(alloc, asked, names, wanted, files, input, output) {
        Ok(()) => Ok(()),
        Err(fault) => Err(Fault::from(fault)),
    }
}
