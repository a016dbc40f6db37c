//! The verb `simulate`.

ghost use Rattle.std.specs.Prelude.{◌≡◌, ◌+◌, IfErr, IfOk, OnOk};
ghost use Rattle.command_files.specs.Counting as files_count;
ghost use Rattle.command_files.specs.Sources.{IsCompiledFrom};
ghost use Rattle.sc_values.specs.Streams.{IsNotReadBehind};
ghost use Rattle.sct_command.specs.Failing.{files_failed, reads_failed, writes_failed};
ghost use Rattle.sct_command.specs.Simulating.{LacksModel, RefusesSimulation, Simulates};

use crate::fault::Fault;
use command_files::{Files, LoadFault, bytes_of};
use image_charts::{ChartStates, compile_written, states_in};
use sc_values::{Sink, Source};
use simulation::simulate;
use sqlite_items::Boxed;
use std::alloc::Global;
use verifier::Verified;

// The image of the program in this file, and of a chart, or of an extended chart, the states that its author wrote.
// Err: there is no program in the file, or it has no image.
#[tactic(auto, using(crate::proofs::Simulated::no_source, crate::proofs::Simulated::no_image, crate::proofs::Simulated::no_states))]
fn load_model<F: Files>(
    alloc: Global,
    name: &str,
    files: &mut F,
) -> Result<(Boxed<Verified>, Option<Boxed<ChartStates>>), LoadFault>
    ensures loaded { IfOk result (λ r. IsCompiledFrom (F.contents files.old) name.now r.0) }
    ensures lacks { IfErr result (LacksModel (F.contents files.old) name.now) }
    ensures same { F.contents files.new ≡ F.contents files.old }
    ensures none_failed { OnOk result (F.failures files.new ≡ F.failures files.old) }
    ensures failed { IfErr result (λ fault. F.failures files.new
        ≡ F.failures files.old + files_count.files_failed fault) }
{
    let bytes = bytes_of(alloc, files, name)?;
    let compiled = compile_written(alloc, &bytes)?;
    let image = Boxed::new(alloc, compiled)?;
    let states = states_in(alloc, name, &bytes, image.get())?;
    Ok((image, states))
}

// The states that a box holds, where there is one.
fn held(states: &Option<Boxed<ChartStates>>) -> Option<&ChartStates> {
    match states {
        Some(states) => Some(states.get()),
        None => None,
    }
}

/// Steps the controller in this file by hand: does what each line of the input says, and answers it before the next one
/// is read. Err: there is no program in the file, or it has no image; a line is too long; or the input or the output
/// failed.
#[tactic(auto, using(crate::proofs::Simulated::simulated, crate::proofs::Simulated::stopped))]
pub(crate) fn simulate_file<F: Files, R: Source, W: Sink>(
    alloc: Global,
    name: &str,
    files: &mut F,
    input: &mut R,
    output: &mut W,
) -> Result<(), Fault>
    ensures done { OnOk result (Simulates (F.contents files.old) name.now
        (R.to_come input.old) (W.taken output.old) (W.taken output.new)) }
    ensures refused { IfErr result (RefusesSimulation (F.contents files.old) name.now
        (R.to_come input.old) (W.taken output.old) (W.taken output.new)) }
    ensures none_read { OnOk result (R.failures input.new ≡ R.failures input.old) }
    ensures read { IfErr result (λ fault. R.failures input.new ≡ R.failures input.old + reads_failed fault) }
    ensures end { IsNotReadBehind (R.progress input.old) (R.progress input.new) }
    ensures none_failed { OnOk result (W.failures output.new ≡ W.failures output.old) }
    ensures failed { IfErr result (λ fault. W.failures output.new ≡ W.failures output.old + writes_failed fault) }
    ensures files { F.contents files.new ≡ F.contents files.old }
    ensures none_missed { OnOk result (F.failures files.new ≡ F.failures files.old) }
    ensures missed { IfErr result (λ fault. F.failures files.new ≡ F.failures files.old + files_failed fault) }
{
    let (image, states) = load_model(alloc, name, files)?;
    match simulate(alloc, image.get(), held(&states), input, output) {
        Ok(()) => Ok(()),
        Err(fault) => Err(Fault::Play(fault, None)),
    }
}
