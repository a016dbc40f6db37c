//! What a given list of threads is to a tick.

ghost use Rattle.std.specs.Prelude.{◌↔◌, IfOk, OnOk};
ghost use Rattle.std.specs.Result.{IsErrOf};
ghost use Rattle.sc_graph.specs.Tick.{Rests, AreAccepted, IsConfiguration, start};
ghost use Rattle.tick_core.specs.Judging.{IsJudgement};
ghost use Rattle.tick_core.specs.Inside.Judging.{JudgesSteps};
ghost use Rattle.tick_core.specs.Space.Joins.{FindsForks};

mod forbidden;
mod replaying;

use crate::inputs::{Inputs, are_accepted};
use crate::joins::Joins;
use crate::judging::forbidden::first_forbidden;
use crate::judging::replaying::{Replayed, Taken, replay};
use crate::leading::leader;
use crate::starting::started;
use crate::state::BeginFault;
use sc_graph::{Control, ThreadId};
use std::alloc::Global;
use verifier::Verified;

/// What a given list of threads is to a tick. Places count from 0.
#[derive(Drop)]
pub enum Judged {
    /// No run: the thread at this place is the first that isn't enabled where its turn comes.
    NotRun(usize),
    /// A run, but concurrent steps at these places, in this order, may not stand so. It is the pair
    /// of the least second place, and of these the one of the least first.
    NotAdmissible(usize, usize),
    /// An admissible run, but a thread is enabled at its end.
    Incomplete,
    /// An admissible complete run, which leads to the only end of the tick.
    Ends(Control),
}

/// Judges a list of threads as a run of a tick of a verified image, from a configuration that
/// rests. `Input` where the inputs are not accepted; `Memory` where memory was refused. The
/// configuration is untouched.
pub fn judge(
    alloc: Global,
    verified: &Verified,
    control: &Control,
    inputs: &Inputs,
    run: &[ThreadId],
) -> Result<Judged, BeginFault>
    requires { Rests verified.now.program control.now }
    ensures judged { IfOk result (IsJudgement verified.now.program
        (start verified.now.program inputs.now control.now) run.now) }
    ensures accepted { OnOk result (AreAccepted verified.now.program inputs.now) }
    ensures refused { IsErrOf result BeginFault.Input ↔ ¬ (AreAccepted verified.now.program inputs.now) }
{
    let program = verified.image().program();
    if !are_accepted(program, inputs.as_slice()) {
        return Err(BeginFault::Input);
    }
    let mut reached = started(alloc, program, inputs.as_slice(), control)?;
    let joins = Joins::of(alloc, verified)?;
    match replay(alloc, &joins, verified, &mut reached, run)? {
        Replayed::Stopped(at) => Ok(Judged::NotRun(at)),
        Replayed::Whole(steps) => Ok(judge_steps(&joins, verified, reached, &steps)),
    }
}

// Judges a run by its steps and by what it leads to.
fn judge_steps(joins: &Joins, verified: &Verified, reached: Control, steps: &[Taken]) -> Judged
    requires forks { FindsForks verified.now.program joins.now }
    requires configuration { IsConfiguration verified.now.program reached }
    ensures { JudgesSteps verified.now.program steps.now reached result }
{
    let image = verified.image();
    let program = image.program();
    if let Some((first, second)) = first_forbidden(program, steps) {
        return Judged::NotAdmissible(first, second);
    }
    match leader(joins, program, image.tables(), &reached) {
        Some(_) => Judged::Incomplete,
        None => Judged::Ends(reached),
    }
}
