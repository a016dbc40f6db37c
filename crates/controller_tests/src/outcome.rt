//! The test of an image: ticks, and the trace that is wanted of them.

ghost use Rattle.std.specs.Prelude.{◌≡◌, ◌≢◌, ◌↔◌, IfOk};
ghost use Rattle.controller_tests.specs.declared.outcome.Outcome.TheVariants.{Passed, Stops};
ghost use Rattle.trace_player.specs.declared.player.PlayFault.TheVariants.{Memory};
ghost use Rattle.controller_tests.specs.Inside.Comparing.{ComparesTo};
ghost use Rattle.controller_tests.specs.Outcome.{IsOutcome, Passes};

use crate::difference::{Difference, compare};
use crate::trace::trace_of;
use std::alloc::{AllocError, Global};
use trace_player::PlayFault;
use verifier::Verified;

/// What a test comes to.
#[derive(Drop)]
pub enum Outcome {
    /// The trace has the lines that are wanted.
    Passed,
    /// The first line of the trace that is not the one that is wanted.
    Differs(Difference),
    /// A line of the ticks gives no inputs, or is no object.
    Stops(PlayFault),
}

// What it comes to that a trace was made.
fn compared(alloc: Global, wanted: &[u8], trace: &[u8]) -> Result<Outcome, AllocError>
    ensures { IfOk result (ComparesTo wanted.now trace.now) }
{
    match compare(alloc, wanted, trace)? {
        None => Ok(Outcome::Passed),
        Some(difference) => Ok(Outcome::Differs(difference)),
    }
}

// What it comes to that there is no whole trace. Err: memory was refused.
fn stopped(fault: PlayFault) -> Result<Outcome, AllocError>
    ensures { IfOk result (λ outcome. (outcome ≡ Stops fault) × (fault ≢ Memory)) }
{
    match fault {
        PlayFault::Memory => Err(AllocError),
        _ => Ok(Outcome::Stops(fault)),
    }
}

// Plays ticks by an image, and compares the trace with the one that is wanted.
#[tactic(auto, using(crate::proofs::Tested::comes_to, crate::proofs::Tested::stops_at))]
fn outcome_of(
    alloc: Global,
    image: &Verified,
    ticks: &[u8],
    wanted: &[u8],
) -> Result<Outcome, AllocError>
    ensures { IfOk result (IsOutcome image.now ticks.now wanted.now) }
{
    let outcome = match trace_of(alloc, image, ticks) {
        Ok(trace) => compared(alloc, wanted, &trace)?,
        Err(fault) => stopped(fault)?,
    };
    Ok(outcome)
}

/// Plays the ticks that these bytes spell by an image, and compares the trace with the one that is wanted. It passes
/// exactly where the trace is whole and has the lines that are wanted. Err: memory was refused.
#[tactic(auto, using(crate::proofs::Tested::passed_exactly))]
pub fn test_controller(
    alloc: Global,
    image: &Verified,
    ticks: &[u8],
    wanted: &[u8],
) -> Result<Outcome, AllocError>
    ensures outcome { IfOk result (IsOutcome image.now ticks.now wanted.now) }
    ensures passed { IfOk result (λ outcome. (outcome ≡ Passed) ↔ Passes image.now ticks.now wanted.now) }
{
    let outcome = outcome_of(alloc, image, ticks, wanted)?;
    Ok(outcome)
}
