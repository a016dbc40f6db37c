//! One tick by several workers.

ghost use Rattle.std.specs.Prelude.{◌≡◌, ◌≤◌, ◌↔◌, IfOk};
ghost use Rattle.std.specs.Result.{IsErrOf};
ghost use Rattle.sc_graph.specs.Tick.{Rests, AreAccepted};
ghost use Rattle.worker_pool.specs.Ticks.{IsTick};
ghost use Rattle.worker_pool.specs.Inside.Stretches.{EndsTick};

use crate::gate::Gate;
use crate::of_image::OfImage;
use crate::serving::{alone, stretch};
use crate::shared::Shared;
use crate::shared_tick::SharedTick;
use crate::team::Team;
use std::alloc::{AllocError, Global};
use std::marker::Brand;
use std::sync::Wait;
use std::thread;
use std::thread::{Scope, Threads};
use tick_core::{BeginFault, Control, Inputs, Report, TickState, begin};
use verifier::Verified;

/// Runs a tick from a configuration that rests to its one end, with 1 to 8 workers: the configuration after it, and
/// the report of its steps. The caller's thread serves as worker 1, and the others are started at the first round
/// that is worth sharing. Each step passes the gate. `Input` and `Memory` as of `begin`; the configuration is
/// untouched.
pub fn run_tick<'x, R: Threads + Wait + Sync, G: Gate + Sync>(
    rt: &R,
    alloc: Global,
    verified: &'x Verified,
    control: &Control,
    inputs: &Inputs,
    workers: u8,
    gate: &'x G,
) -> Result<(Control, Report), BeginFault>
    requires rests { Rests verified.now.program control.now }
    requires workers { (1 ≤ workers) × (workers ≤ 8) }
    ensures tick { IfOk result (λ r. IsTick verified.now inputs.now control.now r.0 r.1) }
    ensures refused { IsErrOf result BeginFault.Input ↔ ¬ (AreAccepted verified.now.program inputs.now) }
{
    let state = begin(alloc, verified, control, inputs)?;
    let state = complete::<Brand, R, G>(rt, alloc, verified, state, workers, gate)?;
    Ok(state.finish())
}

// Runs a tick to where nobody is enabled. Err: it was lost, and memory was refused to begin it again.
fn complete<'x, J, R, G>(
    rt: &R,
    alloc: Global,
    verified: &'x Verified,
    state: TickState<'x>,
    workers: u8,
    gate: &'x G,
) -> Result<TickState<'x>, AllocError>
where
    J: OfImage + Send + Sync,
    R: Threads + Wait + Sync,
    G: Gate + Sync,
    requires of_image { verified.now ≡ J.image }
    requires image { state.image ≡ J.image }
    requires workers { workers ≤ 8 }
    ensures { IfOk result (EndsTick state.entry) }
{
    let mut state = state;
    if stretch(&mut state, workers, gate) {
        share::<J, R, G>(rt, alloc, verified, state, workers, gate)
    } else {
        Ok(state)
    }
}

// The same where there is a round to share. Where memory is refused the first worker goes on alone.
fn share<'x, J, R, G>(
    rt: &R,
    alloc: Global,
    verified: &'x Verified,
    state: TickState<'x>,
    workers: u8,
    gate: &'x G,
) -> Result<TickState<'x>, AllocError>
where
    J: OfImage + Send + Sync,
    R: Threads + Wait + Sync,
    G: Gate + Sync,
    requires of_image { verified.now ≡ J.image }
    requires image { state.image ≡ J.image }
    requires workers { workers ≤ 8 }
    ensures { IfOk result (EndsTick state.entry) }
{
    match Shared::<'x, J, G>::open(alloc, verified, gate) {
        Ok((shared, passes)) => {
            let team = Team::of(&shared, passes, workers);
            let ended = share_by(rt, alloc, team, state, gate);
            drop(shared);
            ended
        }
        Err(_) => Ok(alone(state, gate)),
    }
}

// The same with a team, if there is one.
fn share_by<'r, 'x, J, R, G>(
    rt: &R,
    alloc: Global,
    team: Option<Team<'r, 'x, J, G>>,
    state: TickState<'x>,
    gate: &G,
) -> Result<TickState<'x>, AllocError>
where
    J: OfImage + Send + Sync,
    R: Threads + Wait + Sync,
    G: Gate + Sync,
    requires { state.image ≡ J.image }
    ensures { IfOk result (EndsTick state.entry) }
{
    match team {
        Some(team) => meet(rt, alloc, team, SharedTick::of(state)),
        None => Ok(alone(state, gate)),
    }
}

// Shares the tick with a team, and waits for all workers.
fn meet<'r, 'x, J, R, G>(
    rt: &R,
    alloc: Global,
    team: Team<'r, 'x, J, G>,
    shared_tick: SharedTick<'x, J>,
) -> Result<TickState<'x>, AllocError>
where
    J: OfImage + Send + Sync,
    R: Threads + Wait + Sync,
    G: Gate + Sync,
    ensures { IfOk result (EndsTick shared_tick.entry) }
{
    thread::scope(
        thread::scope_env(),
        rt,
        move |scope| -> Result<TickState, AllocError>
            ensures { IfOk result (EndsTick shared_tick.entry) }
        { meet_in(rt, scope, alloc, team, shared_tick) },
    )
}

fn meet_in<'s, 'r: 's, 'x: 's, E: 's, J, R, G>(
    rt: &'s R,
    scope: &'s Scope<'s, E>,
    alloc: Global,
    team: Team<'r, 'x, J, G>,
    shared_tick: SharedTick<'x, J>,
) -> Result<TickState<'x>, AllocError>
where
    J: OfImage + Send + Sync + 's,
    R: Wait + Sync,
    G: Gate + Sync + 's,
    ensures { IfOk result (EndsTick shared_tick.entry) }
{
    let mut team = team;
    let ended = team.complete_owned(rt, scope, alloc, shared_tick.into_state());
    team.close(rt);
    drop(team);
    ended
}
