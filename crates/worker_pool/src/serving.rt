//! The steps that the first worker takes alone.

ghost use Rattle.std.specs.Prelude.{◌≡◌, false, IsSome};
ghost use Rattle.sc_values.specs.Runs.{IsOver};
ghost use Rattle.sc_graph.specs.Machine.{machine};
ghost use Rattle.worker_pool.specs.Inside.Stretches.{Completed, SameTick, EndsTick};

use crate::gate::Gate;
use crate::weighing::{is_worth, may_share};
use sc_graph::{Status, ThreadId};
use tick_core::{StepHook, TickState};

/// The steps of a tick that the first worker takes before it shares the tick with others: all of them where there are
/// no others or nothing is worth sharing, else as long as there is no round to share. Whether it is to be shared; if
/// not, nobody is enabled.
pub(crate) fn stretch<G: Gate>(state: &mut TickState<'_>, workers: u8, gate: &G) -> bool
    ensures same { SameTick state.old state.new }
    ensures over { result ≡ false → IsOver (machine state.new.image.program) state.new.present }
{
    if workers > 1 && may_share(gate) && lead(state, gate) {
        return true;
    }
    serve(state, gate);
    false
}

// Takes steps of a tick as long as one thread alone can step, or too few. Whether there is a round to share then.
fn lead<G: Gate>(state: &mut TickState<'_>, gate: &G) -> bool
    ensures { SameTick state.old state.new }
{
    for _ in 0..u64::MAX {
        let Some(next) = state.next_step() else {
            return false;
        };
        if is_to_share(state, next.thread, gate) {
            return true;
        }
        gate.passing(1, next.thread);
        state.take(1, next);
    }
    false
}

// Whether the round in which this thread leads, of all that can step at its priority, is worth sharing.
fn is_to_share<G: Gate>(state: &TickState<'_>, thread: ThreadId, gate: &G) -> bool {
    match state.present().status(thread) {
        Status::At(node) | Status::Waiting(node) => {
            let priority = state.image().tables().priority(node);
            is_worth(state.ready(priority).len(), gate)
        }
        Status::Absent | Status::Paused(_) | Status::Ended => false,
    }
}

/// Takes all steps that are left of a tick.
pub(crate) fn serve<G: Gate>(state: &mut TickState<'_>, gate: &G)
    ensures { EndsTick state.old state.new }
{
    state.run_past(1, &Passing { gate });
}

// Lets each step pass the gate.
#[derive(Drop)]
struct Passing<'g, G: Gate> {
    gate: &'g G,
}

impl<G: Gate> StepHook for Passing<'_, G> {
    fn passing(&self, worker: u8, thread: ThreadId) {
        self.gate.passing(worker, thread);
    }
}

/// Takes all steps that are left of the tick that is there.
pub(crate) fn go_alone<G: Gate>(last: &mut Option<TickState<'_>>, gate: &G)
    requires { IsSome last.old }
    ensures { Completed last.old last.new }
{
    let Some(state) = last else { unreachable!() };
    serve(state, gate);
}

/// The first worker takes all steps that are left of a tick.
pub(crate) fn alone<'x, G: Gate>(state: TickState<'x>, gate: &G) -> TickState<'x>
    ensures { EndsTick state.entry result }
{
    let mut state = state;
    serve(&mut state, gate);
    state
}
