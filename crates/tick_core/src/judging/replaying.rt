//! The steps of a given list of threads.

ghost use Rattle.std.specs.Prelude.{◌≡◌, false, IfOk, IsSome, MatchOption};
ghost use Rattle.sc_graph.specs.Program.{kinds as variable_kinds};
ghost use Rattle.sc_graph.specs.Control.{is_enabled, IsEnabled};
ghost use Rattle.sc_graph.specs.Steps.{step};
ghost use Rattle.sc_graph.specs.Tick.{IsConfiguration};
ghost use Rattle.tick_core.specs.State.{BeginsTick};
ghost use Rattle.tick_core.specs.Inside.Judging.{ReplaysTo, StepsAt};
ghost use Rattle.tick_core.specs.Space.Joins.{FindsForks};

use crate::enabled::is_enabled;
use crate::joins::Joins;
use crate::state::{kinds_of, present_value};
use crate::stepping::take_step;
use sc_graph::{Control, NodeId, Status, ThreadId};
use sc_values::Kind;
use std::alloc::{AllocError, Global};
use verifier::Verified;

/// A step of a run: the thread that took it, and the node at which it stood or the join at which it
/// waited.
#[derive(Clone, Copy)]
pub(crate) struct Taken {
    pub thread: ThreadId,
    pub node: NodeId,
}

/// How far a list of threads is a run.
#[derive(Drop)]
pub(crate) enum Replayed {
    /// The thread at this place isn't enabled there.
    Stopped(usize),
    /// It is a run, of these steps.
    Whole(Vec<Taken>),
}

/// Takes the steps of a run, from the start of a tick, until a thread isn't enabled.
pub(crate) fn replay(
    alloc: Global,
    joins: &Joins,
    verified: &Verified,
    control: &mut Control,
    run: &[ThreadId],
) -> Result<Replayed, AllocError>
    requires forks { FindsForks verified.now.program joins.now }
    requires begins { BeginsTick verified.now.program control.old }
    ensures { IfOk result (ReplaysTo verified.now.program control.old run.now control.new) }
{
    let kinds = kinds_of(alloc, verified.image().program())?;
    let mut steps = Vec::with_capacity(alloc, run.len())?;
    for (at, thread) in run.iter().enumerate() {
        match step_if_enabled(joins, verified, &kinds, control, *thread) {
            Some(node) => steps.push(Taken {
                thread: *thread,
                node,
            })?,
            None => return Ok(Replayed::Stopped(at)),
        }
    }
    Ok(Replayed::Whole(steps))
}

// Takes the step of a thread and tells at which node. None: it isn't enabled.
fn step_if_enabled(
    joins: &Joins,
    verified: &Verified,
    kinds: &[Kind],
    control: &mut Control,
    thread: ThreadId,
) -> Option<NodeId>
    requires forks { FindsForks verified.now.program joins.now }
    requires kinds { kinds.now ≡ variable_kinds verified.now.program }
    requires configuration { IsConfiguration verified.now.program control.old }
    requires defined { IsEnabled verified.now.program control.old thread
        → IsSome (step verified.now.program thread control.old) }
    ensures { MatchOption result (is_enabled verified.now.program control.old thread ≡ false)
        (λ n. StepsAt verified.now.program control.old thread n control.new) }
{
    let program = verified.image().program();
    let status = control.status(thread);
    let node = match status {
        Status::At(node) | Status::Waiting(node) => node,
        Status::Absent | Status::Paused(_) | Status::Ended => return None,
    };
    if !is_enabled(joins, program, control, thread) {
        return None;
    }
    let value = present_value(verified, kinds, control, status);
    take_step(joins, program, control, thread, status, value);
    Some(node)
}
