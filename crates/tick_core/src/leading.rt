//! The enabled threads of the greatest priority.

ghost use Rattle.std.specs.Prelude.{◌≡◌, ◌+◌, MatchOption, Some, length};
ghost use Rattle.sc_values.specs.Runs.{IsOver};
ghost use Rattle.sc_graph.specs.Machine.{machine};
ghost use Rattle.sc_graph.specs.Priority.{Leads};
ghost use Rattle.sc_graph.specs.Tables.{priority_of};
ghost use Rattle.tick_core.specs.Inside.Leading.{BestBelow};
ghost use Rattle.tick_core.specs.Space.Joins.{FindsForks};

use crate::enabled::is_enabled;
use crate::joins::Joins;
use sc_graph::{Control, Program, Status, Tables, ThreadId};

/// An enabled thread of the greatest priority; None where nobody is enabled.
pub(crate) fn leader(
    joins: &Joins,
    program: &Program,
    tables: &Tables,
    control: &Control,
) -> Option<ThreadId>
    requires forks { FindsForks program.now joins.now }
    requires length { length control.now.statuses ≡ length program.now.threads }
    ensures { MatchOption result (IsOver (machine program.now) control.now) (Leads program.now tables.now control.now) }
{
    let mut best = None;
    for thread in 0..program.thread_count() {
        best = best_with(joins, program, tables, control, best, thread);
    }
    best
}

// The best of the threads before this one, and of this one where it is enabled.
fn best_with(
    joins: &Joins,
    program: &Program,
    tables: &Tables,
    control: &Control,
    best: Option<ThreadId>,
    thread: ThreadId,
) -> Option<ThreadId>
    requires forks { FindsForks program.now joins.now }
    requires best { BestBelow program.now tables.now control.now thread best }
    ensures { BestBelow program.now tables.now control.now (thread + 1) result }
{
    if !is_enabled(joins, program, control, thread) {
        return best;
    }
    match best {
        Some(best)
            if priority(tables, control.status(best)) >= priority(tables, control.status(thread)) =>
            { Some(best) }
        _ => Some(thread),
    }
}

/// The priority of a thread that stands so: of its node, or of the join at which it waits.
pub(crate) fn priority(tables: &Tables, status: Status) -> u16
    ensures { result ≡ priority_of tables.now status }
{
    match status {
        Status::At(node) | Status::Waiting(node) => tables.priority(node),
        Status::Absent | Status::Paused(_) | Status::Ended => 0,
    }
}
