//! For each thread that waits, how many of its children have not ended.

ghost use Rattle.std.specs.Prelude.{ℕ, ◌≡◌, ◌-◌, count_by, slice_index, slice_set};
ghost use Rattle.sc_graph.specs.declared.control.Status.TheVariants.{Waiting};
ghost use Rattle.sc_graph.specs.Control.{status_of, joined_at};
ghost use Rattle.tick_core.specs.Space.Joins.{FindsForks};
ghost use Rattle.tick_core.specs.Space.Living.{lives, living, counted_at};

use crate::joins::Joins;
use sc_graph::{Control, NodeId, Program, Status, ThreadId};

/// After a step of a thread: where it forked its children are counted anew, and where it ended its
/// parent waits for one less.
#[inline(always)]
pub(crate) fn count_after(
    joins: &Joins,
    program: &Program,
    control: &Control,
    counts: &mut Vec<usize>,
    thread: ThreadId,
)
    requires { FindsForks program.now joins.now }
    ensures { counts.new.items ≡ counted_at program.now control.now counts.old.items thread
        (status_of control.now thread) }
{
    match control.status(thread) {
        Status::Waiting(join) => put(counts, thread, living(joins, program, control, join)),
        Status::Ended => {
            if let Some(parent) = program.parent(thread) {
                put(counts, parent, left(counts, parent).saturating_sub(1));
            }
        }
        Status::Absent | Status::At(_) | Status::Paused(_) => {}
    }
}

/// How many children a thread waits for; 0 where there is no such thread.
pub(crate) fn left(counts: &[usize], thread: ThreadId) -> usize
    ensures { result ≡ slice_index counts.now thread }
{
    match counts.get(thread as usize) {
        Some(count) => *count,
        None => 0,
    }
}

/// How many children a thread that stands so waits for.
pub(crate) fn waited_for(
    joins: &Joins,
    program: &Program,
    control: &Control,
    status: Status,
) -> usize
    requires { FindsForks program.now joins.now }
    ensures { (j : ℕ) → status ≡ Waiting j → result ≡ living control.now (joined_at program.now j) }
{
    match status {
        Status::Waiting(join) => living(joins, program, control, join),
        Status::Absent | Status::At(_) | Status::Paused(_) | Status::Ended => 0,
    }
}

// How many children of the fork of a join have not ended; 1 where there is no fork.
fn living(joins: &Joins, program: &Program, control: &Control, join: NodeId) -> usize
    requires { FindsForks program.now joins.now }
    ensures { result ≡ living control.now (joined_at program.now join) }
{
    match joins.joined(program, join) {
        Some(children) => living_among(control, children),
        None => 1,
    }
}

fn living_among(control: &Control, children: &[ThreadId]) -> usize
    ensures { result ≡ count_by (lives control.now) children.now }
{
    children
        .iter()
        .filter(|child| !control.status(**child).has_ended())
        .count()
}

/// Counts so many for a thread, where there is such a one.
pub(crate) fn put(counts: &mut Vec<usize>, thread: ThreadId, count: usize)
    ensures { counts.new.items ≡ slice_set counts.old.items thread count }
{
    let at = thread as usize;
    if at < counts.len() {
        counts[at] = count;
    }
}
