//! The counts and rows of all threads, as a tick begins.

ghost use Rattle.std.specs.Prelude.{ℕ, ◌≡◌, ◌↔◌, IsTrue, length};
ghost use Rattle.sc_graph.specs.declared.control.Status.TheVariants.{Waiting};
ghost use Rattle.sc_graph.specs.declared.control.Control.{Control as Configuration};
ghost use Rattle.sc_graph.specs.Control.{status_of, joined_at};
ghost use Rattle.sc_graph.specs.Program.{Program as Graph};
ghost use Rattle.sc_graph.specs.Tick.{IsConfiguration};
ghost use Rattle.sc_graph.specs.Valid.{IsValid};
ghost use Rattle.tick_core.specs.Space.Joins.{FindsForks};
ghost use Rattle.tick_core.specs.Space.Living.{living, CountsLiving};
ghost use Rattle.tick_core.specs.Space.Sorting.{OwnRows, StandSorted, step_priority};
ghost use Rattle.tick_core.specs.Inside.Waking.{IsPassedBy};

use crate::buckets::Rows;
use crate::joins::Joins;
use crate::living::waited_for;
use sc_graph::{Control, Program, Status, Tables};

/// Counts for each thread that waits how many of the children for whom it waits have not ended, and puts each
/// thread into the row of the priority at which it can step, as a tick begins without claims.
pub(crate) fn count_and_sort(
    joins: &Joins,
    program: &Program,
    tables: &Tables,
    control: &Control,
    counts: &mut Vec<usize>,
    rows: &mut Rows,
)
    requires forks { FindsForks program.now joins.now }
    requires valid { IsValid program.now tables.now }
    requires configuration { IsConfiguration program.now control.now }
    requires places { length counts.old.items ≡ length program.now.threads }
    requires rows { OwnRows program.now tables.now rows.old }
    ensures counted { CountsLiving program.now control.now counts.new.items }
    ensures sorted { StandSorted program.now tables.now control.now rows.new }
{
    let are_bare = rows.is_empty();
    for thread in 0..program.thread_count() {
        let status = control.status(thread);
        if !is_passed_by(are_bare, status) {
            let count = waited_for(joins, program, control, status);
            counts[thread as usize] = count;
            rows.set(thread, first_row(tables, status, count));
        }
    }
    rows.settle();
}

// Whether nothing is to be done for a thread that stands so: it waits for nobody and takes no step, and where
// nobody stands in a row before, neither does it.
fn is_passed_by(are_bare: bool, status: Status) -> bool
    ensures { IsTrue result ↔ IsPassedBy are_bare status }
{
    match status {
        Status::Absent | Status::Paused(_) | Status::Ended => are_bare,
        Status::At(_) | Status::Waiting(_) => false,
    }
}

// The priority at which a thread that stands so can step, where it waits for so many; None where it isn't enabled.
fn first_row(tables: &Tables, status: Status, count: usize) -> Option<u16>
    ensures { (p : Graph) (c : Configuration) (t : ℕ) → status_of c t ≡ status
        → ((j : ℕ) → status ≡ Waiting j → count ≡ living c (joined_at p j)) → result ≡ step_priority p tables.now c t }
{
    match status {
        Status::At(node) => Some(tables.priority(node)),
        Status::Waiting(join) => {
            if count == 0 {
                Some(tables.priority(join))
            } else {
                None
            }
        }
        Status::Absent | Status::Paused(_) | Status::Ended => None,
    }
}
