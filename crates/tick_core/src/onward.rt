//! A step of a thread, with the counts and rows behind it.

ghost use Rattle.std.specs.Prelude.{◌≡◌, ◌<◌, IfSome, length, slice_set};
ghost use Rattle.std.specs.Bool.{OnTrue};
ghost use Rattle.tick_core.specs.Rows.{HasRoom};
ghost use Rattle.sc_graph.specs.Control.{status_of};
ghost use Rattle.sc_graph.specs.Tick.{IsConfiguration};
ghost use Rattle.sc_graph.specs.Valid.{IsValid};
ghost use Rattle.tick_core.specs.Inside.Astir.{Gains};
ghost use Rattle.tick_core.specs.Space.Joins.{FindsForks};
ghost use Rattle.tick_core.specs.Space.Living.{CountsLiving, counted_at};
ghost use Rattle.tick_core.specs.Space.Sorting.{AreOpen, OwnRows, children_at, ready_row, sorted_one, sorted_parent};
ghost use Rattle.tick_core.specs.Space.Sorting.{ended_parent, sorted_all};
ghost use Rattle.tick_core.specs.Inside.Onward.{MayStep, Goes, LeadsOn, StaysAt, own_row};

use crate::buckets::Rows;
use crate::joins::Joins;
use crate::kept_claim::KeptClaim;
use crate::listed::Listed;
use crate::living::count_after;
use crate::sorting::{children_at, sort_after};
use crate::stepping::take_step;
use sc_graph::{Control, Program, Status, Tables, ThreadId};
use sc_values::Value;

/// Takes the step of an enabled thread without a claim that stands so, whose code has this value. The counts and rows
/// are those behind it then: where the step concerns others too, whom it can have made enabled or not is counted and
/// sorted anew, and the children whom it forks or leaves are listed. Gives how the thread stands where it stays in its
/// row, so that it leads on.
#[inline(always)]
pub(crate) fn step_on(
    joins: &Joins,
    program: &Program,
    tables: &Tables,
    claims: &[Option<KeptClaim>],
    claimed: usize,
    control: &mut Control,
    living: &mut Vec<usize>,
    rows: &mut Rows,
    listed: &mut Listed,
    thread: ThreadId,
    status: Status,
    value: Option<Value>,
) -> Option<Status>
    requires may { MayStep program.now tables.now joins.now control.old thread value claims.now claimed living.old.items
        rows.old }
    requires standing { status ≡ status_of control.old thread }
    ensures goes { Goes program.now tables.now control.old control.new thread claims.now rows.old rows.new
        living.new.items }
    ensures listed { Gains listed.old (children_at program.now (status_of control.old thread)) listed.new }
    ensures on { IfSome result (LeadsOn program.now tables.now control.old control.new thread rows.old) }
{
    match take_step(joins, program, control, thread, status, value) {
        Some(next) => {
            if move_on(tables, rows, thread, next) {
                Some(next)
            } else {
                None
            }
        }
        None => {
            settle_others(
                joins, program, tables, claims, claimed, control, living, rows, listed, thread,
                status,
            );
            None
        }
    }
}

// Behind a step of a thread that stood so: counts and sorts anew whom it can have made enabled or not, and lists the
// children whom it forked or left.
#[inline(always)]
fn settle_others(
    joins: &Joins,
    program: &Program,
    tables: &Tables,
    claims: &[Option<KeptClaim>],
    claimed: usize,
    control: &Control,
    living: &mut Vec<usize>,
    rows: &mut Rows,
    listed: &mut Listed,
    thread: ThreadId,
    status: Status,
)
    requires forks { FindsForks program.now joins.now }
    requires valid { IsValid program.now tables.now }
    requires opened { AreOpen program.now claims.now claimed }
    requires configuration { IsConfiguration program.now control.now }
    requires place { thread < length program.now.threads }
    requires counts { CountsLiving program.now control.now
        (counted_at program.now control.now living.old.items thread (status_of control.now thread)) }
    requires rows { OwnRows program.now tables.now rows.old }
    ensures counted { living.new.items
        ≡ counted_at program.now control.now living.old.items thread (status_of control.now thread) }
    ensures sorted { rows.new ≡ sorted_all (ready_row program.now tables.now control.now claims.now)
        (children_at program.now status)
        (sorted_parent (ready_row program.now tables.now control.now claims.now)
        (sorted_one (ready_row program.now tables.now control.now claims.now) rows.old thread)
        (ended_parent program.now thread (status_of control.now thread))) }
    ensures rows { OwnRows program.now tables.now rows.new }
    ensures listed { Gains listed.old (children_at program.now status) listed.new }
{
    let children = children_at(joins, program, status);
    count_after(joins, program, control, living, thread);
    sort_after(
        program, tables, control, living, claims, claimed, rows, thread, children,
    );
    listed.add_all(children);
}

/// Puts a thread that stands so and concerns nobody else into its row. Whether it stands there already.
#[inline(always)]
pub(crate) fn move_on(tables: &Tables, rows: &mut Rows, thread: ThreadId, next: Status) -> bool
    requires { HasRoom rows.old thread (own_row tables.now next) }
    ensures set { rows.new ≡ record rows.old
        { classes = slice_set rows.old.classes thread (own_row tables.now next) } }
    ensures stays { OnTrue result (StaysAt tables.now thread rows.old next) }
{
    let row = own_row(tables, next);
    match row {
        Some(prior) if rows.is_in(thread, prior) => true,
        _ => {
            rows.set(thread, row);
            rows.settle();
            false
        }
    }
}

// The row of a thread that stands so and concerns nobody else.
fn own_row(tables: &Tables, status: Status) -> Option<u16>
    ensures { result ≡ own_row tables.now status }
{
    match status {
        Status::At(node) => Some(tables.priority(node)),
        Status::Absent | Status::Waiting(_) | Status::Paused(_) | Status::Ended => None,
    }
}
