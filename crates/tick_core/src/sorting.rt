//! The rows of ready threads, sorted anew after a step.

ghost use Rattle.std.specs.Prelude.{◌≡◌, ◌<◌, All, IfOk, count_by, is_some, length};
ghost use Rattle.sc_graph.specs.Control.{status_of};
ghost use Rattle.sc_graph.specs.Program.{Program};
ghost use Rattle.sc_graph.specs.Tick.{IsConfiguration};
ghost use Rattle.sc_graph.specs.Valid.{IsValid};
ghost use Rattle.tick_core.specs.Space.Joins.{FindsForks};
ghost use Rattle.tick_core.specs.Space.Living.{CountsLiving};
ghost use Rattle.tick_core.specs.Space.Sorting.{AreOpen, OwnRows, AreSorted, step_priority, ready_row, sorted_one};
ghost use Rattle.tick_core.specs.Space.Sorting.{sorted_parent, ended_parent, sorted_all, children_at, NodePriorities};
ghost use Rattle.tick_core.specs.Space.Sorting.{StandSorted};
ghost use Rattle.tick_core.specs.Rows.{AreEmpty};
ghost use Rattle.tick_core.specs.Inside.Astir.{AstirListed};
ghost use Rattle.tick_core.specs.Inside.Waking.{EntersRow, NobodyElse};

use crate::buckets::Rows;
use crate::joins::Joins;
use crate::kept_claim::KeptClaim;
use crate::living::left;
use sc_graph::{Control, Program, Status, Step, Tables, ThreadId};
use std::alloc::{AllocError, Global};
use verifier::Verified;

/// Sorts anew whom a step of a thread can have made enabled or not: the thread, its parent where it has
/// ended, and the children whom the step forked or left.
#[inline(always)]
pub(crate) fn sort_after(
    program: &Program,
    tables: &Tables,
    control: &Control,
    living: &[usize],
    claims: &[Option<KeptClaim>],
    claimed: usize,
    rows: &mut Rows,
    thread: ThreadId,
    children: &[ThreadId],
)
    requires counts { CountsLiving program.now control.now living.now }
    requires opened { AreOpen program.now claims.now claimed }
    requires valid { IsValid program.now tables.now }
    requires configuration { IsConfiguration program.now control.now }
    requires place { thread < length program.now.threads }
    requires places { All (λ t. t < length program.now.threads) children.now }
    requires rows { OwnRows program.now tables.now rows.old }
    ensures sorted { rows.new ≡ sorted_all (ready_row program.now tables.now control.now claims.now) children.now
        (sorted_parent (ready_row program.now tables.now control.now claims.now)
        (sorted_one (ready_row program.now tables.now control.now claims.now) rows.old thread)
        (ended_parent program.now thread (status_of control.now thread))) }
    ensures rows { OwnRows program.now tables.now rows.new }
{
    sort(
        program, tables, control, living, claims, claimed, rows, thread,
    );
    if let Some(parent) = ended_parent(program, control, thread) {
        sort(
            program, tables, control, living, claims, claimed, rows, parent,
        );
    }
    sort_all(
        program, tables, control, living, claims, claimed, rows, children,
    );
    rows.settle();
}

// The parent of a thread that has ended: nobody else waits for it, and it waits for no others.
fn ended_parent(program: &Program, control: &Control, thread: ThreadId) -> Option<ThreadId>
    ensures { result ≡ ended_parent program.now thread (status_of control.now thread) }
{
    match control.status(thread) {
        Status::Ended => program.parent(thread),
        Status::Absent | Status::At(_) | Status::Waiting(_) | Status::Paused(_) => None,
    }
}

/// The children whom a step from this status forks or leaves behind.
pub(crate) fn children_at<'p>(joins: &Joins, program: &'p Program, status: Status) -> &'p [ThreadId]
    requires { FindsForks program.now joins.now }
    ensures { result.now ≡ children_at program.now status }
{
    match status {
        Status::At(node) => match program.step(node) {
            Some(Step::Fork { children, join: _ }) => children.as_slice(),
            _ => &[],
        },
        Status::Waiting(join) => match joins.joined(program, join) {
            Some(children) => children,
            None => &[],
        },
        Status::Absent | Status::Paused(_) | Status::Ended => &[],
    }
}

fn sort_all(
    program: &Program,
    tables: &Tables,
    control: &Control,
    living: &[usize],
    claims: &[Option<KeptClaim>],
    claimed: usize,
    rows: &mut Rows,
    threads: &[ThreadId],
)
    requires counts { CountsLiving program.now control.now living.now }
    requires opened { AreOpen program.now claims.now claimed }
    requires valid { IsValid program.now tables.now }
    requires configuration { IsConfiguration program.now control.now }
    requires places { All (λ t. t < length program.now.threads) threads.now }
    requires rows { OwnRows program.now tables.now rows.old }
    ensures sorted { rows.new ≡ sorted_all
        (ready_row program.now tables.now control.now claims.now) threads.now rows.old }
    ensures rows { OwnRows program.now tables.now rows.new }
{
    for thread in threads {
        sort(
            program, tables, control, living, claims, claimed, rows, *thread,
        );
    }
}

/// Puts a thread into the row of its priority where it is enabled and has no open claim, else into
/// none.
#[inline(always)]
pub(crate) fn sort(
    program: &Program,
    tables: &Tables,
    control: &Control,
    living: &[usize],
    claims: &[Option<KeptClaim>],
    claimed: usize,
    rows: &mut Rows,
    thread: ThreadId,
)
    requires counts { CountsLiving program.now control.now living.now }
    requires opened { AreOpen program.now claims.now claimed }
    requires valid { IsValid program.now tables.now }
    requires configuration { IsConfiguration program.now control.now }
    requires place { thread < length program.now.threads }
    requires rows { OwnRows program.now tables.now rows.old }
    ensures sorted { rows.new ≡ sorted_one (ready_row program.now tables.now control.now claims.now) rows.old thread }
    ensures rows { OwnRows program.now tables.now rows.new }
{
    let row = ready_row(tables, control, living, claims, claimed, thread);
    rows.set(thread, row);
}

// The priority at which a thread is ready; None where it isn't enabled, or has an open claim. Where no claim is
// open, none is looked at: they lie far apart.
#[inline(always)]
fn ready_row(
    tables: &Tables,
    control: &Control,
    living: &[usize],
    claims: &[Option<KeptClaim>],
    claimed: usize,
    thread: ThreadId,
) -> Option<u16>
    requires counted { claimed ≡ count_by is_some claims.now }
    requires place { thread < length claims.now }
    ensures { (p : Program) → CountsLiving p control.now living.now
        → result ≡ ready_row p tables.now control.now claims.now thread }
{
    if claimed == 0 {
        return step_priority(tables, control, living, thread);
    }
    match claims.get(thread as usize) {
        Some(None) => step_priority(tables, control, living, thread),
        _ => None,
    }
}

// The priority at which a thread can step; None where it isn't enabled.
#[inline(always)]
fn step_priority(
    tables: &Tables,
    control: &Control,
    living: &[usize],
    thread: ThreadId,
) -> Option<u16>
    ensures { (p : Program) → CountsLiving p control.now living.now
        → result ≡ step_priority p tables.now control.now thread }
{
    match control.status(thread) {
        Status::At(node) => Some(tables.priority(node)),
        Status::Waiting(join) => {
            if left(living, thread) == 0 {
                Some(tables.priority(join))
            } else {
                None
            }
        }
        Status::Absent | Status::Paused(_) | Status::Ended => None,
    }
}

/// Sorts all threads, as a tick begins.
pub(crate) fn sort_every(
    program: &Program,
    tables: &Tables,
    control: &Control,
    living: &[usize],
    claims: &[Option<KeptClaim>],
    claimed: usize,
    rows: &mut Rows,
)
    requires counts { CountsLiving program.now control.now living.now }
    requires opened { AreOpen program.now claims.now claimed }
    requires valid { IsValid program.now tables.now }
    requires configuration { IsConfiguration program.now control.now }
    requires rows { OwnRows program.now tables.now rows.old }
    ensures { AreSorted program.now tables.now control.now claims.now rows.new }
{
    for thread in 0..program.thread_count() {
        sort(
            program, tables, control, living, claims, claimed, rows, thread,
        );
    }
    rows.settle();
}

/// Sorts the threads that are listed, as a tick begins without claims: nobody stood in a row, and nobody else is astir.
pub(crate) fn sort_listed(
    program: &Program,
    tables: &Tables,
    control: &Control,
    living: &[usize],
    listed: &[ThreadId],
    rows: &mut Rows,
)
    requires counts { CountsLiving program.now control.now living.now }
    requires valid { IsValid program.now tables.now }
    requires configuration { IsConfiguration program.now control.now }
    requires listed { AstirListed control.now.statuses listed.now }
    requires rows { OwnRows program.now tables.now rows.old }
    requires bare { AreEmpty rows.old }
    ensures { StandSorted program.now tables.now control.now rows.new }
{
    for at in 0..listed.len() {
        let thread = listed[at];
        enter(program, tables, control, living, rows, thread);
    }
    rows.settle();
}

// Puts a thread into the row of the priority at which it can step, where it is one of the program.
#[tactic(auto, using(crate::proofs::ListedEntered::passes_row))]
fn enter(
    program: &Program,
    tables: &Tables,
    control: &Control,
    living: &[usize],
    rows: &mut Rows,
    thread: ThreadId,
)
    requires counts { CountsLiving program.now control.now living.now }
    requires valid { IsValid program.now tables.now }
    requires configuration { IsConfiguration program.now control.now }
    requires rows { OwnRows program.now tables.now rows.old }
    requires right { NobodyElse program.now tables.now control.now rows.old }
    ensures { EntersRow program.now tables.now control.now thread rows.old rows.new }
{
    if thread < program.thread_count() {
        enter_there(program, tables, control, living, rows, thread);
    }
}

// The same for a thread of the program.
fn enter_there(
    program: &Program,
    tables: &Tables,
    control: &Control,
    living: &[usize],
    rows: &mut Rows,
    thread: ThreadId,
)
    requires counts { CountsLiving program.now control.now living.now }
    requires valid { IsValid program.now tables.now }
    requires configuration { IsConfiguration program.now control.now }
    requires place { thread < length program.now.threads }
    requires rows { OwnRows program.now tables.now rows.old }
    requires right { NobodyElse program.now tables.now control.now rows.old }
    ensures { EntersRow program.now tables.now control.now thread rows.old rows.new }
{
    if let Some(priority) = step_priority(tables, control, living, thread) {
        rows.set(thread, Some(priority));
    }
}

/// Rows for the threads of a verified image, in which nobody stands.
pub(crate) fn rows_of(alloc: Global, verified: &Verified) -> Result<Rows, AllocError>
    ensures { IfOk result (OwnRows verified.now.program verified.now.tables) }
{
    let image = verified.image();
    let program = image.program();
    let priorities = priorities_of(alloc, program, image.tables())?;
    let rows = Rows::of(alloc, &priorities, program.thread_count())?;
    Ok(rows)
}

// The priorities of all nodes.
fn priorities_of(alloc: Global, program: &Program, tables: &Tables) -> Result<Vec<u16>, AllocError>
    ensures { IfOk result (λ found. NodePriorities program.now tables.now found.items) }
{
    let mut found = Vec::with_capacity(alloc, program.node_count() as usize)?;
    for node in 0..program.node_count() {
        found.push(tables.priority(node))?;
    }
    Ok(found)
}
