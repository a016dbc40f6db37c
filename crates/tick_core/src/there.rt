//! The threads that are present as a tick begins, found from the root on: who is absent is never looked at.

ghost use Rattle.std.specs.Prelude.{ℕ, ◌≡◌, ◌<◌, ◌≤◌, ◌+◌, ◌++◌, Contains, List, count_by, length, slice_set};
ghost use Rattle.std.specs.Prelude.{vec_capacity};
ghost use Rattle.std.specs.Bool.{OnTrue};
ghost use Rattle.sc_graph.specs.Control.{status_of};
ghost use Rattle.sc_graph.specs.Tick.{IsConfiguration};
ghost use Rattle.sc_graph.specs.Valid.{IsFormed};
ghost use Rattle.tick_core.specs.Space.Joins.{FindsForks};
ghost use Rattle.tick_core.specs.Space.Living.{CountsLiving, lives};
ghost use Rattle.tick_core.specs.Space.There.{AllListed, AreAbsent, AreListed, children_waited, waited_at};

use crate::joins::Joins;
use crate::living::put;
use crate::stepping::put_status;
use sc_graph::{Control, Program, Status, ThreadId};
use sqlite_items::Items;

/// Lists the threads that are present: the root first, and of each one that waits its children, and counts for it how
/// many of them have not ended. Whether there was room for all: so many may be listed.
pub(crate) fn list_all(
    joins: &Joins,
    program: &Program,
    control: &Control,
    room: usize,
    listed: &mut Vec<ThreadId>,
    living: &mut Vec<usize>,
) -> bool
    requires forks { FindsForks program.now joins.now }
    requires formed { IsFormed program.now }
    requires configuration { IsConfiguration program.now control.now }
    requires room { room ≤ vec_capacity listed.old }
    requires places { length living.old.items ≡ length program.now.threads }
    ensures listed { OnTrue result (AreListed control.now.statuses listed.new.items) }
    ensures counted { OnTrue result (CountsLiving program.now control.now living.new.items) }
    ensures room { vec_capacity listed.new ≡ vec_capacity listed.old }
    ensures places { length living.new.items ≡ length living.old.items }
{
    listed.clear();
    if room == 0 {
        return false;
    }
    listed.push_reserved(0);
    let mut at = 0;
    while at < listed.len() {
        let thread = listed[at];
        if !list_children(joins, program, control, room, listed, living, thread) {
            return false;
        }
        at += 1;
    }
    true
}

// Lists the children of a thread where it waits, and counts for it how many have not ended. Whether there was room.
fn list_children(
    joins: &Joins,
    program: &Program,
    control: &Control,
    room: usize,
    listed: &mut Vec<ThreadId>,
    living: &mut Vec<usize>,
    thread: ThreadId,
) -> bool
    requires forks { FindsForks program.now joins.now }
    requires room { room ≤ vec_capacity listed.old }
    requires within { length listed.old.items ≤ room }
    ensures listed { OnTrue result (listed.new.items
        ≡ listed.old.items ++ children_waited program.now (status_of control.now thread)) }
    ensures counted { OnTrue result (living.new.items
        ≡ waited_at program.now control.now living.old.items thread (status_of control.now thread)) }
    ensures room { vec_capacity listed.new ≡ vec_capacity listed.old }
    ensures within { length listed.new.items ≤ room }
    ensures places { length living.new.items ≡ length living.old.items }
{
    match control.status(thread) {
        Status::Waiting(join) => match joins.joined(program, join) {
            Some(children) => list_family(control, room, listed, living, thread, children),
            None => {
                put(living, thread, 1);
                true
            }
        },
        Status::Absent | Status::At(_) | Status::Paused(_) | Status::Ended => true,
    }
}

// Lists the children for whom a thread waits, and counts for it how many have not ended. Whether there was room.
fn list_family(
    control: &Control,
    room: usize,
    listed: &mut Vec<ThreadId>,
    living: &mut Vec<usize>,
    thread: ThreadId,
    children: &[ThreadId],
) -> bool
    requires room { room ≤ vec_capacity listed.old }
    requires within { length listed.old.items ≤ room }
    ensures listed { OnTrue result (listed.new.items ≡ listed.old.items ++ children.now) }
    ensures counted { OnTrue result (living.new.items
        ≡ slice_set living.old.items thread (count_by (lives control.now) children.now)) }
    ensures room { vec_capacity listed.new ≡ vec_capacity listed.old }
    ensures within { length listed.new.items ≤ room }
    ensures places { length living.new.items ≡ length living.old.items }
{
    if children.len() > room - listed.len() {
        return false;
    }
    let count = list_some(control, children, listed);
    put(living, thread, count);
    true
}

// Lists these threads. How many of them have not ended.
fn list_some(control: &Control, threads: &[ThreadId], listed: &mut Vec<ThreadId>) -> usize
    requires { length listed.old.items + length threads.now ≤ vec_capacity listed.old }
    ensures listed { listed.new.items ≡ listed.old.items ++ threads.now }
    ensures room { vec_capacity listed.new ≡ vec_capacity listed.old }
    ensures count { result ≡ count_by (lives control.now) threads.now }
{
    let mut count = 0;
    for thread in threads {
        listed.push_reserved(*thread);
        if !control.status(*thread).has_ended() {
            count += 1;
        }
    }
    count
}

/// Lists all threads. So many may be listed.
pub(crate) fn list_everybody(program: &Program, listed: &mut Vec<ThreadId>)
    requires { length program.now.threads ≤ vec_capacity listed.old }
    ensures listed { (t : ℕ) → t < length program.now.threads → Contains listed.new.items t }
    ensures room { vec_capacity listed.new ≡ vec_capacity listed.old }
{
    listed.clear();
    for thread in 0..program.thread_count() {
        listed.push_reserved(thread);
    }
}

/// Makes all of these threads absent: where nobody else is present, nobody is then.
pub(crate) fn clear_listed(listed: &[ThreadId], statuses: &mut Items<Status>)
    requires { AllListed statuses.old listed.now }
    ensures absent { AreAbsent statuses.new }
    ensures places { length statuses.new ≡ length statuses.old }
{
    for at in 0..listed.len() {
        let thread = listed[at];
        put_status(statuses, thread, Status::Absent);
    }
}

/// Makes everybody absent, unless all that are present are listed.
pub(crate) fn clear_unlisted(is_all: bool, statuses: &mut Items<Status>)
    ensures listed { (threads : List ℕ) → OnTrue is_all (AllListed statuses.old threads)
        → AllListed statuses.new threads }
    ensures places { length statuses.new ≡ length statuses.old }
{
    if !is_all {
        clear_all(statuses);
    }
}

fn clear_all(statuses: &mut Items<Status>)
    ensures absent { AreAbsent statuses.new }
    ensures places { length statuses.new ≡ length statuses.old }
{
    for thread in 0..statuses.len() {
        statuses.set(thread, Status::Absent);
    }
}
