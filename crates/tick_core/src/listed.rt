//! The threads that a tick tells the next one of: who has ended, and had so as the tick began, is not among them.

ghost use Rattle.std.specs.Prelude.{ℕ, ◌≡◌, ◌≤◌, ◌<◌, IsTrue, List, length, vec_capacity, Contains};
ghost use Rattle.std.specs.Bool.{OnTrue};
ghost use Rattle.sc_graph.specs.declared.control.Status.{Status as Standing};
ghost use Rattle.tick_core.specs.Inside.Astir.{Covers, Gains, GainsOne, MustStay, StaysListed, StandsBelow, KeepsOne};

use crate::living::put;
use crate::there::list_everybody;
use sc_graph::{Control, Program, Status, ThreadId};

/// Threads in a list.
#[derive(Drop)]
pub(crate) struct Listed {
    pub(crate) threads: Vec<ThreadId>,
    // by thread, where it may stand in the list: who reads it looks there
    pub(crate) places: Vec<usize>,
    // whether each one that is astir, or stands otherwise than as the tick began, is listed
    pub(crate) is_whole: bool,
    // whether each one is listed that was present as the tick began
    pub(crate) is_all: bool,
    // whether somebody may have ended or become absent since such were left out
    pub(crate) may_be_gone: bool,
}

impl Listed {
    /// Lists these threads too. Where there is no room, it is not whole.
    #[inline(always)]
    pub(crate) fn add_all(&mut self, threads: &[ThreadId])
        ensures { Gains self.old threads.now self.new }
    {
        for at in 0..threads.len() {
            let thread = threads[at];
            self.add(thread);
        }
        self.may_be_gone = true;
    }

    // Lists a thread too, where it is not found.
    fn add(&mut self, thread: ThreadId)
        ensures { GainsOne self.old thread self.new }
    {
        if stands_below(&self.threads, &self.places, self.threads.len(), thread) {
            return;
        }
        let count = self.threads.len();
        if count < self.threads.capacity() {
            put(&mut self.places, thread, count);
            self.threads.push_reserved(thread);
        } else {
            self.is_whole = false;
        }
    }

    /// Leaves out whoever is absent or has ended, but the root, where somebody may be so since this was done last.
    pub(crate) fn leave_out_gone(&mut self, control: &Control)
        ensures kept { StaysListed control.now self.old.threads.items self.new.threads.items }
        ensures room { vec_capacity self.new.threads ≡ vec_capacity self.old.threads }
    {
        if self.may_be_gone {
            keep_astir(control, &mut self.threads, &mut self.places);
            self.may_be_gone = false;
        }
    }

    /// Lists everybody, where the list is not whole.
    pub(crate) fn make_whole(&mut self, program: &Program)
        requires { length program.now.threads ≤ vec_capacity self.old.threads }
        ensures room { vec_capacity self.new.threads ≡ vec_capacity self.old.threads }
        ensures covers { (begun present : List Standing) → 0 < length program.now.threads
            → length begun ≡ length program.now.threads → length present ≡ length program.now.threads
            → OnTrue self.old.is_whole (Covers begun present self.old.threads.items)
            → Covers begun present self.new.threads.items }
    {
        if !self.is_whole {
            list_everybody(program, &mut self.threads);
        }
    }
}

// Leaves out of a list whoever is absent or has ended, but the root, and who stands in it before.
fn keep_astir(control: &Control, threads: &mut Vec<ThreadId>, places: &mut Vec<usize>)
    ensures kept { StaysListed control.now threads.old.items threads.new.items }
    ensures room { vec_capacity threads.new ≡ vec_capacity threads.old }
{
    let mut count = 0;
    for at in 0..threads.len() {
        let thread = threads[at];
        count = keep_one(control, threads, places, count, thread);
    }
    threads.truncate(count);
}

// Puts a thread to the first ones, of which there are so many, where it must stay and is not among them. How many there
// are then.
fn keep_one(
    control: &Control,
    threads: &mut Vec<ThreadId>,
    places: &mut Vec<usize>,
    count: usize,
    thread: ThreadId,
) -> usize
    requires { count < length threads.old.items }
    ensures kept { KeepsOne control.now threads.old.items count thread threads.new.items result }
    ensures room { vec_capacity threads.new ≡ vec_capacity threads.old }
{
    if !must_stay(control, thread) || stands_below(threads, places, count, thread) {
        return count;
    }
    put(places, thread, count);
    threads[count] = thread;
    count + 1
}

// Whether a thread is the root, or is astir.
fn must_stay(control: &Control, thread: ThreadId) -> bool
    ensures { MustStay control.now thread → IsTrue result }
{
    if thread == 0 {
        return true;
    }
    match control.status(thread) {
        Status::At(_) | Status::Waiting(_) | Status::Paused(_) => true,
        Status::Absent | Status::Ended => false,
    }
}

// Whether a thread is found among the first of a list, of which there are so many.
fn stands_below(threads: &[ThreadId], places: &[usize], count: usize, thread: ThreadId) -> bool
    ensures { OnTrue result (StandsBelow threads.now count thread) }
{
    let Some(place) = places.get(thread as usize) else {
        return false;
    };
    match threads.get(*place) {
        Some(other) if *other == thread => *place < count,
        _ => false,
    }
}
