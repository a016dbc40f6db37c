//! A worker: what it claims, evaluates and commits.

ghost use Rattle.std.specs.Prelude.{◌≤◌};
ghost use Rattle.worker_pool.specs.Passes.{IsPassTo};

use crate::gate::Gate;
use crate::locked::{Calls, Locked};
use crate::of_image::OfImage;
use crate::shared::Shared;
use crate::shared_tick::SharedTick;
use crate::weighing::work_of;
use arrayvec::ArrayVec;
use ready_queue::Pass;
use std::sync::{MutexGuard, Wait};
use tick_core::{Claim, Done, Turn, evaluate};

// How many steps a worker takes in one turn at most, and how many claims it keeps.
const MOST: usize = 16;

/// A worker, with what it holds.
#[derive(Drop)]
pub(crate) struct Worker<'r, 'x, J: OfImage, G: Gate> {
    pub shared: &'r Shared<'x, J, G>,
    pass: Pass<'x>,
    number: u8,
    // how many may work there
    workers: u8,
    // claims that it has made and keeps for itself
    kept: ArrayVec<Option<Claim<'x>>, MOST>,
    ghost own: { IsPassTo shared.now pass },
    ghost numbered: { number ≤ 8 },
}

/// What a worker knows when it has left the lock.
#[derive(Clone, Copy)]
pub(crate) struct Next {
    // in how many turns claims were put by then
    pub puts: u64,
    // how many claims stood then
    pub standing: u64,
    // the tick is over
    pub over: bool,
}

/// What one worker claimed in one turn of the lock.
#[derive(Clone, Copy)]
pub(crate) struct Claimed {
    // how many claims it keeps
    pub kept: u64,
    // how many it put, and how much work they are
    pub put: u64,
    pub work: u64,
    // nobody was enabled
    pub over: bool,
}

impl Next {
    /// Of a worker that knows of no tick.
    pub(crate) fn new() -> Next {
        Next {
            puts: 0,
            standing: 0,
            over: false,
        }
    }
}

impl Claimed {
    fn none(over: bool) -> Claimed {
        Claimed {
            kept: 0,
            put: 0,
            work: 0,
            over,
        }
    }
}

impl<'r, 'x, J: OfImage, G: Gate> Worker<'r, 'x, J, G> {
    /// The worker of this number, one of so many.
    pub(crate) fn of(
        shared: &'r Shared<'x, J, G>,
        pass: Pass<'x>,
        number: u8,
        workers: u8,
    ) -> Worker<'r, 'x, J, G>
        requires own { IsPassTo shared.now pass }
        requires numbered { number ≤ 8 }
    {
        Worker {
            shared,
            pass,
            number,
            workers,
            kept: ArrayVec::new(),
        }
    }

    /// A claim that it has kept, or one out of the queue.
    pub(crate) fn find<R: Wait>(&mut self, rt: &R) -> Option<Claim<'x>> {
        match self.kept.pop().flatten() {
            Some(claim) => Some(claim),
            None => self.shared.queue.take(rt, &mut self.pass),
        }
    }

    /// Takes the step of a claim, and then those of others that it finds, as many as are its share of the claims that
    /// stand; and commits them all.
    pub(crate) fn serve<R: Wait>(&mut self, rt: &R, claim: Claim<'x>, standing: u64) -> Next {
        let mut passed = ArrayVec::<Option<Done<'x>>, MOST>::new();
        passed.push(Some(self.let_pass(claim)));
        for _ in 1..self.share(standing) {
            if passed.is_full() {
                break;
            }
            let Some(claim) = self.find(rt) else {
                break;
            };
            passed.push(Some(self.let_pass(claim)));
        }
        self.bring(rt, passed.as_slice())
    }

    // Evaluates a claim, and lets it pass the gate.
    fn let_pass(&self, claim: Claim<'x>) -> Done<'x> {
        let done = evaluate(claim);
        let passing = done.claim();
        self.shared.gate.passing(passing.worker(), passing.thread());
        done
    }

    // How many steps a worker takes in one turn, where so many claims stand: half of an even share, so that who comes
    // later finds some too. One where a step may wait for another, as what it waits for may have to be committed
    // before.
    fn share(&self, standing: u64) -> u64 {
        if self.shared.gate.waits() {
            1
        } else {
            (standing / (2 * u64::from(self.workers) + 1)).saturating_add(1)
        }
    }

    // How many of several claims a worker keeps, where so many stood before: as many as it takes in one turn. None
    // where a step may wait for another, as another worker may have to take that one.
    fn keeps(&self, standing: u64) -> u64 {
        if self.shared.gate.waits() {
            0
        } else {
            self.share(standing)
        }
    }

    /// Puts a tick under the lock, and claims all that can be claimed.
    pub(crate) fn lay<R: Wait>(&mut self, rt: &R, shared_tick: SharedTick<'x, J>) -> Next {
        let shared = self.shared;
        let mut guard = shared.locked.lock(rt);
        drop(guard.shared_tick.replace(shared_tick));
        guard.counts.standing = 0;
        self.turn(rt, guard, &[])
    }

    // In one turn of the lock: commits, and claims all that can be claimed.
    fn bring<R: Wait>(&mut self, rt: &R, passed: &[Option<Done<'_>>]) -> Next {
        let shared = self.shared;
        self.turn(rt, shared.locked(rt), passed)
    }

    // The same where it has the lock, which it gives back.
    fn turn<R: Wait>(
        &mut self,
        rt: &R,
        guard: MutexGuard<'_, Locked<'x, J>>,
        passed: &[Option<Done<'_>>],
    ) -> Next {
        let mut guard = guard;
        let (next, calls) = self.turn_in(rt, &mut guard, passed);
        drop(guard);
        self.shared.wake(calls);
        next
    }

    // What it knows behind a turn, and who is to be woken.
    fn turn_in<R: Wait>(
        &mut self,
        rt: &R,
        locked: &mut Locked<'x, J>,
        passed: &[Option<Done<'_>>],
    ) -> (Next, Calls) {
        let Some(shared_tick) = &mut locked.shared_tick else {
            return (locked.counts.next(true), Calls::none());
        };
        commit_all(shared_tick, passed);
        let most = self.keeps(locked.counts.standing);
        locked.counts.standing = locked.counts.standing.saturating_sub(passed.len() as u64);
        let claimed = self.claim_all(rt, shared_tick, most);
        locked.counts.note(claimed, self.shared.gate.waits())
    }

    // Claims all that can be claimed. One claim alone it keeps; of several it keeps so many at most, and puts the
    // others.
    fn claim_all<R: Wait>(
        &mut self,
        rt: &R,
        shared_tick: &mut SharedTick<'x, J>,
        most: u64,
    ) -> Claimed {
        let first = match shared_tick.claim(self.number) {
            Turn::Claim(claim) => claim,
            Turn::NoneNow => return Claimed::none(false),
            Turn::Over => return Claimed::none(true),
        };
        let mut claimed = Claimed::none(false);
        match shared_tick.claim(self.number) {
            Turn::Claim(second) => {
                if !self.place(rt, shared_tick, &mut claimed, first, most) {
                    shared_tick.give_back(&second);
                } else if self.place(rt, shared_tick, &mut claimed, second, most) {
                    self.claim_others(rt, shared_tick, &mut claimed, most);
                }
            }
            Turn::NoneNow | Turn::Over => {
                self.keep(shared_tick, &mut claimed, first);
            }
        }
        claimed
    }

    fn claim_others<R: Wait>(
        &mut self,
        rt: &R,
        shared_tick: &mut SharedTick<'x, J>,
        claimed: &mut Claimed,
        most: u64,
    ) {
        for _ in 0..u64::MAX {
            let Turn::Claim(claim) = shared_tick.claim(self.number) else {
                return;
            };
            if !self.place(rt, shared_tick, claimed, claim, most) {
                return;
            }
        }
    }

    // Keeps a claim, where it has fewer than so many and a place for it, or puts it. One that the queue hands back it
    // keeps, or gives back. Whether there may be place for another.
    fn place<R: Wait>(
        &mut self,
        rt: &R,
        shared_tick: &mut SharedTick<'x, J>,
        claimed: &mut Claimed,
        claim: Claim<'x>,
        most: u64,
    ) -> bool {
        if (self.kept.len() as u64) < most && !self.kept.is_full() {
            return self.keep(shared_tick, claimed, claim);
        }
        let work = work_of(&claim, self.shared.gate);
        match self.shared.queue.put(rt, &mut self.pass, claim) {
            Ok(()) => {
                claimed.put = claimed.put.saturating_add(1);
                claimed.work = claimed.work.saturating_add(work);
                true
            }
            Err(claim) => {
                self.keep(shared_tick, claimed, claim);
                false
            }
        }
    }

    // Keeps a claim, or gives it back where it has no place for it. Whether it keeps it.
    fn keep(
        &mut self,
        shared_tick: &mut SharedTick<'x, J>,
        claimed: &mut Claimed,
        claim: Claim<'x>,
    ) -> bool {
        if self.kept.is_full() {
            shared_tick.give_back(&claim);
            return false;
        }
        self.kept.push(Some(claim));
        claimed.kept = claimed.kept.saturating_add(1);
        true
    }
}

fn commit_all<J: OfImage>(shared_tick: &mut SharedTick<'_, J>, passed: &[Option<Done<'_>>]) {
    for done in passed {
        if let Some(done) = done {
            shared_tick.commit(done);
        }
    }
}
