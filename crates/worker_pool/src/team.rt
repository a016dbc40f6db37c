//! The first worker, and those whom it may start.

ghost use Rattle.std.specs.Prelude.{◌≤◌, All};
ghost use Rattle.worker_pool.specs.Passes.{IsPassTo};

use crate::gate::Gate;
use crate::of_image::OfImage;
use crate::shared::Shared;
use crate::shared_tick::SharedTick;
use crate::worker::Worker;
use crate::working::{attend, start};
use ready_queue::Pass;
use std::sync::Wait;
use std::thread::Scope;

/// The first worker, who serves in the caller's thread, and the passes of those whom it may start.
#[derive(Drop)]
pub struct Team<'r, 'x, J: OfImage, G: Gate> {
    pub(crate) shared: &'r Shared<'x, J, G>,
    worker: Worker<'r, 'x, J, G>,
    // those that nobody has
    passes: Vec<Pass<'x>>,
    // how many workers there are, and how many there may be
    started: u8,
    pub(crate) workers: u8,
    ghost own: { All (λ p. IsPassTo shared.now p) passes.items },
    ghost few: { workers ≤ 8 },
}

impl<'r, 'x, J: OfImage, G: Gate> Team<'r, 'x, J, G> {
    /// A team of so many workers, of whom the others are started when there is work for them. None: there is no pass.
    pub fn of(
        shared: &'r Shared<'x, J, G>,
        passes: Vec<Pass<'x>>,
        workers: u8,
    ) -> Option<Team<'r, 'x, J, G>>
        requires passes { All (λ p. IsPassTo shared.now p) passes.items }
        requires workers { workers ≤ 8 }
    {
        let mut passes = passes;
        match shared.next_pass(&mut passes) {
            Some(pass) => Some(Team {
                shared,
                worker: Worker::of(shared, pass, 1, workers),
                passes,
                started: 1,
                workers,
            }),
            None => {
                drop(passes);
                None
            }
        }
    }

    /// Shares a tick until nobody is enabled. None: it was lost.
    pub(crate) fn share<'s, R, E>(
        &mut self,
        rt: &'s R,
        scope: &'s Scope<'s, E>,
        shared_tick: SharedTick<'x, J>,
    ) -> Option<SharedTick<'x, J>>
    where
        R: Wait + Sync,
        J: Send + Sync + 's,
        G: Sync + 's,
        E: 's,
        'r: 's,
        'x: 's,
    {
        let next = self.worker.lay(rt, shared_tick);
        self.start_others(rt, scope);
        attend(rt, &mut self.worker, next);
        self.shared.clear(rt)
    }

    // Starts all others that may be started.
    fn start_others<'s, R, E>(&mut self, rt: &'s R, scope: &'s Scope<'s, E>)
    where
        R: Wait + Sync,
        J: Send + Sync + 's,
        G: Sync + 's,
        E: 's,
        'r: 's,
        'x: 's,
    {
        for _ in 0..8 {
            match self.another() {
                Some(worker) => start(scope, rt, worker),
                None => return,
            }
        }
    }

    // One more worker.
    fn another(&mut self) -> Option<Worker<'r, 'x, J, G>> {
        if self.started >= self.workers {
            return None;
        }
        match self.shared.next_pass(&mut self.passes) {
            Some(pass) => {
                self.started += 1;
                Some(Worker::of(self.shared, pass, self.started, self.workers))
            }
            None => None,
        }
    }

    /// No tick will be shared any more: the other workers leave.
    pub fn close<R: Wait>(&self, rt: &R) {
        self.shared.close(rt);
    }
}
