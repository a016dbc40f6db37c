//! What the workers of one image share.

ghost use Rattle.std.specs.Prelude.{◌≡◌};

use crate::gate::Gate;
use crate::locked::{Calls, Counts, Locked};
use crate::of_image::OfImage;
use crate::shared_tick::SharedTick;
use crate::worker::Next;
use ready_queue::{Pass, ReadyQueue};
use std::alloc::{AllocError, Global};
use std::hint::spin_loop;
use std::sync::{Condvar, Mutex, MutexGuard, Wait};
use verifier::Verified;

// How often a worker looks for the lock before it sleeps. Under the lock others commit and claim, in less than a
// microsecond, and to be put to sleep and woken costs several.
const LOOKS: u32 = 400;

/// What the workers of one image share: the tick under way, under a lock, and the queue of its claims.
#[derive(Drop)]
pub struct Shared<'x, J: OfImage, G: Gate> {
    pub(crate) verified: &'x Verified,
    pub(crate) locked: Mutex<Locked<'x, J>>,
    // claims were put, or this was closed
    pub(crate) others: Condvar,
    // claims were put, or the tick is over
    pub(crate) first: Condvar,
    pub(crate) queue: ReadyQueue<'x>,
    pub(crate) gate: &'x G,
    ghost of_image: { verified.now ≡ J.image },
}

impl<'x, J: OfImage, G: Gate> Shared<'x, J, G> {
    ghost use Rattle.std.specs.Prelude.{◌≡◌, All, IfOk, IfSome};
    ghost use Rattle.worker_pool.specs.Passes.{IsPassTo};

    /// What workers share for ticks of an image, and a pass for each of them. Err: memory was refused.
    pub fn open(
        alloc: Global,
        verified: &'x Verified,
        gate: &'x G,
    ) -> Result<(Shared<'x, J, G>, Vec<Pass<'x>>), AllocError>
        requires { verified.now ≡ J.image }
        ensures { IfOk result (λ r. All (λ p. IsPassTo r.0 p) r.1.items) }
    {
        let (queue, passes) = ReadyQueue::open(alloc, verified)?;
        Ok((Shared::of(verified, gate, queue), passes))
    }

    // What they share by this queue, with no tick.
    fn of(verified: &'x Verified, gate: &'x G, queue: ReadyQueue<'x>) -> Shared<'x, J, G>
        requires { verified.now ≡ J.image }
        ensures { result.queue ≡ queue.entry }
    {
        Shared {
            verified,
            locked: Mutex::new(Locked {
                shared_tick: None,
                counts: Counts::new(),
            }),
            others: Condvar::new(),
            first: Condvar::new(),
            queue,
            gate,
        }
    }

    /// One of the passes to this. None: there is none left.
    #[tactic(auto, using(crate::proofs::Popped::all_left, crate::proofs::Popped::last_of_all))]
    pub(crate) fn next_pass(&self, passes: &mut Vec<Pass<'x>>) -> Option<Pass<'x>>
        requires { All (λ p. IsPassTo self.now p) passes.old.items }
        ensures left { All (λ p. IsPassTo self.now p) passes.new.items }
        ensures own { IfSome result (λ p. IsPassTo self.now p) }
    {
        passes.pop()
    }

    /// Takes the lock, which others hold for a short while.
    pub(crate) fn locked<R: Wait>(&self, rt: &R) -> MutexGuard<'_, Locked<'x, J>> {
        for _ in 0..LOOKS {
            if let Some(guard) = self.locked.try_lock() {
                return guard;
            }
            spin_loop();
        }
        self.locked.lock(rt)
    }

    /// Wakes those who are to be woken.
    pub(crate) fn wake(&self, calls: Calls) {
        if calls.first {
            self.first.notify_one();
        }
        for _ in 0..calls.others {
            self.others.notify_one();
        }
    }

    /// Another worker waits for claims that are put later. None: this is closed.
    pub(crate) fn rest<R: Wait>(&self, rt: &R, seen: u64) -> Option<Next> {
        let mut guard = self.locked(rt);
        guard.counts.rest();
        let mut guard = self.others.wait_while(
            rt,
            guard,
            |locked| locked.counts.puts == seen && !locked.counts.closed,
        );
        guard.counts.rise()
    }

    /// The first worker waits for claims that are put later, or for the end of the tick.
    pub(crate) fn rest_first<R: Wait>(&self, rt: &R, seen: u64) -> Next {
        let mut guard = self.locked(rt);
        guard.counts.first_rests = true;
        let mut guard = self.first.wait_while(
            rt,
            guard,
            |locked| locked.counts.puts == seen && !locked.counts.over,
        );
        guard.counts.rise_first()
    }

    /// Takes the tick away, which is over.
    pub(crate) fn clear<R: Wait>(&self, rt: &R) -> Option<SharedTick<'x, J>> {
        let mut guard = self.locked.lock(rt);
        guard.counts.over = false;
        guard.shared_tick.take()
    }

    /// No tick will be shared any more: the other workers leave.
    pub fn close<R: Wait>(&self, rt: &R) {
        let mut guard = self.locked.lock(rt);
        guard.counts.closed = true;
        drop(guard);
        self.others.notify_all();
    }
}
