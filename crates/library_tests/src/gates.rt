//! Gates of the tests of workers and of players.
use sc_graph::ThreadId;
use std::sync::atomic::{AtomicU64, Ordering};
use std::thread;
use worker_pool::Gate;

/// For how many turns at most a step waits for another.
pub(crate) const TURNS: u64 = 10_000_000;

/// One for which every round of two claims is shared, since a step may wait for another.
pub(crate) struct Shares;

impl Gate for Shares {
    fn passing(&self, _worker: u8, _thread: ThreadId) {}
}

/// It holds each of the first steps of thread 1 or 2, so many of each, until the other's has come, for so many turns at
/// most.
#[derive(Drop)]
pub(crate) struct Meeting {
    held: u64,
    one: AtomicU64,
    two: AtomicU64,
    // steps that bore worker 0, and held ones to which nobody came
    missed: AtomicU64,
}

impl Meeting {
    /// One that holds so many steps of each.
    pub(crate) fn of(held: u64) -> Meeting {
        Meeting {
            held,
            one: AtomicU64::new(0),
            two: AtomicU64::new(0),
            missed: AtomicU64::new(0),
        }
    }

    fn meets(&self, mine: &AtomicU64, other: &AtomicU64) {
        let before = mine.fetch_add(1, Ordering::SeqCst);
        if before >= self.held {
            return;
        }
        for _ in 0..TURNS {
            if other.load(Ordering::SeqCst) > before {
                return;
            }
            thread::yield_now();
        }
        self.missed.fetch_add(1, Ordering::SeqCst);
    }

    /// Whether all that are held came, and met.
    pub(crate) fn met(&self) -> bool {
        self.one.load(Ordering::SeqCst) >= self.held
            && self.two.load(Ordering::SeqCst) >= self.held
            && self.missed.load(Ordering::SeqCst) == 0
    }
}

impl Gate for Meeting {
    fn passing(&self, worker: u8, thread: ThreadId) {
        if worker == 0 {
            self.missed.fetch_add(1, Ordering::SeqCst);
        }
        match thread {
            1 => self.meets(&self.one, &self.two),
            2 => self.meets(&self.two, &self.one),
            _ => {}
        }
    }
}
