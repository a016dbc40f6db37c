//! What lies under the lock.

use crate::of_image::OfImage;
use crate::shared_tick::SharedTick;
use crate::weighing::SHARE;
use crate::worker::{Claimed, Next};

/// What lies under the lock: the tick that the workers share, and what is counted of them. Whenever the lock is taken,
/// the tick is one of the shared image, its history is a priority run from its start to its present configuration, and
/// each open claim could be committed.
#[derive(Drop)]
pub(crate) struct Locked<'x, J: OfImage> {
    // none while no tick is shared
    pub shared_tick: Option<SharedTick<'x, J>>,
    pub counts: Counts,
}

/// What is counted of the workers that share a tick, and who of them waits.
#[derive(Clone, Copy)]
pub(crate) struct Counts {
    // how many claims were made and not committed
    pub standing: u64,
    // in how many turns claims were put
    pub puts: u64,
    // how many workers wait for claims, and whether the first one does
    pub resting: u64,
    pub first_rests: bool,
    // nobody is enabled in the tick
    pub over: bool,
    // no tick will be shared any more
    pub closed: bool,
}

/// Who is to be woken.
#[derive(Clone, Copy)]
pub(crate) struct Calls {
    pub first: bool,
    pub others: u64,
}

impl Calls {
    /// Nobody.
    pub(crate) fn none() -> Calls {
        Calls {
            first: false,
            others: 0,
        }
    }
}

impl Counts {
    /// Where no tick is shared.
    pub(crate) fn new() -> Counts {
        Counts {
            standing: 0,
            puts: 0,
            resting: 0,
            first_rests: false,
            over: false,
            closed: false,
        }
    }

    /// Notes what a turn came to: what its worker then knows, and who is to be woken. Where a step may wait for
    /// another, each claim is worth a worker.
    pub(crate) fn note(&mut self, claimed: Claimed, waits: bool) -> (Next, Calls) {
        let count = claimed.put.saturating_add(claimed.kept);
        self.standing = self.standing.saturating_add(count);
        let calls = self.calls(wanted(claimed, waits), claimed.over);
        (self.next(claimed.over), calls)
    }

    /// What a worker knows when it leaves the lock.
    pub(crate) fn next(&self, over: bool) -> Next {
        Next {
            puts: self.puts,
            standing: self.standing,
            over,
        }
    }

    /// Another worker waits for claims from now on.
    pub(crate) fn rest(&mut self) {
        self.resting = self.resting.saturating_add(1);
    }

    /// What another worker knows that waits no longer. None: no tick will be shared any more.
    pub(crate) fn rise(&mut self) -> Option<Next> {
        self.resting = self.resting.saturating_sub(1);
        if self.closed {
            None
        } else {
            Some(self.next(false))
        }
    }

    /// What the first worker knows, who waits no longer.
    pub(crate) fn rise_first(&mut self) -> Next {
        self.first_rests = false;
        self.next(self.over)
    }

    // Who is to be woken after a turn, in which there was work for so many others or the tick came to its end.
    fn calls(&mut self, wanted: u64, over: bool) -> Calls {
        if over {
            self.over = true;
            return Calls {
                first: self.first_rests,
                others: 0,
            };
        }
        if wanted == 0 {
            return Calls::none();
        }
        self.call(wanted)
    }

    // There is work for so many others.
    fn call(&mut self, wanted: u64) -> Calls {
        self.puts = self.puts.wrapping_add(1);
        let first = self.first_rests;
        let left = if first {
            wanted.saturating_sub(1)
        } else {
            wanted
        };
        let others = if left < self.resting {
            left
        } else {
            self.resting
        };
        Calls { first, others }
    }
}

// How many others there is work for after a turn. Who put all of its claims takes one of them itself.
fn wanted(claimed: Claimed, waits: bool) -> u64 {
    let others = if claimed.kept > 0 {
        claimed.put
    } else {
        claimed.put.saturating_sub(1)
    };
    let shares = claimed.work / SHARE;
    if waits || others < shares {
        others
    } else {
        shares
    }
}
