//! The hook at each step of a tick.

use sc_graph::ThreadId;

/// A hook at each step of a tick, between its evaluation and its commit. No lock is held there.
pub trait Gate {
    /// A step passes, with the worker and the thread that its claim bears.
    fn passing(&self, worker: u8, thread: ThreadId);

    /// Whether a step that passes may wait for another one to pass. Where none does, a round of little work is not
    /// shared, since waking a worker for it costs more than the work, and a worker takes several steps in one turn.
    fn waits(&self) -> bool {
        true
    }

    /// How much work a step has here, in operations of a code, each of some eight nanoseconds.
    fn work(&self) -> u64 {
        0
    }
}

/// It does nothing.
#[derive(Clone, Copy)]
pub struct NoGate;

impl Gate for NoGate {
    fn passing(&self, _worker: u8, _thread: ThreadId) {}

    fn waits(&self) -> bool {
        false
    }
}
