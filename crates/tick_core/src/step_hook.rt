//! The hook at each step that is taken without a claim.

use sc_graph::ThreadId;

/// A hook at each step that is taken without a claim, when it is evaluated and before it is taken.
pub trait StepHook {
    /// A step passes, with its worker and its thread.
    fn passing(&self, worker: u8, thread: ThreadId);
}

/// It does nothing.
#[derive(Clone, Copy)]
pub(crate) struct NoHook;

impl StepHook for NoHook {
    fn passing(&self, _worker: u8, _thread: ThreadId) {}
}
