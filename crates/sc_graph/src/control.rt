//! Configurations, and where threads stand.

ghost use Rattle.std.specs.Prelude.{◌≡◌, ◌↔◌, IsTrue};
ghost use Rattle.sc_graph.specs.Control.{status_of, has_ended};
ghost use Rattle.sc_graph.specs.Tick.{IsPresent};

use crate::program::{NodeId, ThreadId};
use sc_values::Value;
use sqlite_items::Items;

/// Where a thread stands: its control point.
#[derive(Clone, Copy, PartialEq, Eq)]
pub enum Status {
    /// Not there: not forked, or its fork was left.
    Absent,
    /// At this node.
    At(NodeId),
    /// At this join, until all children of its fork have ended.
    Waiting(NodeId),
    /// At this depth, until the next tick.
    Paused(NodeId),
    /// At its end.
    Ended,
}

/// A configuration: a value for each variable and a status for each thread, in their order.
#[derive(Drop)]
pub struct Control {
    pub variables: Items<Value>,
    pub statuses: Items<Status>,
}

impl Status {
    /// Whether the thread is there: forked, and its fork not yet left.
    pub fn is_present(self) -> bool
        ensures { IsTrue result ↔ IsPresent self }
    {
        match self {
            Status::Absent => false,
            _ => true,
        }
    }

    /// Whether the thread is at its end.
    pub fn has_ended(self) -> bool
        ensures { result ≡ has_ended self }
    {
        match self {
            Status::Ended => true,
            _ => false,
        }
    }
}

impl Control {
    /// The status of a thread; a number without a thread counts as absent.
    pub fn status(&self, thread: ThreadId) -> Status
        ensures { result ≡ status_of self.now thread }
    {
        match self.statuses.as_slice().get(thread as usize) {
            Some(status) => *status,
            None => Status::Absent,
        }
    }
}
