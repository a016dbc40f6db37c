//! How many nodes and threads a text has.

ghost use Rattle.std.specs.Prelude.{◌≡◌, ◌+◌, ◌≤◌};
ghost use Rattle.sc_graph.specs.Limits.{count_limit};
ghost use Rattle.scl_graph.specs.Inside.Laying.{HasRoom, after, past};
ghost use Rattle.scl_graph.specs.Inside.Forking.{HasBranchRoom, inside, past_branch};
ghost use Rattle.scl_graph.specs.Counting.{AreSmall, sum};
ghost use Rattle.scl_graph.specs.Inside.Tallies.{sizes_of};

use crate::totals::Totals;
use sc_graph::{NodeId, ThreadId};

/// How many nodes of its own thread a text has, how many threads it forks, and how many nodes these have.
#[derive(Clone, Copy)]
pub struct NodeCounts {
    pub nodes: u16,
    pub threads: u16,
    pub lower: u16,
}

/// The numbers that come next: of a node of the thread, of a thread, and of that thread's first node.
#[derive(Clone, Copy)]
pub(crate) struct NodeNumbers {
    pub node: NodeId,
    pub thread: ThreadId,
    pub base: NodeId,
}

impl NodeCounts {
    // Those of nothing.
    pub(crate) fn none() -> NodeCounts
        ensures { result ≡ record { nodes = 0; threads = 0; lower = 0 } }
    {
        NodeCounts {
            nodes: 0,
            threads: 0,
            lower: 0,
        }
    }

    // Those of two texts together, which are small.
    pub(crate) fn and(self, other: NodeCounts) -> NodeCounts
        requires { AreSmall (sum self other) }
        ensures { result ≡ sum self other }
    {
        NodeCounts {
            nodes: self.nodes + other.nodes,
            threads: self.threads + other.threads,
            lower: self.lower + other.lower,
        }
    }

    // These totals, which are small.
    pub(crate) fn of(totals: Totals) -> NodeCounts
        requires { AreSmall (sizes_of totals) }
        ensures { result ≡ sizes_of totals }
    {
        NodeCounts {
            nodes: totals.nodes as u16,
            threads: totals.threads as u16,
            lower: totals.lower as u16,
        }
    }
}

impl NodeNumbers {
    // The numbers behind what counts this.
    pub(crate) fn past(self, counts: NodeCounts) -> NodeNumbers
        requires { HasRoom self counts }
        ensures { result ≡ past self counts }
    {
        NodeNumbers {
            node: self.node + counts.nodes,
            thread: self.thread + counts.threads,
            base: self.base + counts.lower,
        }
    }

    // The numbers behind one node of the thread.
    pub(crate) fn after_a_node(self) -> NodeNumbers
        requires { self.node + 1 ≤ count_limit }
        ensures { result ≡ after 1 self }
    {
        NodeNumbers {
            node: self.node + 1,
            thread: self.thread,
            base: self.base,
        }
    }

    // The numbers within a branch whose text counts this, of which the thread is the next one.
    pub(crate) fn inside(self, counts: NodeCounts) -> NodeNumbers
        requires { HasBranchRoom self counts }
        ensures { result ≡ inside self counts }
    {
        NodeNumbers {
            node: self.base,
            thread: self.thread + 1,
            base: self.base + counts.nodes + 1,
        }
    }

    // The numbers behind such a branch.
    pub(crate) fn past_branch(self, counts: NodeCounts) -> NodeNumbers
        requires { HasBranchRoom self counts }
        ensures { result ≡ past_branch self counts }
    {
        NodeNumbers {
            node: self.node,
            thread: self.thread + counts.threads + 1,
            base: self.base + counts.nodes + 1 + counts.lower,
        }
    }
}
