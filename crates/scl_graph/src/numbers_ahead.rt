//! The numbers that come next at a place of a text.

ghost use Rattle.std.specs.Prelude.{◌≡◌, ◌+◌, ◌≤◌};
ghost use Rattle.scl_graph.specs.Inside.Totals.{HasBranchRoom, HasRoom, after, inside, past, past_branch, number_limit};

use crate::totals::Totals;

/// The numbers that come next at a place of a text, however long this is: of a node of the thread, of a
/// thread, of that thread's first node, and of a goto.
#[derive(Clone, Copy)]
pub(crate) struct NumbersAhead {
    pub(crate) node: u64,
    pub(crate) thread: u64,
    pub(crate) base: u64,
    pub(crate) goto: u64,
}

impl NumbersAhead {
    /// The numbers behind what counts this.
    pub(crate) fn past(self, totals: Totals) -> NumbersAhead
        requires { HasRoom self totals }
        ensures { result ≡ past self totals }
    {
        NumbersAhead {
            node: self.node + totals.nodes,
            thread: self.thread + totals.threads,
            base: self.base + totals.lower,
            goto: self.goto + totals.jumps,
        }
    }

    /// The numbers behind one node of the thread.
    pub(crate) fn after_a_node(self) -> NumbersAhead
        requires { self.node + 1 ≤ number_limit }
        ensures { result ≡ after 1 self }
    {
        NumbersAhead {
            node: self.node + 1,
            thread: self.thread,
            base: self.base,
            goto: self.goto,
        }
    }

    /// The numbers within a branch whose text counts this, of which the thread is the next one.
    pub(crate) fn inside(self, totals: Totals) -> NumbersAhead
        requires { HasBranchRoom self totals }
        ensures { result ≡ inside self totals }
    {
        NumbersAhead {
            node: self.base,
            thread: self.thread + 1,
            base: self.base + totals.nodes + 1,
            goto: self.goto,
        }
    }

    /// The numbers behind such a branch.
    pub(crate) fn past_branch(self, totals: Totals) -> NumbersAhead
        requires { HasBranchRoom self totals }
        ensures { result ≡ past_branch self totals }
    {
        NumbersAhead {
            node: self.node,
            thread: self.thread + totals.threads + 1,
            base: self.base + totals.nodes + 1 + totals.lower,
            goto: self.goto + totals.jumps,
        }
    }
}
