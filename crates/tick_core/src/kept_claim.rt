//! Claims as a tick keeps them while they are open.

ghost use Rattle.std.specs.Prelude.{◌≡◌, ◌↔◌, IsTrue};
ghost use Rattle.std.specs.Option.{option_copied};
ghost use Rattle.tick_core.specs.Claims.{HasOperands, checked_by, operations_of};
ghost use Rattle.tick_core.specs.Inside.Work.{IsAlike, DoesSame};

use crate::claim::Claim;
use sc_graph::{NodeId, ThreadId};
use sc_values::{CheckedCode, Code, Operands};
use std::marker::Model;

/// A claim as the tick keeps it while it is open: with a copy of its code, so that it borrows nothing. Contracts see it
/// as the claim.
#[derive(Drop)]
pub struct KeptClaim {
    worker: u8,
    thread: ThreadId,
    node: NodeId,
    code: Option<Code>,
    operands: Operands,
    commits: u32,
}

impl Model for KeptClaim {
    ghost use Rattle.tick_core.specs.Claims.{Claim, checked_by};

    ghost Value = { Claim };

    ghost view = { λ a. record {
      worker = a.worker;
      thread = a.thread;
      node = a.node;
      code = checked_by a.code a.operands;
      operands = a.operands;
      commits = a.commits;
    } };
}

impl KeptClaim {
    /// The claim of these parts.
    pub(crate) fn of(
        worker: u8,
        thread: ThreadId,
        node: NodeId,
        code: Option<Code>,
        operands: Operands,
        commits: u32,
    ) -> KeptClaim
        ensures { result ≡ record {
          worker = worker;
          thread = thread;
          node = node;
          code = checked_by code operands;
          operands = operands;
          commits = commits;
        } }
    {
        KeptClaim {
            worker,
            thread,
            node,
            code,
            operands,
            commits,
        }
    }

    /// Whether the other is the same claim, in every field.
    pub(crate) fn is_same(&self, other: &Claim<'_>) -> bool
        ensures { IsTrue result ↔ (self.now ≡ other.now) }
    {
        self.is_alike(other) && self.does_same(other)
    }

    // Whether the other is of the same worker, thread, node and moment.
    fn is_alike(&self, other: &Claim<'_>) -> bool
        ensures { IsTrue result ↔ IsAlike self.now other.now }
    {
        other.worker() == self.worker()
            && self.thread() == other.thread()
            && self.node() == other.node()
            && self.commits() == other.commits()
    }

    // Whether the other has the same code and operands.
    fn does_same(&self, other: &Claim<'_>) -> bool
        ensures { IsTrue result ↔ DoesSame self.now other.now }
    {
        self.has_same_code(other) && self.has_same_operands(other)
    }

    fn has_same_code(&self, other: &Claim<'_>) -> bool
        ensures { IsTrue result ↔ (operations_of self.now.code ≡ operations_of other.now.code) }
    {
        same_code(self.code(), other.code())
    }

    fn has_same_operands(&self, other: &Claim<'_>) -> bool
        ensures same { IsTrue result ↔ (self.now.operands ≡ other.now.operands) }
        ensures kept { self.now.code ≡ checked_by (operations_of self.now.code) self.now.operands }
        ensures fit { HasOperands other.now.code other.now.operands }
    {
        self.operands() == other.operands()
    }

    /// The worker that made it.
    pub fn worker(&self) -> u8
        ensures { result ≡ self.now.worker }
    {
        self.worker
    }

    /// The thread whose step it is.
    pub fn thread(&self) -> ThreadId
        ensures { result ≡ self.now.thread }
    {
        self.thread
    }

    /// The node at which the thread stands, or the join at which it waits.
    pub fn node(&self) -> NodeId
        ensures { result ≡ self.now.node }
    {
        self.node
    }

    /// The code of its node, where it has one.
    pub fn code(&self) -> Option<&Code>
        ensures { option_copied result ≡ operations_of self.now.code }
    {
        self.code.as_ref()
    }

    /// What the loads of its code take, in the order of the loads.
    pub fn operands(&self) -> &Operands
        ensures value { result.now ≡ self.now.operands }
        ensures code { self.now.code ≡ checked_by (operations_of self.now.code) self.now.operands }
    {
        &self.operands
    }

    /// How many commits came before it.
    pub fn commits(&self) -> u32
        ensures { result ≡ self.now.commits }
    {
        self.commits
    }
}

fn same_code(a: Option<&Code>, b: Option<&CheckedCode<'_>>) -> bool
    ensures { IsTrue result ↔ (option_copied a.entry ≡ operations_of (option_copied b.entry)) }
{
    match (a, b) {
        (Some(a), Some(b)) => a == b.code(),
        (None, None) => true,
        _ => false,
    }
}
