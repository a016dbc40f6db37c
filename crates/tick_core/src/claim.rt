//! Claims: steps that workers are to evaluate.

ghost use Rattle.std.specs.Prelude.{◌≡◌};
ghost use Rattle.std.specs.Option.{option_copied};
ghost use Rattle.tick_core.specs.Claims.{value_by, HasOperands, operations_of};

use crate::kept_claim::KeptClaim;
use sc_graph::{NodeId, ThreadId};
use sc_values::{CheckedCode, Code, Operands, Value, eval};
use std::marker::Model;

/// A step that a worker is to evaluate: whose it is, at which node, by which code over which
/// operands, and how many commits came before it.
#[derive(Drop)]
pub struct Claim<'a> {
    worker: u8,
    thread: ThreadId,
    node: NodeId,
    code: Option<CheckedCode<'a>>,
    operands: Operands,
    commits: u32,
}

impl<'a> Model for Claim<'a> {
    ghost use Rattle.tick_core.specs.Claims.{Claim, HasOperands};

    ghost Value = { Claim };

    ghost view = { λ a. record {
      worker = a.worker;
      thread = a.thread;
      node = a.node;
      code = a.code;
      operands = a.operands;
      commits = a.commits;
    } };

    ghost invariant = { λ a. HasOperands a.code a.operands };
}

impl<'a> Claim<'a> {
    /// The claim of these parts.
    pub(crate) fn of(
        worker: u8,
        thread: ThreadId,
        node: NodeId,
        code: Option<CheckedCode<'a>>,
        operands: Operands,
        commits: u32,
    ) -> Claim<'a>
        requires { HasOperands code operands }
        ensures { result ≡ record {
          worker = worker;
          thread = thread;
          node = node;
          code = code.entry;
          operands = operands;
          commits = commits;
        } }
    {
        Claim {
            worker,
            thread,
            node,
            code,
            operands,
            commits,
        }
    }

    /// The same claim, as the tick keeps it while it is open.
    pub(crate) fn kept(&self) -> KeptClaim
        ensures { result ≡ self.now }
    {
        let Claim {
            worker,
            thread,
            node,
            code,
            operands,
            commits,
        } = self;
        KeptClaim::of(
            *worker,
            *thread,
            *node,
            copied_code(code),
            operands.copied(),
            *commits,
        )
    }

    /// The worker that made it.
    pub fn worker(&self) -> u8
        ensures { result ≡ self.now.worker }
    {
        self.worker
    }

    /// The thread whose step it is.
    pub fn thread(&self) -> ThreadId
        ensures { result ≡ self.now.thread }
    {
        self.thread
    }

    /// The node at which the thread stands, or the join at which it waits.
    pub fn node(&self) -> NodeId
        ensures { result ≡ self.now.node }
    {
        self.node
    }

    /// The code of its node, where it has one.
    pub fn code(&self) -> Option<&CheckedCode<'a>>
        ensures { option_copied result ≡ self.now.code }
    {
        self.code.as_ref()
    }

    /// What the loads of its code take, in the order of the loads.
    pub fn operands(&self) -> &Operands
        ensures value { result.now ≡ self.now.operands }
        ensures fit { HasOperands self.now.code self.now.operands }
    {
        &self.operands
    }

    /// How many commits came before it.
    pub fn commits(&self) -> u32
        ensures { result ≡ self.now.commits }
    {
        self.commits
    }
}

// A copy of the operations of a checked code.
fn copied_code(code: &Option<CheckedCode<'_>>) -> Option<Code>
    ensures { result ≡ operations_of code.now }
{
    match code {
        Some(code) => Some(code.code().clone().unwrap()),
        None => None,
    }
}

/// A claim that was evaluated, with the value of its code over its operands.
#[derive(Drop)]
pub struct Done<'a> {
    claim: Claim<'a>,
    value: Option<Value>,
}

impl<'a> Model for Done<'a> {
    ghost use Rattle.std.specs.Prelude.{◌≡◌};
    ghost use Rattle.tick_core.specs.Claims.{Done, value_by};

    ghost Value = { Done };

    ghost view = { λ d. record { claim = d.claim; value = d.value } };

    ghost invariant = { λ d. d.value ≡ value_by d.claim.code d.claim.operands };
}

impl<'a> Done<'a> {
    /// The claim.
    pub fn claim(&self) -> &Claim<'a>
        ensures { result.now ≡ self.now.claim }
    {
        &self.claim
    }

    /// The value of its code over its operands; none for a node without code.
    pub fn value(&self) -> Option<Value>
        ensures value { result ≡ self.now.value }
        ensures is { result ≡ value_by self.now.claim.code self.now.claim.operands }
    {
        self.value
    }
}

/// Evaluates a claim: the value of its code over its operands, or none for a node without code.
pub fn evaluate(claim: Claim<'_>) -> Done<'_>
    ensures claim { result.claim ≡ claim.entry }
    ensures value { result.value ≡ value_by claim.entry.code claim.entry.operands }
{
    let value = match &claim.code {
        Some(code) => Some(eval(code, &claim.operands)),
        None => None,
    };
    Done { claim, value }
}
