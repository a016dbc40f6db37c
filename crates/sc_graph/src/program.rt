//! Programs: variables, threads and nodes.

ghost use Rattle.std.specs.Prelude.{◌≡◌, ◌≤◌, ◌≢◌, ◌↔◌, ℕ, IsTrue, Some, length, slice_get};
ghost use Rattle.std.specs.Result.{OkIff};
ghost use Rattle.sc_graph.specs.Layout.{FitsLayout, CountsChildren};
ghost use Rattle.sc_graph.specs.Limits.{count_limit, child_count_limit, no_parent};
ghost use Rattle.sc_graph.specs.declared.program.Node.{Node};
ghost use Rattle.sc_graph.specs.declared.program.Thread.{Thread};

use crate::limits::{CHILD_COUNT_LIMIT, COUNT_LIMIT, NO_PARENT};
use sc_values::{Code, Combination, Kind, Name};
use sqlite_items::Items;
use std::error::Error;
use std::fmt;
use std::marker::Model;

/// The number of a variable, from 0.
pub type VariableId = u16;

/// The number of a thread, from 0. Thread 0 is the root.
pub type ThreadId = u16;

/// The number of a node, from 0.
pub type NodeId = u16;

/// Who writes a variable, and who sees it.
#[derive(Clone, Copy, PartialEq, Eq)]
pub enum Role {
    Input,
    Output,
    Local,
}

/// A variable of a program.
#[derive(Clone, Copy)]
pub struct Variable {
    pub name: Name,
    pub kind: Kind,
    pub role: Role,
}

/// A thread: the thread that forks it, which the root alone lacks, and the node where it begins.
#[derive(Clone, Copy)]
pub struct Thread {
    pub parent: Option<ThreadId>,
    pub entry: NodeId,
}

/// What a step of a thread does at a node, and where it goes on.
#[derive(Drop)]
pub enum Step {
    /// The variable becomes the code's value.
    Assign {
        variable: VariableId,
        code: Code,
        next: NodeId,
    },
    /// The variable becomes its own value combined with the code's.
    Update {
        variable: VariableId,
        combine: Combination,
        code: Code,
        next: NodeId,
    },
    /// Goes on at `then` where the code's value is true, else at `other`.
    Cond {
        code: Code,
        then: NodeId,
        other: NodeId,
    },
    /// Each child comes to stand at its entry, and the thread waits at the join.
    Fork {
        children: Items<ThreadId>,
        join: NodeId,
    },
    /// Where a thread waits until all children of its fork have ended.
    Join {
        next: NodeId,
    },
    /// The thread pauses, until the next tick, at the depth.
    Surf {
        depth: NodeId,
    },
    /// Where a paused thread goes on in the next tick.
    Depth {
        next: NodeId,
    },
    /// The thread ends.
    Exit,
}

/// A node, and the thread that owns it.
#[derive(Drop)]
pub struct Node {
    pub owner: ThreadId,
    pub step: Step,
}

/// Why lists make no program. It prints as the number of the fault.
#[derive(Clone, Copy, Debug, PartialEq, Eq)]
pub enum ProgramFault {
    /// E07: a count does not fit the layout of an image, or a parent has the number that stands for
    /// none.
    Limit,
}

impl fmt::Display for ProgramFault {
    ghost use Rattle.std.specs.Prelude.{Some, codes};

    ghost output = { λ _. Some (codes "E07") };

    fn fmt<W: fmt::Write>(&self, f: &mut fmt::Formatter<W>) -> fmt::Result {
        match self {
            ProgramFault::Limit => write!(f, "E07"),
        }
    }
}

impl Error for ProgramFault {}

/// A program: its variables, its threads and their nodes, in counts that an image can hold.
/// Contracts see the three lists.
#[derive(Drop)]
pub struct Program {
    variables: Items<Variable>,
    threads: Items<Thread>,
    nodes: Items<Node>,
}

impl Model for Program {
    ghost use Rattle.sc_graph.specs.Program.{Program};

    ghost Value = { Program };

    ghost use Rattle.sc_graph.specs.Layout.{FitsLayout};

    ghost view = { λ p. record { variables = p.variables; threads = p.threads; nodes = p.nodes } };

    ghost invariant = { λ p. FitsLayout p.variables p.threads p.nodes };
}

impl Program {
    /// The program of these lists. `Limit` where they do not fit the layout of an image: more than
    /// 65535 variables, threads or nodes, more than 255 children of a fork, or a parent of number
    /// 65535.
    pub fn of(
        variables: Items<Variable>,
        threads: Items<Thread>,
        nodes: Items<Node>,
    ) -> Result<Program, ProgramFault>
        ensures { OkIff result (FitsLayout variables threads nodes)
            (record { variables = variables; threads = threads; nodes = nodes }) }
    {
        let counts_fit = variables.len() <= COUNT_LIMIT
            && threads.len() <= COUNT_LIMIT
            && nodes.len() <= COUNT_LIMIT;
        if counts_fit
            && are_parents_sayable(threads.as_slice())
            && are_children_countable(nodes.as_slice())
        {
            Ok(Program {
                variables,
                threads,
                nodes,
            })
        } else {
            Err(ProgramFault::Limit)
        }
    }

    /// How many variables there are.
    pub fn variable_count(&self) -> u16
        ensures { result ≡ length self.now.variables }
    {
        self.variables.len() as u16
    }

    /// How many threads there are.
    pub fn thread_count(&self) -> u16
        ensures count { result ≡ length self.now.threads }
        ensures layout { FitsLayout self.now.variables self.now.threads self.now.nodes }
    {
        self.threads.len() as u16
    }

    /// How many nodes there are.
    pub fn node_count(&self) -> u16
        ensures count { result ≡ length self.now.nodes }
        ensures layout { FitsLayout self.now.variables self.now.threads self.now.nodes }
    {
        self.nodes.len() as u16
    }

    /// Its variables, in order of their numbers.
    pub fn variables(&self) -> &[Variable]
        ensures { result.now ≡ self.now.variables }
    {
        self.variables.as_slice()
    }

    /// Its threads, in order of their numbers.
    pub fn threads(&self) -> &[Thread]
        ensures { result.now ≡ self.now.threads }
    {
        self.threads.as_slice()
    }

    /// Its nodes, in order of their numbers.
    pub fn nodes(&self) -> &[Node]
        ensures { result.now ≡ self.now.nodes }
    {
        self.nodes.as_slice()
    }
}

fn are_parents_sayable(threads: &[Thread]) -> bool
    ensures { IsTrue result ↔ ((t : ℕ) (x : Thread) → slice_get threads.now t ≡ Some x → x.parent ≢ Some no_parent) }
{
    for thread in threads {
        if thread.parent == Some(NO_PARENT) {
            return false;
        }
    }
    true
}

fn counts_children(step: &Step) -> bool
    ensures { IsTrue result ↔ CountsChildren step.now }
{
    match step {
        Step::Fork { children, join: _ } => children.len() <= CHILD_COUNT_LIMIT,
        _ => true,
    }
}

fn are_children_countable(nodes: &[Node]) -> bool
    ensures { IsTrue result ↔ ((n : ℕ) (x : Node) → slice_get nodes.now n ≡ Some x → CountsChildren x.step) }
{
    for node in nodes {
        if !counts_children(&node.step) {
            return false;
        }
    }
    true
}
