//! The protocol edges of a program: of two concurrent nodes that use one variable the init comes before
//! the update and the read, and the update before the read. Pairs of nodes are never stored.

ghost use Rattle.std.specs.Prelude.{◌≡◌, ◌↔◌, IfOk, IsTrue, ℕ, Err, []};
ghost use Rattle.conflict_edges.specs.Followers.{AreFollowers};
ghost use Rattle.conflict_edges.specs.declared.fault.ConflictFault.TheVariants.{WriteWrite};
ghost use Rattle.program_edges.specs.Conflicts.{HasNoConflict};
ghost use Rattle.program_edges.specs.Users.{UsersOf};
ghost use Rattle.sc_graph.specs.Links.{Tells};
ghost use Rattle.sc_graph.specs.Protocol.{WriteConflict};
ghost use Rattle.sc_graph.specs.Threads.{ConcurrentNodes};
ghost use Rattle.sc_graph.specs.Valid.{IsFormed};

use crate::fault::ConflictFault;
use program_edges::{Users, are_concurrent, find_conflict, has_company};
use sc_graph::{Links, NodeId, Program, Step};
use std::alloc::Global;
use std::marker::Model;

/// The protocol edges of a program without write conflicts. Contracts see the program.
#[derive(Drop)]
pub struct Edges<'a> {
    program: &'a Program,
    links: &'a Links,
    users: Users,
}

impl<'a> Model for Edges<'a> {
    ghost use Rattle.sc_graph.specs.Program.{Program};
    ghost use Rattle.conflict_edges.specs.Inside.Held.{AreHeld};

    ghost Value = { Program };

    ghost view = { λ e. e.program.now };

    ghost invariant = { λ e. AreHeld e.program.now e.links.now e.users };
}

/// Nodes of which each that is concurrent with a given one must come after it: those that update the
/// variable that it initializes, and those that read the variable that it writes.
#[derive(Clone, Copy)]
pub struct Followers<'a> {
    pub updates: &'a [NodeId],
    pub reads: &'a [NodeId],
}

/// The protocol edges of a formed program, by its links. `WriteWrite`: two of its nodes, the smaller first, conflict.
/// `Memory`: memory was refused.
pub fn conflicts<'a>(
    alloc: Global,
    program: &'a Program,
    links: &'a Links,
) -> Result<Edges<'a>, ConflictFault>
    requires formed { IsFormed program.now }
    requires told { Tells program.now links.now }
    ensures edges { IfOk result (λ e. e ≡ program.now) }
    ensures none { IfOk result (λ _. HasNoConflict program.now) }
    ensures conflict { (m n : ℕ) → result ≡ Err (WriteWrite m n) → WriteConflict program.now m n }
{
    let users = Users::of(alloc, program)?;
    match find_conflict(alloc, program, links, &users)? {
        Some((m, n)) => Err(ConflictFault::WriteWrite(m, n)),
        None => Ok(Edges {
            program,
            links,
            users,
        }),
    }
}

// No nodes.
fn nobody() -> &'static [NodeId]
    ensures { result.now ≡ [] }
{
    &[]
}

impl<'a> Edges<'a> {
    /// The nodes to which protocol edges lead from a node, among others that are not concurrent with it.
    pub fn followers(&self, node: NodeId) -> Followers<'_>
        ensures { AreFollowers self.now node result }
    {
        match self.program.step(node) {
            Some(Step::Assign { variable, .. }) => Followers {
                updates: self.users.updates.of(*variable),
                reads: self.users.reads.of(*variable),
            },
            Some(
                Step::Update {
                    variable: updated,
                    ..
                },
            ) => Followers {
                updates: nobody(),
                reads: self.users.reads.of(*updated),
            },
            _ => Followers {
                updates: nobody(),
                reads: nobody(),
            },
        }
    }

    /// The links of the program.
    pub fn links(&self) -> &Links
        ensures { Tells self.now result.now }
    {
        self.links
    }

    /// The nodes that use each variable of the program.
    pub fn users(&self) -> &Users
        ensures { UsersOf self.now result.now }
    {
        &self.users
    }

    /// Whether two nodes are concurrent.
    pub fn are_concurrent(&self, m: NodeId, n: NodeId) -> bool
        ensures { IsTrue result ↔ ConcurrentNodes self.now m n }
    {
        are_concurrent(self.program, self.links, m, n)
    }

    /// Whether a node may be concurrent with another: where not, it is so with none. It costs a step for each thread
    /// above it, so that where many pairs are asked for the first of them is asked for this before.
    pub fn has_company(&self, node: NodeId) -> bool
        ensures { (other : ℕ) → ConcurrentNodes self.now node other → IsTrue result }
    {
        has_company(self.program, self.links, node)
    }
}
