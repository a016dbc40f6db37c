//! Lists of nodes by the number of a variable or a thread.

ghost use Rattle.std.specs.Prelude.{◌≡◌, ◌↔◌, ◌⊎◌, ℕ, [], IfOk, OnOk, Contains, get_or};
ghost use Rattle.program_edges.specs.Users.{Gains, IsUnused};

use sc_graph::NodeId;
use std::alloc::{AllocError, Global};
use std::marker::Model;

/// A list of nodes for each number. Contracts see the lists.
#[derive(Drop)]
pub struct NodeLists {
    lists: Vec<Vec<NodeId>>,
}

impl Model for NodeLists {
    ghost use Rattle.std.specs.Prelude.{ℕ, List, map};

    ghost Value = { List (List ℕ) };

    ghost view = { λ u. map (λ v. v.items) u.lists.items };
}

impl NodeLists {
    /// The nodes of a number.
    pub fn of(&self, x: u16) -> &[NodeId]
        ensures { result.now ≡ get_or self.now x [] }
    {
        match self.lists.get(x as usize) {
            Some(nodes) => nodes.as_slice(),
            None => &[],
        }
    }

    /// An empty list for each of so many numbers.
    pub fn none(alloc: Global, count: u16) -> Result<NodeLists, AllocError>
        ensures { IfOk result (IsUnused count) }
    {
        let mut lists = Vec::with_capacity(alloc, count as usize)?;
        for _ in 0..count {
            lists.push(Vec::new(alloc))?;
        }
        Ok(NodeLists { lists })
    }

    /// Puts a node into the list of a number, if it does not end with it.
    pub fn note(&mut self, x: u16, n: NodeId) -> Result<(), AllocError>
        ensures { OnOk result (Gains self.old self.new n (λ y. y ≡ x)) }
    {
        let at = x as usize;
        if at < self.lists.len() {
            note_last(&mut self.lists[at], n)
        } else {
            Ok(())
        }
    }
}

// Puts a node at the end of a list that does not end with it.
fn note_last(nodes: &mut Vec<NodeId>, n: NodeId) -> Result<(), AllocError>
    ensures { OnOk result ((m : ℕ) → Contains nodes.new.items m ↔ Contains nodes.old.items m ⊎ (m ≡ n)) }
{
    if nodes.last() != Some(&n) {
        nodes.push(n)?;
    }
    Ok(())
}
