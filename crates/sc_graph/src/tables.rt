//! The certificate of a program.

ghost use Rattle.std.specs.Prelude.{◌≡◌};
ghost use Rattle.sc_graph.specs.Tables.{priority, weight, end_bit, bound};

use crate::program::{NodeId, ThreadId};
use sqlite_items::Items;

/// The certificate of a program: a priority, a weight and an end bit for each node, a bound for
/// each thread, and the budget of a tick.
#[derive(Drop)]
pub struct Tables {
    pub priorities: Items<u16>,
    pub weights: Items<u16>,
    pub end_bits: Items<bool>,
    pub bounds: Items<u32>,
    pub budget: u32,
}

impl Tables {
    /// The priority of a node; 0 where the tables have none.
    pub fn priority(&self, node: NodeId) -> u16
        ensures { result ≡ priority self.now node }
    {
        match self.priorities.as_slice().get(node as usize) {
            Some(priority) => *priority,
            None => 0,
        }
    }

    /// The weight of a node; 0 where the tables have none.
    pub fn weight(&self, node: NodeId) -> u16
        ensures { result ≡ weight self.now node }
    {
        match self.weights.as_slice().get(node as usize) {
            Some(weight) => *weight,
            None => 0,
        }
    }

    /// The end bit of a node, for whether a thread there may end in this tick; false where the
    /// tables have none.
    pub fn end_bit(&self, node: NodeId) -> bool
        ensures { result ≡ end_bit self.now node }
    {
        match self.end_bits.as_slice().get(node as usize) {
            Some(end_bit) => *end_bit,
            None => false,
        }
    }

    /// The bound of a thread; 0 where the tables have none.
    pub fn bound(&self, thread: ThreadId) -> u32
        ensures { result ≡ bound self.now thread }
    {
        match self.bounds.as_slice().get(thread as usize) {
            Some(bound) => *bound,
            None => 0,
        }
    }
}
