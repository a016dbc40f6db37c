//! Tables of numbers, one for each node.

ghost use Rattle.std.specs.Prelude.{◌≡◌, slice_index};

use sc_graph::{NodeId, Tables};

/// A number for each node.
pub trait Numbers {
    ghost use Rattle.std.specs.Prelude.{ℕ, List};

    ghost table: { Self → List ℕ };

    /// The number of a node; 0 where it has none.
    fn number(&self, node: NodeId) -> u32
        ensures { result ≡ slice_index (table self.now) node };
}

impl Numbers for Tables {
    ghost table = { λ q. q.priorities };

    fn number(&self, node: NodeId) -> u32 {
        u32::from(self.priority(node))
    }
}

impl Numbers for &[u32] {
    ghost table = { λ numbers. numbers.now };

    fn number(&self, node: NodeId) -> u32 {
        match self.get(node as usize) {
            Some(number) => *number,
            None => 0,
        }
    }
}
