//! Why a program has no edges.

ghost use Rattle.std.specs.Prelude.{◌≡◌};

use sc_graph::NodeId;
use std::alloc::AllocError;
use thiserror::Error;

/// Why a program has no edges.
#[derive(Clone, Copy, Debug, PartialEq, Eq, Error)]
pub enum ConflictFault {
    /// Two concurrent nodes write one variable in conflict. The first is the smaller one.
    #[error("E11 {0} {1}")]
    WriteWrite(NodeId, NodeId),
    /// Memory was refused.
    #[error("E52")]
    Memory,
}

impl From<AllocError> for ConflictFault {
    ghost use Rattle.conflict_edges.specs.declared.fault.ConflictFault.TheVariants.{Memory};

    ghost from_gives = { λ _ e. e ≡ Memory };

    fn from(_error: AllocError) -> ConflictFault {
        ConflictFault::Memory
    }
}
