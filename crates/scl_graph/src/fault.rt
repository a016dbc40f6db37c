//! Why a text has no graph.

ghost use Rattle.std.specs.Prelude.{◌≡◌};

use sc_values::Name;
use std::alloc::{AllocError, AllocFailed};

/// Why a text has no graph.
#[derive(Clone, Copy, Debug)]
pub enum GraphFault {
    /// E14: a goto to this label leads through labels and gotos alone back to itself.
    EmptyLoop(Name),
    /// E07: the graph has more nodes or threads than an image may.
    Limit,
    /// E52: memory was refused.
    Memory,
}

impl From<AllocError> for GraphFault {
    ghost use Rattle.scl_graph.specs.declared.fault.GraphFault.TheVariants.{Memory};

    ghost from_gives = { λ _ e. e ≡ Memory };

    fn from(_error: AllocError) -> GraphFault {
        GraphFault::Memory
    }
}

impl<T: Drop> From<AllocFailed<T>> for GraphFault {
    ghost use Rattle.scl_graph.specs.declared.fault.GraphFault.TheVariants.{Memory};

    ghost from_gives = { λ _ e. e ≡ Memory };

    fn from(_error: AllocFailed<T>) -> GraphFault {
        GraphFault::Memory
    }
}
