//! Why a program has no tables.

ghost use Rattle.std.specs.Prelude.{◌≡◌};

use sc_graph::NodeId;
use sqlite_items::Items;
use std::alloc::AllocError;
use std::error::Error;
use std::fmt;

/// Why a program has no tables. It prints as the number of the fault and the nodes of the walk.
#[derive(Debug, Drop)]
pub enum TablesFault {
    /// E13: along these nodes a thread goes on within one tick, back to where it began.
    InstantLoop(Items<NodeId>),
    /// E12: instantaneous and protocol edges, among them a protocol edge, close along these nodes.
    Cyclic(Items<NodeId>),
    /// E52: memory was refused.
    Memory,
}

impl From<AllocError> for TablesFault {
    ghost use Rattle.priority_weights.specs.declared.fault.TablesFault.TheVariants.{Memory};

    ghost from_gives = { λ _ e. e ≡ Memory };

    fn from(_error: AllocError) -> TablesFault {
        TablesFault::Memory
    }
}

impl fmt::Display for TablesFault {
    ghost use Rattle.std.specs.Prelude.{Some};
    ghost use Rattle.priority_weights.specs.FaultText.{fault_text};

    ghost output = { λ fault. Some (fault_text fault) };

    fn fmt<W: fmt::Write>(&self, f: &mut fmt::Formatter<W>) -> fmt::Result {
        match self {
            TablesFault::InstantLoop(walk) => write!(f, "E13{}", Walk(walk.as_slice())),
            TablesFault::Cyclic(walk) => write!(f, "E12{}", Walk(walk.as_slice())),
            TablesFault::Memory => write!(f, "E52"),
        }
    }
}

impl Error for TablesFault {}

// The nodes of a walk, each behind a space.
#[derive(Clone, Copy)]
struct Walk<'a>(&'a [NodeId]);

impl<'a> fmt::Display for Walk<'a> {
    ghost use Rattle.std.specs.Prelude.{Some};
    ghost use Rattle.priority_weights.specs.FaultText.{walk_text};

    ghost output = { λ walk. Some (walk_text walk.0.now) };

    fn fmt<W: fmt::Write>(&self, f: &mut fmt::Formatter<W>) -> fmt::Result {
        for node in self.0 {
            write!(f, " {node}")?;
        }
        Ok(())
    }
}
