//! Why a chart has no core chart.

ghost use Rattle.std.specs.Prelude.{◌≡◌};
ghost use Rattle.abort_expansion.specs.declared.fault.ExpandFault.TheVariants.{Memory};

use std::alloc::{AllocError, AllocFailed};
use std::error::Error;
use std::fmt;

/// Why a chart has no core chart. It prints as the number of the fault.
#[derive(Clone, Copy, Debug, PartialEq, Eq)]
pub enum ExpandFault {
    /// E07: with the variables that expansion adds the chart has more than a program may.
    Limit,
    /// E52: memory was refused.
    Memory,
}

impl From<AllocError> for ExpandFault {
    ghost from_gives = { λ _ fault. fault ≡ Memory };

    fn from(_error: AllocError) -> ExpandFault {
        ExpandFault::Memory
    }
}

impl<T: Drop> From<AllocFailed<T>> for ExpandFault {
    ghost from_gives = { λ _ fault. fault ≡ Memory };

    fn from(_error: AllocFailed<T>) -> ExpandFault {
        ExpandFault::Memory
    }
}

impl fmt::Display for ExpandFault {
    ghost use Rattle.std.specs.Prelude.{Some};
    ghost use Rattle.abort_expansion.specs.FaultText.{fault_text};

    ghost output = { λ fault. Some (fault_text fault) };

    fn fmt<W: fmt::Write>(&self, f: &mut fmt::Formatter<W>) -> fmt::Result {
        match self {
            ExpandFault::Limit => write!(f, "E07 limit"),
            ExpandFault::Memory => write!(f, "E52"),
        }
    }
}

impl Error for ExpandFault {}
