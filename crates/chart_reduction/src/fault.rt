//! Why an extended chart is not reduced.

ghost use Rattle.std.specs.Prelude.{◌≡◌};
ghost use Rattle.chart_reduction.specs.declared.fault.ReduceFault.TheVariants.{Memory};

use std::alloc::{AllocError, AllocFailed};
use std::error::Error;
use std::fmt;

/// Why an extended chart is not reduced. It prints as the number of the fault.
#[derive(Clone, Copy, Debug, PartialEq, Eq)]
pub enum ReduceFault {
    /// E07: what it is reduced to breaks a rule or a limit of charts.
    Limit,
    /// E52: memory was refused, or more than 65535 variables, or 1,024 states in a region, would be needed.
    Memory,
}

impl From<AllocError> for ReduceFault {
    ghost from_gives = { λ _ fault. fault ≡ Memory };

    fn from(_error: AllocError) -> ReduceFault {
        ReduceFault::Memory
    }
}

impl<T: Drop> From<AllocFailed<T>> for ReduceFault {
    ghost from_gives = { λ _ fault. fault ≡ Memory };

    fn from(_error: AllocFailed<T>) -> ReduceFault {
        ReduceFault::Memory
    }
}

impl fmt::Display for ReduceFault {
    ghost use Rattle.std.specs.Prelude.{Some};
    ghost use Rattle.chart_reduction.specs.FaultText.{fault_text};

    ghost output = { λ fault. Some (fault_text fault) };

    fn fmt<W: fmt::Write>(&self, f: &mut fmt::Formatter<W>) -> fmt::Result {
        match self {
            ReduceFault::Limit => write!(f, "E07 limit"),
            ReduceFault::Memory => write!(f, "E52"),
        }
    }
}

impl Error for ReduceFault {}
