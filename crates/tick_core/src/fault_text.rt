//! The texts of faults: their numbers.

use crate::state::{BeginFault, StaleClaim};
use std::error::Error;
use std::fmt;

impl fmt::Display for BeginFault {
    ghost use Rattle.std.specs.Prelude.{Some};
    ghost use Rattle.tick_core.specs.FaultText.{fault_text};

    ghost output = { λ fault. Some (fault_text fault) };

    fn fmt<W: fmt::Write>(&self, f: &mut fmt::Formatter<W>) -> fmt::Result {
        match self {
            BeginFault::Input => write!(f, "E51"),
            BeginFault::Memory => write!(f, "E52"),
        }
    }
}

impl Error for BeginFault {}

impl fmt::Display for StaleClaim {
    ghost use Rattle.std.specs.Prelude.{Some, codes};

    ghost output = { λ _. Some (codes "E53") };

    fn fmt<W: fmt::Write>(&self, f: &mut fmt::Formatter<W>) -> fmt::Result {
        write!(f, "E53")
    }
}

impl Error for StaleClaim {}
