//! The texts of faults.

use crate::fault::Fault;
use std::error::Error;
use std::fmt;

impl fmt::Display for Fault {
    ghost use Rattle.std.specs.Prelude.{Some};
    ghost use Rattle.sct_command.specs.FaultText.{fault_text};

    ghost output = { λ fault. Some (fault_text fault) };

    fn fmt<W: fmt::Write>(&self, f: &mut fmt::Formatter<W>) -> fmt::Result {
        match self {
            Fault::Files(fault) => write!(f, "{fault}"),
            Fault::Play(fault, _) => write!(f, "{fault}"),
            Fault::Write => write!(f, "E63"),
            Fault::Tests => write!(f, "E66"),
            Fault::Place(shown) => write!(f, "E67 {shown}"),
        }
    }
}

impl Error for Fault {}
