//! The text of a fault: its number, and what it names.

use crate::fault::CompileFault;
use conflict_edges::ConflictFault;
use scl_graph::GraphFault;
use std::error::Error;
use std::fmt;

impl fmt::Display for CompileFault {
    ghost use Rattle.std.specs.Prelude.{Some};
    ghost use Rattle.compiler.specs.FaultText.{fault_text};

    ghost output = { λ fault. Some (fault_text fault) };

    fn fmt<W: fmt::Write>(&self, f: &mut fmt::Formatter<W>) -> fmt::Result {
        match self {
            CompileFault::Expansion(fault) => write!(f, "{fault}"),
            CompileFault::Graph(GraphFault::EmptyLoop(label)) => write!(f, "E14 {label}"),
            CompileFault::Graph(GraphFault::Limit) => write!(f, "E07 limit"),
            CompileFault::Graph(GraphFault::Memory) => write!(f, "E52"),
            CompileFault::Conflict(ConflictFault::WriteWrite(first, second)) => {
                write!(f, "E11 {first} {second}")
            }
            CompileFault::Conflict(ConflictFault::Memory) => write!(f, "E52"),
            CompileFault::Tables(fault) => write!(f, "{fault}"),
            CompileFault::Rule(refusal) => write!(f, "{refusal}"),
        }
    }
}

impl Error for CompileFault {}
