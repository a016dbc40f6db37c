//! Why a program is not printed.

use std::error::Error;
use std::fmt;

/// Why a program was not printed whole.
#[derive(Clone, Copy, Debug, PartialEq, Eq)]
pub enum PrintFault {
    /// E63: the sink failed, or took no byte.
    Write,
}

impl fmt::Display for PrintFault {
    ghost use Rattle.std.specs.Prelude.{Some, codes};

    ghost output = { λ _. Some (codes "E63") };

    fn fmt<W: fmt::Write>(&self, f: &mut fmt::Formatter<W>) -> fmt::Result {
        write!(f, "E63")
    }
}

impl Error for PrintFault {}
