//! Why an expression has no code.

ghost use Rattle.std.specs.Prelude.{Some};
ghost use Rattle.sc_values.specs.FaultText.{fault_text};

use std::error::Error;
use std::fmt;

/// Why an expression has no code. It prints as the number of the fault.
#[derive(Clone, Copy, Debug, PartialEq, Eq)]
pub enum CodeFault {
    /// E05: it isn't well kinded.
    Kind,
    /// E07: it has more than 64 operations, more than 16 operands at some moment, or more than 16
    /// loads.
    Limit,
}

impl fmt::Display for CodeFault {
    ghost output = { λ fault. Some (fault_text fault) };

    fn fmt<W: fmt::Write>(&self, f: &mut fmt::Formatter<W>) -> fmt::Result {
        match self {
            CodeFault::Kind => write!(f, "E05"),
            CodeFault::Limit => write!(f, "E07"),
        }
    }
}

impl Error for CodeFault {}
