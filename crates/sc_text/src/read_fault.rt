//! Why a text is refused.

ghost use Rattle.std.specs.Prelude.{◌≡◌, Some};
ghost use Rattle.sc_text.specs.FaultText.{broken_number, fault_text};
ghost use Rattle.sc_text.specs.declared.read_fault.ReadFault.TheVariants.{Memory};

use std::alloc::{AllocError, AllocFailed};
use std::fmt::{self, Display, Formatter, Write};

/// What is broken at the place of a reader's fault.
#[derive(Clone, Copy, Debug, PartialEq, Eq)]
pub enum FaultKind {
    /// No token stands there, or a chart's name begins with `_`: E01.
    Token,
    /// By the grammar the text can't go on with this token, or may not end: E02.
    Grammar,
    /// A variable, a target or a label that isn't declared: E03.
    Unknown,
    /// A second variable, region, state or label of the same name: E04.
    Repeated,
    /// An expression of the wrong kind: E05.
    Kind,
    /// A rule of the language that is broken: E06.
    Rule,
    /// A limit that is passed: E07.
    Limit,
}

impl FaultKind {
    /// The number of the fault, from 1 to 7.
    pub fn number(self) -> u8
        ensures { result ≡ broken_number self }
    {
        match self {
            FaultKind::Token => 1,
            FaultKind::Grammar => 2,
            FaultKind::Unknown => 3,
            FaultKind::Repeated => 4,
            FaultKind::Kind => 5,
            FaultKind::Rule => 6,
            FaultKind::Limit => 7,
        }
    }
}

/// Why a text is refused.
#[derive(Clone, Copy, Debug, PartialEq, Eq)]
pub enum ReadFault {
    /// What is broken, and the place of its first byte, from 0; at the end of the text its length.
    Text(FaultKind, usize),
    /// Memory was refused.
    Memory,
}

impl Display for ReadFault {
    ghost output = { λ fault. Some (fault_text fault) };

    fn fmt<W: Write>(&self, f: &mut Formatter<W>) -> fmt::Result {
        match self {
            ReadFault::Text(broken, at) => write!(f, "E0{} at {}", broken.number(), at),
            ReadFault::Memory => f.write_str("E52"),
        }
    }
}

impl From<AllocError> for ReadFault {
    ghost from_gives = { λ _ e. e ≡ Memory };

    fn from(_e: AllocError) -> ReadFault {
        ReadFault::Memory
    }
}

impl<T: Drop> From<AllocFailed<T>> for ReadFault {
    ghost from_gives = { λ _ e. e ≡ Memory };

    fn from(_e: AllocFailed<T>) -> ReadFault {
        ReadFault::Memory
    }
}
