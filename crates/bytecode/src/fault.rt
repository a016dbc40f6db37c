//! Why bytes are no image.

ghost use Rattle.std.specs.Prelude.{◌≡◌};
ghost use Rattle.bytecode.specs.declared.fault.DecodeFault.TheVariants.{Memory};

use std::alloc::{AllocError, AllocFailed};
use std::error::Error;
use std::fmt;

/// Why bytes could not be read as an image: the first fault from the left. It prints as the number of
/// the fault, and of a bad field where it begins.
#[derive(Clone, Copy, Debug, PartialEq, Eq)]
pub enum DecodeFault {
    /// E21: a field has too few bytes left.
    Short,
    /// E22: the bytes do not begin with `SCCB`.
    Magic,
    /// E23: the version is not the one that is read.
    Version,
    /// E24: bytes stand after the end.
    Trailing,
    /// E25: the field whose first byte has this offset holds what it never holds.
    Field(usize),
    /// E52: memory was refused.
    Memory,
}

impl fmt::Display for DecodeFault {
    ghost use Rattle.std.specs.Prelude.{Some};
    ghost use Rattle.bytecode.specs.FaultText.{fault_text};

    ghost output = { λ fault. Some (fault_text fault) };

    fn fmt<W: fmt::Write>(&self, f: &mut fmt::Formatter<W>) -> fmt::Result {
        match self {
            DecodeFault::Short => write!(f, "E21"),
            DecodeFault::Magic => write!(f, "E22"),
            DecodeFault::Version => write!(f, "E23"),
            DecodeFault::Trailing => write!(f, "E24"),
            DecodeFault::Field(offset) => write!(f, "E25 at {offset}"),
            DecodeFault::Memory => write!(f, "E52"),
        }
    }
}

impl Error for DecodeFault {}

impl DecodeFault {
    ghost use Rattle.bytecode.specs.Reading.Image.{told};

    // This fault of a reader, in the bytes from which reading began: within the readers `Field` counts the
    // bytes from the field's first one on, and here it becomes that byte's offset.
    pub(crate) fn in_bytes(self, bytes: &[u8]) -> DecodeFault
        ensures { result ≡ told bytes.now self }
    {
        match self {
            DecodeFault::Field(left) => DecodeFault::Field(bytes.len().saturating_sub(left)),
            fault => fault,
        }
    }
}

impl From<AllocError> for DecodeFault {
    ghost from_gives = { λ _ e. e ≡ Memory };

    fn from(_e: AllocError) -> DecodeFault {
        DecodeFault::Memory
    }
}

impl<T: Drop> From<AllocFailed<T>> for DecodeFault {
    ghost from_gives = { λ _ e. e ≡ Memory };

    fn from(_e: AllocFailed<T>) -> DecodeFault {
        DecodeFault::Memory
    }
}
