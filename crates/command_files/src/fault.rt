//! Why a file gives nothing, or is not written.

ghost use Rattle.std.specs.Prelude.{◌≡◌};
ghost use Rattle.command_files.specs.declared.fault.LoadFault.TheVariants.{Memory};

use bytecode::DecodeFault;
use compiler::{CompileFault, SourceFault};
use sc_text::ReadFault;
use std::alloc::{AllocError, AllocFailed};
use verifier::Refusal;

/// Why a file gives no image or no program, or is not written. It prints as the fault line says it.
#[derive(Debug, Drop)]
pub enum LoadFault {
    /// E52: memory was refused.
    Memory,
    /// The bytes spell no image, or memory was refused.
    Image(DecodeFault),
    /// The image breaks a rule, or memory was refused.
    Rule(Refusal),
    /// The text spells no program, or memory was refused.
    Text(ReadFault),
    /// The program has no image, or memory was refused.
    Program(CompileFault),
    /// E64: the file cannot be read or written whose name is shown so.
    File(String),
    /// E65: the text in the file whose name is shown so does not make the image.
    Source(String),
}

impl From<SourceFault> for LoadFault {
    ghost use Rattle.command_files.specs.Sources.{loaded};

    ghost from_gives = { λ f e. e ≡ loaded f };

    fn from(fault: SourceFault) -> LoadFault {
        match fault {
            SourceFault::Text(fault) => LoadFault::Text(fault),
            SourceFault::Expansion(fault) => LoadFault::Program(CompileFault::Expansion(fault)),
        }
    }
}

impl From<AllocError> for LoadFault {
    ghost from_gives = { λ _ e. e ≡ Memory };

    fn from(_error: AllocError) -> LoadFault {
        LoadFault::Memory
    }
}

impl<T: Drop> From<AllocFailed<T>> for LoadFault {
    ghost from_gives = { λ _ e. e ≡ Memory };

    fn from(_error: AllocFailed<T>) -> LoadFault {
        LoadFault::Memory
    }
}
