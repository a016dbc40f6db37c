//! Why a source text spells no SCL program.

ghost use Rattle.std.specs.Prelude.{◌≡◌, OnOk};
ghost use Rattle.sc_text.specs.declared.read_fault.ReadFault.TheVariants as read;
ghost use Rattle.compiler.specs.Graphs.{SaysOfText};
ghost use Rattle.compiler.specs.declared.sources.fault.SourceFault.TheVariants.{Expansion, Text};

use abort_expansion::ExpandFault;
use sc_text::ReadFault;
use std::alloc::AllocError;

/// Why a source text spells no SCL program.
#[derive(Clone, Copy)]
pub enum SourceFault {
    /// It has a fault, or memory was refused.
    Text(ReadFault),
    /// It spells a chart, whose expansion passes a limit; or memory was refused.
    Expansion(ExpandFault),
}

impl SourceFault {
    /// That the fault says something of the text. Err: it says that memory was refused.
    pub fn says_of_text(&self) -> Result<(), AllocError>
        ensures { OnOk result (SaysOfText self.now) }
    {
        match self {
            SourceFault::Text(ReadFault::Memory) | SourceFault::Expansion(ExpandFault::Memory) => {
                Err(AllocError)
            }
            SourceFault::Text(ReadFault::Text(_, _)) | SourceFault::Expansion(ExpandFault::Limit) =>
                Ok(()),
        }
    }
}

impl From<ReadFault> for SourceFault {
    ghost from_gives = { λ f e. e ≡ Text f };

    fn from(fault: ReadFault) -> SourceFault {
        SourceFault::Text(fault)
    }
}

impl From<ExpandFault> for SourceFault {
    ghost from_gives = { λ f e. e ≡ Expansion f };

    fn from(fault: ExpandFault) -> SourceFault {
        SourceFault::Expansion(fault)
    }
}

impl From<AllocError> for SourceFault {
    ghost from_gives = { λ _ e. e ≡ Text read.Memory };

    fn from(_error: AllocError) -> SourceFault {
        SourceFault::Text(ReadFault::Memory)
    }
}
