//! Why a run ends.

ghost use Rattle.std.specs.Prelude.{◌≡◌};
ghost use Rattle.ruled_runs.specs.declared.fault.RuledFault.TheVariants.{Files};
ghost use Rattle.command_files.specs.declared.fault.LoadFault.TheVariants.{Memory};

use command_files::LoadFault;
use std::alloc::AllocError;
use trace_lines::Cause;
use trace_player::PlayFault;

/// Why a run ends, or is not begun.
#[derive(Drop)]
pub enum RuledFault {
    /// A file gives no image, or cannot be read or written; or memory was refused.
    Files(LoadFault),
    /// E67: the file whose name is shown so holds no place at which the image can go on.
    Place(String),
    /// The input was not played to its end; and what was met on the line of which that tells, where it is known.
    Play(PlayFault, Option<Cause>),
}

impl From<LoadFault> for RuledFault {
    ghost from_gives = { λ f e. e ≡ Files f };

    fn from(fault: LoadFault) -> RuledFault {
        RuledFault::Files(fault)
    }
}

impl From<AllocError> for RuledFault {
    ghost from_gives = { λ _ e. e ≡ Files Memory };

    fn from(_error: AllocError) -> RuledFault {
        RuledFault::Files(LoadFault::Memory)
    }
}
