//! The faults of the program.

use command_files::LoadFault;
use ruled_runs::RuledFault;
use std::alloc::{AllocError, AllocFailed};
use trace_lines::Cause;
use trace_player::PlayFault;

/// Why the program refuses. It prints as the fault line says it, after the program's name.
#[derive(Debug, Drop)]
pub enum Fault {
    /// A file gives no image or no program, or is not written; or memory was refused.
    Files(LoadFault),
    /// Standard input was not played to its end; and what was met on the line of which that tells, where it is known.
    Play(PlayFault, Option<Cause>),
    /// E63: standard output failed, or took no byte.
    Write,
    /// E66: a test failed.
    Tests,
    /// E67: the file whose name is shown so holds no place at which the image can go on.
    Place(String),
}

impl From<LoadFault> for Fault {
    ghost use Rattle.std.specs.Prelude.{◌≡◌};
    ghost use Rattle.sct_command.specs.declared.fault.Fault.TheVariants.{Files};

    ghost from_gives = { λ f e. e ≡ Files f };

    fn from(fault: LoadFault) -> Fault {
        Fault::Files(fault)
    }
}

impl From<RuledFault> for Fault {
    ghost use Rattle.std.specs.Prelude.{◌≡◌};
    ghost use Rattle.sct_command.specs.Running.{fault_of_run};

    ghost from_gives = { λ f e. e ≡ fault_of_run f };

    fn from(fault: RuledFault) -> Fault {
        match fault {
            RuledFault::Files(fault) => Fault::Files(fault),
            RuledFault::Place(shown) => Fault::Place(shown),
            RuledFault::Play(fault, cause) => Fault::Play(fault, cause),
        }
    }
}

impl From<AllocError> for Fault {
    ghost use Rattle.std.specs.Prelude.{◌≡◌};
    ghost use Rattle.sct_command.specs.declared.fault.Fault.TheVariants.{Files};
    ghost use Rattle.command_files.specs.declared.fault.LoadFault.TheVariants.{Memory};

    ghost from_gives = { λ _ e. e ≡ Files Memory };

    fn from(_error: AllocError) -> Fault {
        Fault::Files(LoadFault::Memory)
    }
}

impl<T: Drop> From<AllocFailed<T>> for Fault {
    ghost use Rattle.std.specs.Prelude.{◌≡◌};
    ghost use Rattle.sct_command.specs.declared.fault.Fault.TheVariants.{Files};
    ghost use Rattle.command_files.specs.declared.fault.LoadFault.TheVariants.{Memory};

    ghost from_gives = { λ _ e. e ≡ Files Memory };

    fn from(_error: AllocFailed<T>) -> Fault {
        Fault::Files(LoadFault::Memory)
    }
}
