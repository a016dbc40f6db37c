//! What a text of a configuration holds.

ghost use Rattle.std.specs.Prelude.{◌≡◌};
ghost use Rattle.ruled_runs.specs.declared.controls.saved.SavedFault.TheVariants.{Memory};

use sc_graph::Control;
use std::alloc::AllocError;

/// A configuration, and the number of the tick that ended in it.
#[derive(Drop)]
pub struct Saved {
    /// The number of the tick.
    pub ticks: u64,
    /// The configuration.
    pub control: Control,
}

/// Why a text gives no configuration of a program.
#[derive(Clone, Copy, Debug, PartialEq, Eq)]
pub enum SavedFault {
    /// Memory was refused.
    Memory,
    /// The text holds none in which the program rests.
    Unfit,
}

impl From<AllocError> for SavedFault {
    ghost from_gives = { λ _ e. e ≡ Memory };

    fn from(_error: AllocError) -> SavedFault {
        SavedFault::Memory
    }
}
