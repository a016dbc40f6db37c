//! Why a machine refuses.

ghost use Rattle.std.specs.Prelude.{◌≡◌};
ghost use Rattle.embedded_machine.specs.declared.fault.MachineFault.TheVariants.{Memory};

use std::alloc::{AllocError, AllocFailed};

/// Why a machine refuses. Nothing has changed then.
#[derive(Clone, Copy, Debug, PartialEq, Eq)]
pub enum MachineFault {
    /// The cells hold no configuration in which the program rests.
    Control,
    /// There are not as many cells or rows as what goes out, or a buffer has no room for it.
    Room,
    /// There is not one cell for each variable, or the cell of an input holds no value of its kind.
    Input,
    /// There is no state of this number.
    Number,
    /// There is no machine: it was closed, or never opened.
    Closed,
    /// Memory was refused.
    Memory,
}

impl From<AllocError> for MachineFault {
    ghost from_gives = { λ _ e. e ≡ Memory };

    fn from(_error: AllocError) -> MachineFault {
        MachineFault::Memory
    }
}

impl<T: Drop> From<AllocFailed<T>> for MachineFault {
    ghost from_gives = { λ _ e. e ≡ Memory };

    fn from(_error: AllocFailed<T>) -> MachineFault {
        MachineFault::Memory
    }
}
