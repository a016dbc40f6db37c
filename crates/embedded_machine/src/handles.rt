//! A machine behind a pointer, as it is handed to a caller in C.

ghost use Rattle.std.specs.Prelude.{◌≡◌, Option, Some, None, MatchOption};
ghost use Rattle.embedded_machine.specs.Ticks.{Resting};

use crate::loose::Loose;
use crate::machine::Machine;
use std::alloc::Global;
use std::marker::Model;
use std::ptr::null_mut;

/// A machine behind a pointer, or none, where the pointer is null. C knows no type of what is there.
#[repr(C)]
pub struct MachineHandle {
    at: *mut u8,
    pub ghost machine: { Option Resting },
}

impl Model for MachineHandle {
    ghost use Rattle.embedded_machine.specs.Held.{machine_at};

    ghost also_owns = { λ h. machine_at h.at h.machine };
}

impl MachineHandle {
    /// A handle of no machine.
    pub fn empty() -> MachineHandle
        ensures { result.machine ≡ None }
    {
        MachineHandle { at: null_mut() }
    }

    // A handle of this machine.
    fn holding(machine: Loose<Machine, Global>) -> MachineHandle
        ensures { result.machine ≡ Some machine.value }
    {
        let Loose { at, alloc: _ } = machine;
        MachineHandle { at: at as *mut u8 }
    }

    // The machine, where there is one.
    fn into_loose(self, alloc: Global) -> Option<Loose<Machine, Global>>
        ensures { MatchOption result (self.machine ≡ None) (λ l. self.machine ≡ Some l.value) }
    {
        let MachineHandle { at } = self;
        if at.is_null() {
            None
        } else {
            Some(Loose {
                at: at as *mut Machine,
                alloc,
            })
        }
    }

    /// A handle of this machine.
    pub fn of(machine: Box<Machine>) -> MachineHandle
        ensures { result.machine ≡ Some machine.value }
    {
        MachineHandle::holding(Loose::of(machine))
    }

    /// The machine, where there is one.
    pub fn into_box(self, alloc: Global) -> Option<Box<Machine>>
        ensures { MatchOption result (self.machine ≡ None) (λ b. self.machine ≡ Some b.value) }
    {
        match self.into_loose(alloc) {
            Some(loose) => Some(loose.into_box()),
            None => None,
        }
    }
}
