//! The states of a chart: their paths, and which of them are active.

ghost use Rattle.std.specs.Prelude.{◌≡◌, ℕ, List, IfOk, map, string_bytes};

use sc_graph::Control;
use sqlite_items::Items;
use std::alloc::{AllocError, Global};

/// The states of a chart. Contracts see their paths, in the order of their numbers, and which are active in a
/// configuration.
pub trait States {
    ghost use Rattle.sc_graph.specs.declared.control.Control.{Control as Configuration};

    ghost paths: { Self → List (List ℕ) };

    ghost active: { Self → Configuration → List ℕ };

    /// The paths of all states.
    fn paths(&self) -> &[String]
        ensures { map string_bytes result.now ≡ paths self.now };

    /// The numbers of the states that are active in a configuration between two ticks.
    fn active(&self, alloc: Global, control: &Control) -> Result<Items<u32>, AllocError>
        ensures { IfOk result (λ numbers. numbers ≡ active self.now control.now) };
}
