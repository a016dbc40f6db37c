//! What expansion makes of the pieces of a chart, and the numbers that come next.

ghost use Rattle.std.specs.Prelude.{◌≡◌, []};

use core_charts::{Region, State};
use sc_graph::Variable;
use sqlite_items::Items;
use std::alloc::Global;

/// StatePieces that stand side by side in a region.
#[derive(Drop)]
pub struct StatePieces {
    pub states: Items<State>,
    /// The variables that they need.
    pub variables: Items<Variable>,
    /// Of each core state in them, in the order of the text, the chart's state for which it stands, if any.
    pub stands_for: Items<Option<u32>>,
}

/// Regions of one superstate.
#[derive(Drop)]
pub struct Regions {
    pub regions: Items<Region>,
    /// The variables that they need.
    pub variables: Items<Variable>,
    /// Of each core state in them, in the order of the text, the chart's state for which it stands, if any.
    pub stands_for: Items<Option<u32>>,
}

/// The numbers that come next: of a superstate, of a variable, of a state of the text.
#[derive(Clone, Copy)]
pub struct NextNumbers {
    pub superstate: u32,
    pub variable: u32,
    pub state: u32,
}

impl StatePieces {
    /// No states.
    pub(crate) fn none(alloc: Global) -> StatePieces
        ensures { result ≡ record { states = []; variables = []; stands_for = [] } }
    {
        StatePieces {
            states: Items::new(alloc),
            variables: Items::new(alloc),
            stands_for: Items::new(alloc),
        }
    }
}

impl Regions {
    /// No regions.
    pub(crate) fn none(alloc: Global) -> Regions
        ensures { result ≡ record { regions = []; variables = []; stands_for = [] } }
    {
        Regions {
            regions: Items::new(alloc),
            variables: Items::new(alloc),
            stands_for: Items::new(alloc),
        }
    }
}
