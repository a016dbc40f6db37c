//! The elements from which those of a core chart come.

ghost use Rattle.std.specs.Prelude.{◌≡◌, [], OnOk};
ghost use Rattle.node_elements.specs.ExpansionOrigins.{beside, nothing, region, state, transition};

use core_charts::Element;
use sqlite_items::Items;
use std::alloc::{AllocError, Global};

/// The elements of a chart from which those of its core chart come, of each sort in the order of their numbers.
#[derive(Drop)]
pub struct Origins {
    pub regions: Items<Element>,
    pub states: Items<Element>,
    pub transitions: Items<Element>,
    pub effects: Items<Element>,
}

impl Origins {
    /// Of no element yet.
    pub(crate) fn none(alloc: Global) -> Origins
        ensures { result ≡ nothing }
    {
        Origins {
            regions: Items::new(alloc),
            states: Items::new(alloc),
            transitions: Items::new(alloc),
            effects: Items::new(alloc),
        }
    }

    /// Puts that of a region behind the others.
    pub(crate) fn put_region(&mut self, from: Element) -> Result<(), AllocError>
        ensures { OnOk result (self.new ≡ beside self.old (region from)) }
    {
        self.regions.push(from)
    }

    /// Puts that of a state behind the others.
    pub(crate) fn put_state(&mut self, from: Element) -> Result<(), AllocError>
        ensures { OnOk result (self.new ≡ beside self.old (state from)) }
    {
        self.states.push(from)
    }

    /// Puts that of a transition without effects behind the others.
    pub(crate) fn put_transition(&mut self, from: Element) -> Result<(), AllocError>
        ensures { OnOk result (self.new ≡ beside self.old (transition from [])) }
    {
        self.transitions.push(from)
    }
}
