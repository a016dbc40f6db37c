//! What is drawn of a chart of any kind: regions, states and arrows, with their words.

use core_charts::TransitionKind;
use sc_values::Name;
use sqlite_items::Items;

/// The arrow of a transition.
#[derive(Drop)]
pub struct Arrow {
    pub kind: TransitionKind,
    pub immediate: bool,
    /// The place of the target among the states of the region, from 0.
    pub target: u32,
    /// What stands at it, in lines.
    pub words: String,
}

/// A region.
#[derive(Drop)]
#[cycle(drawn)]
pub struct DrawnRegion {
    pub name: Name,
    pub states: Items<DrawnState>,
}

/// A state. With regions it is a superstate, else a simple one.
#[derive(Drop)]
#[cycle(drawn)]
pub struct DrawnState {
    /// Its name, and in further lines what is done in it.
    pub label: String,
    pub is_initial: bool,
    pub is_final: bool,
    pub regions: Items<DrawnRegion>,
    /// In the order in which their transitions are tested.
    pub arrows: Items<Arrow>,
}

impl DrawnState {
    // Whether it is a superstate.
    pub(crate) fn is_superstate(&self) -> bool {
        !self.regions.is_empty()
    }
}
