//! The expansion of strong and weak aborts: what it is, in definitions, and for which states of a chart those of its
//! core chart stand.
#![tactic(auto)]

mod charts;
mod checks;
mod counting;
mod fault;
mod flags;
mod making;
mod names;
mod pieces;
mod places;
mod regions;
mod state_map;
mod states;
mod superstates;

pub use charts::expand;
pub use fault::ExpandFault;
pub use flags::Flags;
pub use pieces::{NextNumbers, Regions, StatePieces};
pub use places::RegionPlaces;
pub use state_map::StateMap;
