//! Charts: regions of states with transitions, strong and weak aborts and terminations, their rules and
//! limits; and the numbers and paths of their elements (`elements`).
#![tactic(auto)]

mod aborts;
mod chart;
mod copies;
mod elements;
mod features;
mod region;
mod rules;

pub use aborts::{chart_has_aborts, has_aborts, has_strong, has_weak};
pub use chart::{Chart, CoreChart};
pub use copies::{copied_effects, copied_transitions, copied_trigger};
pub use elements::{Element, ElementNumbers, joined, next, paths_of, put_effects};
pub use features::{
    DEPTH_LIMIT, EFFECT_LIMIT, Features, REGION_LIMIT, STATE_LIMIT, TRANSITION_LIMIT,
};
pub use region::{Effect, Region, State, Transition, TransitionKind};
