//! For which states of a chart the nodes of its program stand.
#![tactic(auto)]

mod composing;
mod counting;
mod regions;
mod states;
mod transitions;

pub use composing::stands_for;
pub use counting::state_count;
pub use regions::state_of_node;
