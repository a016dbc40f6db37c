//! The least table that keeps a rule, and cycles along edges, for any rule and any edges.
#![tactic(auto)]

mod cycles;
mod graph;
mod ranking;
mod rising;
mod rule;

pub use cycles::{cycle, cycle_along};
pub use graph::Graph;
pub use rising::least;
pub use rule::NumberRule;
