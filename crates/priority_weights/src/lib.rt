//! The least tables of a program, or a closed walk that shows why it has none.
#![tactic(auto)]

mod arcs;
mod assembling;
mod bounds;
mod branches;
mod ends;
mod falling;
mod fault;
mod going_on;
mod groups;
mod hints;
mod instants;
mod kept;
mod laws;
mod least_tables;
mod next;
mod order;
mod protocol;
mod reasons;
mod visit;
mod ways;
mod weights;

pub use fault::TablesFault;
pub use laws::law_of_least_tables;
pub use least_tables::tables;
