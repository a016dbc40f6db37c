//! What stands beside the nodes of a program: the nodes that use each variable, the instantaneous edges between nodes,
//! the write conflicts, and, of many nodes, those of the least or the greatest number in a table.
#![tactic(auto)]

mod agreement;
mod candidates;
mod company;
mod concurrency;
mod conflicts;
mod extremes;
mod next;
mod node_lists;
mod noted_places;
mod numbers;
mod search;
mod users;

pub use company::has_company;
pub use concurrency::are_concurrent;
pub use conflicts::find_conflict;
pub use extremes::{Extreme, extremes_of};
pub use next::{NextNodes, children_of, next_nodes, successors};
pub use node_lists::NodeLists;
pub use noted_places::NotedPlaces;
pub use numbers::Numbers;
pub use search::{Sought, find_instant};
pub use users::{Use, Users};
