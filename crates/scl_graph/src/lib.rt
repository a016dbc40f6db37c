//! The graph of an SCL program: its threads and nodes, numbered in the order of the text.
#![tactic(auto)]

mod fault;
mod forking;
mod gathering;
mod graph;
mod hops;
mod labels;
mod laid_threads;
mod landing;
mod laying;
mod numbers;
mod numbers_ahead;
mod places;
mod resolving;
mod steps;
mod tallies;
mod totals;
mod way;

pub use fault::GraphFault;
pub use graph::graph_of;
pub use numbers::NodeCounts;
pub use way::Way;
