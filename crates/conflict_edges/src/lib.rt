//! The write conflicts of a program, and its protocol edges.
#![tactic(auto)]

mod edges;
mod fault;

pub use edges::{Edges, Followers, conflicts};
pub use fault::ConflictFault;
