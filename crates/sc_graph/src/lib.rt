//! Programs of threads and nodes, and what they mean: steps, runs, and the rules of a valid image.
#![tactic(auto)]

mod accesses;
mod concurrency;
mod concurrent_threads;
mod control;
mod laws;
mod limits;
mod links;
mod lookups;
mod place;
mod program;
mod resting;
mod same;
mod size;
mod structure;
mod tables;

pub use accesses::is_loaded;
pub use concurrency::{concurrent, lca};
pub use concurrent_threads::ConcurrentThreads;
pub use control::{Control, Status};
pub use laws::{laws_of_concurrency, laws_of_tables};
pub use limits::{
    ANCESTOR_LIMIT, BUDGET_LIMIT, CHILD_COUNT_LIMIT, CHILD_LIMIT, COUNT_LIMIT, NO_PARENT,
    NODE_LIMIT, OUTPUT_LIMIT, THREAD_LIMIT, VARIABLE_LIMIT,
};
pub use links::{Found, Links};
pub use place::Place;
pub use program::{
    Node, NodeId, Program, ProgramFault, Role, Step, Thread, ThreadId, Variable, VariableId,
};
pub use same::are_same;
pub use tables::Tables;
