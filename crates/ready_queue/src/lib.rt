//! The queue of claims that are ready to be evaluated: what workers put, others take, each once and in order.
#![tactic(auto)]

mod queue;

pub use queue::{Hand, Pass, ReadyQueue};
