//! How a text can go on at a place. `specs/Continuations` says what can follow the bytes before it.

mod continuations;
mod faults;
mod grammars;

pub use continuations::{Continuations, can_follow, continuations_of};
pub use grammars::Grammar;
