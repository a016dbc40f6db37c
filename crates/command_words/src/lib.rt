//! What the words of a command ask for.
#![tactic(auto)]

mod arguments;
mod parts;
mod run_rules;
mod said;
mod verbs;
mod words;
mod workers;

pub use arguments::{Asking, Request, Unread, Wanted, read_words};
pub use run_rules::RunRules;
pub use workers::Workers;
