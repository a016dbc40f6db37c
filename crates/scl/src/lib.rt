//! SCL: a small language of threads with labels and gotos, what its programs are and what they mean.
#![tactic(auto)]

mod program;
mod statement;

pub use program::Scl;
pub use statement::Statement;
