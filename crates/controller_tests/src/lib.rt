//! A maker's own tests of a program: the inputs of its ticks and the trace that is wanted, which stand in files beside
//! its text, how the trace that its image makes differs from that, and what a command tells of it.
#![tactic(auto)]

mod command;
mod difference;
mod folders;
mod lines;
mod members;
mod names;
mod outcome;
mod replay;
mod shown;
mod silent;
mod told;
mod trace;

pub use command::try_tests;
pub use difference::{Difference, compare};
pub use folders::tests_in;
pub use names::beside;
pub use outcome::{Outcome, test_controller};
pub use replay::states_told;
pub use told::difference_told;
pub use trace::trace_of;
