//! Runs under rules: of an image in a file, begun where a run before ended, whose place is kept where it ends.
#![tactic(auto)]

mod controls;
mod fault;
mod met;
mod places;
mod playing;
mod running;
mod traces;

pub use controls::{Saved, SavedFault, control_in, control_text, one_control};
pub use fault::RuledFault;
pub use met::cause_met;
pub use running::{RunFiles, run_by};
pub use traces::{Bad, Rules, RunPlace, play_by, resumed_traces, without_rules};
