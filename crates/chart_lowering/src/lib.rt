//! The lowering of charts without aborts to SCL.
#![tactic(auto)]

mod counting;
mod labels;
mod lowering;
mod regions;
mod states;
mod targets;
mod transitions;

pub use lowering::{lower, lower_without_aborts};
pub use regions::is_wanted;
pub use targets::Targets;
