//! The tick machine: ticks of a verified image, step by step, in priority order and within its budget. Enabled
//! threads stand in rows by priority (`buckets`).
#![tactic(auto)]

mod buckets;
mod claim;
mod copying;
mod enabled;
mod events;
mod fault_text;
mod given;
mod guesses;
mod history;
mod inputs;
mod joins;
mod judging;
mod kept_claim;
mod leading;
mod listed;
mod living;
mod onward;
mod short_codes;
mod sorting;
mod started_twice;
mod starting;
mod state;
mod step_hook;
mod stepping;
mod there;
mod waking;

pub use buckets::Rows;
pub use claim::{Claim, Done, evaluate};
pub use copying::copied;
pub use events::{all_ticks_end_alike, every_order_replays};
pub use history::{Entry, Report};
pub use inputs::Inputs;
pub use judging::{Judged, judge};
pub use kept_claim::KeptClaim;
pub use sc_graph::{Control, Status};
pub use state::{
    BeginFault, NextStep, ParkedSpace, Receipt, StaleClaim, TickSpace, TickState, Turn, begin,
};
pub use step_hook::StepHook;
