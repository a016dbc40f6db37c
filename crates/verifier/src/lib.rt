//! The verifier: it trusts no compiler, and accepts exactly the valid images.
#![tactic(auto)]

mod assignments;
mod bounds;
mod codes;
mod conflicts;
mod end_bits;
mod extremes;
mod fault_text;
mod flow;
mod kinds;
mod known;
mod protocol;
mod rule;
mod size;
mod verification;
mod verified;
mod weights;

pub use rule::{Broken, Refusal, Rule};
pub use verification::verify;
pub use verified::Verified;
