//! The workers of a tick: whoever of them takes which step, it comes to its one end.
#![tactic(auto)]

mod gate;
mod locked;
mod of_image;
mod one_tick;
mod serving;
mod settling;
mod shared;
mod shared_tick;
mod team;
mod ticking;
mod weighing;
mod worker;
mod working;

pub use gate::{Gate, NoGate};
pub use of_image::OfImage;
pub use one_tick::run_tick;
pub use shared::Shared;
pub use team::Team;
