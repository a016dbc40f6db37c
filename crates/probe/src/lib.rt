//! Observers of a machine: they look at the outputs of its published ticks, wait for nobody and never go back.
#![tactic(auto)]

mod copies;
mod history;
mod note;
mod observer;
mod publisher;
mod tick_end;

pub use note::{Note, Seen};
pub use observer::Observer;
pub use publisher::{NoSeat, Publisher};
pub use tick_end::{Output, TickEnd};
