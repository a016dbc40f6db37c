//! The passes that reduce what an extended chart does as states are entered and left: histories, exit actions and entry
//! actions.

mod departures;
mod entry;
mod exits;
mod histories;
mod leaving;
mod recalls;
mod resuming;

pub use entry::without_entry;
pub use exits::with_exits;
pub use histories::with_histories;
