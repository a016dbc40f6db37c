//! Configurations as JSON texts, so that a run can be stopped and resumed.

mod laws;
mod reading;
mod saved;
mod statuses;
mod values;
mod writing;

pub use laws::one_control;
pub use reading::control_in;
pub use saved::{Saved, SavedFault};
pub use writing::control_text;
