//! The chart of an image: the text that the image was compiled from, held beside it, to tell which of the states that
//! its author wrote are active.
#![tactic(auto)]

mod files;
mod finding;
mod images;
mod laws;
mod states;
mod written;

pub use files::{load_states, states_in};
pub use finding::chart_in;
pub use images::compile_written;
pub use laws::authors_are_told;
pub use states::ChartStates;
