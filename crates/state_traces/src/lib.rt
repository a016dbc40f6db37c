//! Traces whose lines tell more of each tick than its outputs, as which states of a chart are active behind it.
#![tactic(auto)]

mod laws;
mod line;
mod player;
mod session;
mod states;
mod telling;
mod words;

pub use laws::without_words;
pub use player::play_with;
pub use states::{put_states, quoted_all};
pub use words::Words;
