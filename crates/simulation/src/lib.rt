//! A controller that is stepped by hand, line by line: ticks, and the way back.
#![tactic(auto)]

mod answering;
mod cutting;
mod history;
mod reacting;
mod session;
mod simulating;
mod states;
mod telling;
mod tree;
mod words;

pub use answering::answer;
pub use history::Played;
pub use session::Session;
pub use simulating::simulate;
pub use states::States;
pub use telling::active_states_told;
