//! The player of traces: for each line of an input a tick, and a line of output; and the loop over the lines of
//! an input for any player of one thread (`line_players`).
#![tactic(auto)]

mod channels;
mod fault_text;
mod holding;
mod hosting;
mod laws;
mod line_players;
mod lines;
mod player;
mod session;
mod turns;

pub use channels::{Channels, Streams};
pub use laws::one_trace;
pub use line_players::{LinePlayer, play_from};
pub use lines::{is_last, next_number, unread_line};
pub use player::{PlayFault, play, play_to};
