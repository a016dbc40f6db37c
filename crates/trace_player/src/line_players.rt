//! Lines of an input, played one after another to any player of lines, each with a line of output.

mod line_player;
mod turns;

pub use line_player::LinePlayer;
pub use turns::play_from;
