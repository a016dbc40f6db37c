//! Traces under rules: each line has to name every input, or a line that gives no inputs is answered and passed over;
//! begun at any place, as where an earlier trace ended.

mod answer;
mod laws;
mod naming;
mod place;
mod player;
mod ruled_player;
mod rules;
mod session;

pub use answer::Bad;
pub use laws::{resumed_traces, without_rules};
pub use place::RunPlace;
pub use player::play_by;
pub use rules::Rules;
