//! Extended charts, what the passes that reduce them share, and the passes on which others stand: those of signals, of
//! during actions and of terminations with triggers.
#![tactic(auto)]

mod copies;
mod durings;
mod extended;
mod holds;
mod making;
mod reading;
mod signals;

pub use copies::{put_copied_durings, put_copied_effects};
pub use durings::{put_immediate_ones, put_steps, put_ways_on, with_durings};
pub use extended::{
    Constant, Declared, During, ELAPSED, ExtendedChart, ExtendedRegion, ExtendedState,
};
pub use holds::{condition, ended, put_untested, with_holds};
pub use making::{
    alone, always, bare, copy, count, has_some, literal, local, made_state, one, passing,
    put_all_passing, put_integers, sum, variable,
};
pub use reading::{Reading, count_variable, is_count};
pub use signals::{emission, reset, with_signals};
