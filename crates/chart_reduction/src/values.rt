//! The passes that reduce what an extended chart says of values: constants, initial values, what variables were in the
//! tick before, the ticks since a state was entered, counts of those in which something holds, and whether what is in a
//! state with during actions has ended.

mod beginnings;
mod clocks;
mod constants;
mod count_region;
mod counts;
mod ending_regions;
mod endings;
mod initial;
mod passing;
mod registers;

pub use clocks::with_clocks;
pub use constants::without_constants;
pub use counts::with_counts;
pub use endings::with_endings;
pub use initial::with_settings;
pub use registers::with_registers;
