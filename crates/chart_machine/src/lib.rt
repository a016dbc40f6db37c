//! What charts mean: a chart as a table, its ticks as those of a machine of regions, and a plain program that runs it.
#![tactic(auto)]

mod chosen;
mod copies;
mod doing;
mod entering;
mod evaluating;
mod numbering;
mod region_change;
mod running;
mod standing;
mod starting;
mod stepping;
mod table;
mod table_positions;
mod tabling;
mod turns;

pub use evaluating::value_of;
pub use region_change::{RegionChange, Write};
pub use running::Ran;
pub use standing::{Configuration, Move, Standing};
pub use table::{RegionRow, StateRow, SubtreeRows, Table, TablePosition};
