//! Extended charts reduced to charts: the passes one after the other, those of values and of what is done as states are
//! entered and left among them, and which states and transitions of their chart are the author's.
#![tactic(auto)]

mod entries;
mod fault;
mod laws;
mod reduction;
mod rows;
mod values;

pub use entries::{with_exits, with_histories, without_entry};
pub use fault::ReduceFault;
pub use laws::{charts_stay, signals_are_updated};
pub use reduction::reduce;
pub use rows::{AuthorRows, rows_of};
pub use values::{
    with_clocks, with_counts, with_endings, with_registers, with_settings, without_constants,
};
