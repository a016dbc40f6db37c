//! Printing chart text, and core charts in names that chart text may have.

mod charts;
mod lines;
mod names;
mod regions;
mod renaming;
mod same_charts;
mod same_expressions;
mod same_rows;
mod transitions;
mod words;

pub use charts::chart_text;
pub use renaming::chart_of_core;
pub use same_charts::are_same_charts;
pub use transitions::{effect_text, trigger_text};
