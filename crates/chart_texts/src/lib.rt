//! Texts of the charts that a text becomes: of the core chart of a chart, and of the chart to which an extended chart
//! is reduced, each read again before it is given; and how charts are laid out and printed (`printer`).
#![tactic(auto)]

mod cores;
mod first_word;
mod printer;
mod reductions;
mod sources;

pub use cores::{core_text, text_that_spells};
pub use first_word::begins_extended;
pub use printer::{are_same_charts, chart_of_core, chart_text, effect_text, trigger_text};
pub use reductions::reduced_text;
pub use sources::{Unreduced, extended_in, reduced_of};
