//! What a chart says and most likely does not mean, and how that is told.
#![tactic(auto)]

mod extended;
mod forestalling;
mod inside;
mod marks;
mod names;
mod reads;
mod states;
mod telling;
mod texts;
mod transitions;
mod variables;
mod warning;

pub use extended::{author_places, author_warnings, author_warnings_told};
pub use telling::warnings_of;
pub use texts::{ChartPlaces, StatePlaces, places_of, reports_of, warnings_told};
pub use warning::Warning;
