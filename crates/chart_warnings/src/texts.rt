//! The warnings of a chart in words for people, with their places.

mod allowance;
mod cures;
mod lines;
mod places;
mod report;
mod telling;
mod warned_text;
mod words;

pub use places::{ChartPlaces, StatePlaces, places_of};
pub use telling::{reports_of, warnings_told};
