//! The warnings of an extended chart in words for people: those of the chart to which it is reduced that speak of what
//! is the author's, with their places in his text.

mod places;
mod states;
mod telling;
mod warnings;

pub use places::author_places;
pub use telling::author_warnings_told;
pub use warnings::author_warnings;
