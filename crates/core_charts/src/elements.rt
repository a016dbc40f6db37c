//! The elements of a chart: its regions, states, transitions and effects, by their numbers; and the paths by which its
//! states are named.

mod effects;
mod element;
mod numbers;
mod paths;

pub use effects::put_effects;
pub use element::Element;
pub use numbers::{ElementNumbers, next};
pub use paths::{joined, paths_of};
