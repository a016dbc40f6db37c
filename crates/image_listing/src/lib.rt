//! Images for people: their variables, threads, nodes and protocol edges as text, and cells beside the nodes;
//! and an image as JSON.
#![tactic(auto)]

mod as_json;
mod cells;
mod edges;
mod listing;
mod nodes;
mod runs;
mod steps;
mod threads;
mod variables;
mod words;

pub use as_json::image_json;
pub use cells::left_cell;
pub use listing::{image_text, image_text_with_cells};
pub use steps::step_text;
pub use words::{kind_text, role_text};
