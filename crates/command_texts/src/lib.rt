//! The texts that single commands write to the output: the summary of an image, its listing, its line of JSON, a core
//! chart, the chart of an extended one, a drawing; and the bytes of images.
#![tactic(auto)]

mod draw;
mod images;
mod json;
mod list;
mod list_places;
mod print_core;
mod print_reduced;
mod summary;
mod wanted;

pub use summary::summary_of;
pub use wanted::made_for;
