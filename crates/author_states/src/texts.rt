//! What is written as the text of an extended chart: the text of the chart to which it is reduced, and the states of
//! its author.

mod authored;

pub use authored::{Authored, authored_source};
