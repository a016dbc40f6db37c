//! Extended charts as Graphviz text, as their authors wrote them.

mod actions;
mod charts;
mod symbols;
mod transitions;
mod triggers;
mod variables;

pub use charts::extended_drawing;
