//! Charts compiled for running: the image of a chart, its ticks, and which of its states are active after each.
#![tactic(auto)]

mod compiled;
mod compiling;
mod marking;
mod running;

pub use compiled::Compiled;
pub use compiling::compile_chart;
pub use running::RunFault;
