//! The row of passes from texts and programs to valid images.
#![tactic(auto)]

mod fault;
mod fault_text;
mod from_chart;
mod from_program;
mod from_scl;
mod linked;
mod sources;

pub use fault::CompileFault;
pub use from_chart::{compile_chart, scl_of_chart};
pub use from_program::compile_program;
pub use from_scl::{compile_scl, graph_of_scl};
pub use linked::LinkedProgram;
pub use sources::{
    ReadChart, ReadSource, ReadText, SourceFault, Uncompiled, compile_source, graph_of_source,
    graph_of_text, read_source,
};
