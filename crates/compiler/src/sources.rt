//! The SCL program that a source text spells, its own or that of its chart: a text is read once, and what was read of
//! it is kept for all that is to be told of it.

mod compiled;
mod fault;
mod graphs;
mod reading;
mod source;

pub use compiled::{Uncompiled, compile_source};
pub use fault::SourceFault;
pub use graphs::{graph_of_source, graph_of_text};
pub use reading::{ReadChart, ReadText};
pub use source::{ReadSource, read_source};
