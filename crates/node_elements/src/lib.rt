//! For each node of the program of a chart, the element of the chart from which it comes.
#![tactic(auto)]

mod composing;
mod expansion;
mod graph;
mod laws;
mod lowering;

pub use composing::{node_elements, point_elements};
pub use expansion::{Around, Ends, Origins, Sort, expansion_origins, origins_tell_expansion};
pub use graph::{NodeOrigin, node_origins, origins_tell_nodes};
pub use laws::elements_tell_nodes;
pub use lowering::{counted, origins_tell_points, point_origins};
