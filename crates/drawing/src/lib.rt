//! Charts, extended charts and graphs of SCL programs as Graphviz text, which `dot` draws.
#![tactic(auto)]

mod arrows;
mod charts;
mod drawn;
mod expressions;
mod extended;
mod flow;
mod graphs;
mod labels;
mod levels;
mod protocol;
mod regions;
mod sheet;
mod stacking;
mod symbols;
mod text;
mod variables;

pub use charts::chart_drawing;
pub use drawn::{Arrow, DrawnRegion, DrawnState};
pub use expressions::sparing_text;
pub use extended::extended_drawing;
pub use graphs::graph_drawing;
pub use labels::{effect_text, further_text, trigger_text, words_text};
pub use regions::drawing_of;
pub use symbols::Symbol;
