//! For each element of the core chart of a chart, the element of the chart from which it comes.

mod around;
mod behind;
mod laws;
mod origins;
mod regions;
mod states;
mod superstates;
mod transitions;

pub use around::{Around, Sort};
pub use laws::origins_tell_expansion;
pub use origins::Origins;
pub use regions::expansion_origins;
pub use transitions::Ends;
