//! For each statement of the lowering of a core chart, and each end of a thread, the element of the chart from which it
//! comes.

mod behind;
mod laws;
mod regions;
mod states;
mod transitions;

pub use behind::counted;
pub use laws::origins_tell_points;
pub use regions::point_origins;
