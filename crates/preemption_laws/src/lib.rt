//! Aborts keep the meaning of preemption: the core chart of a chart does what the chart does, and no more, however
//! aborts lie in others. Laws over the definitions alone.
//!
//! Both are compared by a machine in which looks at weak flags are no steps (`specs/Waiting`).
#![tactic(auto)]

mod reactions;

ghost use Rattle.preemption_laws.specs.Kept.{ChartsAreKept, CoreChartsDoNoMore};

pub use reactions::{
    charts_react, lines_stay_low, priorities_order_steps, steps_come_to_nodes, ticks_end,
};

/// Each list of ends of a chart that has a valid image, to inputs that it accepts, has one of its core chart that is
/// seen alike, however aborts lie in others. This function does nothing; its contract is the law.
pub fn charts_are_kept()
    ensures { ChartsAreKept }
{}

/// Each list of ends of the core chart of a chart that has a valid image, to inputs that it accepts, has one of the
/// chart that is seen alike, however aborts lie in others. This function does nothing; its contract is the law.
pub fn core_charts_do_no_more()
    ensures { CoreChartsDoNoMore }
{}
