//! The expansion of aborts, step for step: what stands for what in a chart and its core chart, and that each step of
//! the chart has a run of its core chart that stands for it; laws over the definitions alone.
//!
//! What is proved, from records of what the core's table has for each region and state (`specs/CoreRows`) on, is listed
//! in `proofs/Proved`. The law of preemption itself stands in `preemption_laws`.
#![tactic(auto)]

ghost use Rattle.abort_expansion_laws.specs.Laws.{ExpandedChartsHaveRows, StagesKeepOrder};
ghost use Rattle.abort_expansion_laws.specs.StateNames.{StatesAreMapped};

/// A run of a core chart is admissible where the run of its chart is, if what belongs to a superstate with aborts is
/// done in stages that never fall, and no strong test is overwritten; so it is for each two tables whose rows belong
/// together as those of a chart and its core chart do. This function does nothing; its contract is the law.
pub fn stages_are_kept()
    ensures { StagesKeepOrder }
{}

/// The map of states has an entry for each state of the core chart, in the order of its text: the state for which it
/// stands, as its name tells. This function does nothing; its contract is the law.
pub fn states_are_mapped()
    ensures { StatesAreMapped }
{}

/// The rows of a chart and of its core chart belong together: each region has its thread, each state what stands for
/// it, each superstate with aborts its monitor, with the transitions of the expansion. This function does nothing; its
/// contract is the law.
pub fn expanded_charts_have_rows()
    ensures { ExpandedChartsHaveRows }
{}
