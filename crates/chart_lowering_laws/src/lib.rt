//! The lowering of a core chart keeps its ticks: the laws, over the definitions alone.
#![tactic(auto)]

ghost use Rattle.chart_lowering_laws.specs.Laws.{ChartsAreLowered, ChartsKeepTicks, LoweringsKeepRuns};
ghost use Rattle.chart_lowering_laws.specs.Laws.{ThreadsTellStates};

/// A program that is laid out as a lowering of a chart's table keeps the chart's runs, there and back. Each
/// step of the one is followed by steps of the other that show the same; each end of a tick of the one, by
/// the same inputs, is an end of the other; and each reaction to a list of inputs is one of the other. What
/// corresponds has the same variables. This function does nothing; its contract is the law.
pub fn lowerings_keep_runs()
    ensures { LoweringsKeepRuns }
{}

/// Between two ticks a state of the chart is active exactly where the thread of its region rests at its
/// pause or waits at its fork, if no two states of a region have one pause or one fork. This function does
/// nothing; its contract is the law.
pub fn threads_tell_states()
    ensures { ThreadsTellStates }
{}

/// The SCL program to which a core chart is lowered is laid out as a lowering of its table, and tells states
/// apart, if no labels and gotos alone lead back to themselves. This function does nothing; its contract is
/// the law.
pub fn charts_are_lowered()
    ensures { ChartsAreLowered }
{}

/// So it keeps the chart's runs, and its threads tell the active states. This function does nothing; its
/// contract is the law.
pub fn charts_keep_ticks()
    ensures { ChartsKeepTicks }
{}
