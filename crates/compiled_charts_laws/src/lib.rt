//! What compiled charts rest on: the graph of a core chart's lowering keeps the chart's reactions and tells its
//! active states, and a chart without aborts is its own core chart. The laws, over the definitions alone.
#![tactic(auto)]

ghost use Rattle.compiled_charts_laws.specs.Laws.{ChartsHaveOneReaction, ChartsWithoutAbortsStay, LoweringsStand};
ghost use Rattle.compiled_charts_laws.specs.Laws.{NodesTellStates};

/// In the graph of a core chart's lowering each state rests at the node that stands for it: at the depth of its
/// pause, or at the join of its fork. This function does nothing; its contract is the law.
pub fn nodes_tell_states()
    ensures { NodesTellStates }
{}

/// If that graph is valid with some tables, each reaction of the chart to accepted inputs is seen alike in each
/// reaction of the graph, tick for tick, and each one of the graph is one of the chart. This function does
/// nothing; its contract is the law.
pub fn charts_have_one_reaction()
    ensures { ChartsHaveOneReaction }
{}

/// If that graph is formed, it stands as the chart does, through each step of the chart: the thread of the region
/// that steps leaves the join at which it waits, and nobody else leaves one; who waits at the join of a superstate's
/// fork stands in that superstate; who is about to write stands at the node that does it; who is concurrent in the
/// chart is so in the graph; and a thread's parent is the region that holds the superstate around it. This function
/// does nothing; its contract is the law.
pub fn lowerings_stand()
    ensures { LoweringsStand }
{}

/// A chart without strong and weak aborts is its own core chart, and each of its states stands for itself. This
/// function does nothing; its contract is the law.
pub fn charts_without_aborts_stay()
    ensures { ChartsWithoutAbortsStay }
{}
