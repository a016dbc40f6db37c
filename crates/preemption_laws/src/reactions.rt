//! What a chart does in a tick: the laws of its reaction, of the steps of a core chart, and of priorities in a graph,
//! over the definitions alone.

ghost use Rattle.preemption_laws.specs.Bounded.{TicksEnd};
ghost use Rattle.preemption_laws.specs.LowLines.{LinesStayLow};
ghost use Rattle.preemption_laws.specs.Reacts.{ChartsReact};
ghost use Rattle.preemption_laws.specs.StepNodes.{PrioritiesOrderSteps, StepsComeToNodes};

/// Each tick of a chart that has a valid image comes to an end, whatever steps it takes: no run of a tick that follows
/// a reaction takes more steps than one number says, and each run can be completed. This function does nothing; its
/// contract is the law.
pub fn ticks_end()
    ensures { TicksEnd }
{}

/// A chart that has a valid image reacts in one way to whatever inputs that accepts, however aborts lie in others:
/// there is a list of ends, one for each tick, to each of them an admissible complete run leads, and there is no other
/// list. This function does nothing; its contract is the law.
pub fn charts_react()
    ensures { ChartsReact }
{}

/// Wherever a core chart and its valid graph stand alike, a run of threads alone leads to where they do so too, and the
/// thread of each region whose turn it is stands at the node of its step, if that reads or writes. This function does
/// nothing; its contract is the law.
pub fn steps_come_to_nodes()
    ensures { StepsComeToNodes }
{}

/// Where the threads stand so, of two concurrent steps of a core chart the one that is at a node of no smaller priority
/// may come first. This function does nothing; its contract is the law.
pub fn priorities_order_steps()
    ensures { PrioritiesOrderSteps }
{}

/// In a tick of a valid image, where a thread goes and whoever is enabled there and below has no greater priority than
/// some number, no run leads to where one of these, or of the threads above, is enabled with a greater one. This
/// function does nothing; its contract is the law.
pub fn lines_stay_low()
    ensures { LinesStayLow }
{}
