//! The machine of a chart: the laws, over the definitions alone.
#![tactic(auto)]

ghost use Rattle.chart_machine_laws.specs.Progress.{ChartsNeverStick};
ghost use Rattle.chart_machine_laws.specs.Tree.{ChartsAreTrees};

/// The table of each chart is a tree: `around`, `holder` and `regions` agree, and who holds what is around
/// a region has a smaller number. This function does nothing; its contract is the law.
pub fn charts_are_trees()
    ensures { ChartsAreTrees }
{}

/// Wherever a chart comes, from before its first tick on and by inputs of their kinds, each enabled region has
/// a step: no test or effect is undefined. This function does nothing; its contract is the law.
pub fn charts_never_stick()
    ensures { ChartsNeverStick }
{}
