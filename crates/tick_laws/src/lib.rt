//! The laws of ticks: what holds of every run of a tick of a valid image, over the definitions
//! alone.
#![tactic(auto)]

ghost use Rattle.tick_laws.specs.OneEnd.{OneEndOfTick};
ghost use Rattle.tick_laws.specs.WithinTick.{LawsWithinTick};

/// The law of one end: whatever the order in which enabled threads step, as long as it is
/// admissible, a tick of a valid image ends in one configuration, and no run is longer than the
/// budget. This function does nothing; its contract is the law.
pub fn one_end()
    ensures { OneEndOfTick }
{}

/// What each step within a tick of a valid image keeps: no step is undefined, no thread comes to a
/// higher priority on its way, and the weights bound the steps that are left. This function does
/// nothing; its contract is these laws.
pub fn within_tick()
    ensures { LawsWithinTick }
{}
