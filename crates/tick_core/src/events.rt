//! The law of events.

ghost use Rattle.tick_core.specs.Events.{AllTicksEndAlike, EveryOrderReplays};

/// The law of events: whatever workers 0 to 8 claim, commit and give back, in whatever order, the
/// committed threads are an admissible priority run from the start, within the budget, after which
/// each enabled thread has a step; and each open claim is of a thread that leads and has the present
/// values of what its code loads. This function does nothing; its contract is the law.
pub fn every_order_replays()
    ensures { EveryOrderReplays }
{}

/// The law of ticks: a tick for each of a list of inputs, each begun where the one before ended and
/// played by any events until nobody is enabled, is whole, and ends where every other such play of
/// these inputs ends. This function does nothing; its contract is the law.
pub fn all_ticks_end_alike()
    ensures { AllTicksEndAlike }
{}
