//! Laws that no single function says.

ghost use Rattle.chart_reduction.specs.Laws.{ChartsStay, SignalsAreUpdated};

/// A chart without any construct is reduced to itself, and no pass adds anything to it. This function does nothing; its
/// contract is the law.
pub fn charts_stay()
    ensures { ChartsStay }
{}

/// A signal is made false by an init and emitted by an update, so that in each tick the first comes before the second.
/// This function does nothing; its contract is the law.
pub fn signals_are_updated()
    ensures { SignalsAreUpdated }
{}
