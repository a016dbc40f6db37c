//! For which state of a chart each state of its core chart stands.

ghost use Rattle.std.specs.Prelude.{◌≡◌};
ghost use Rattle.abort_expansion.specs.StateMap.{chart_state};

use sqlite_items::Items;

/// For which state of a chart each state of its core chart stands. The states of both are numbered from 0 in
/// the order of their texts.
#[derive(Drop)]
pub struct StateMap {
    /// For each core state that of the chart, if there is one.
    pub states: Items<Option<u32>>,
}

impl StateMap {
    /// The chart's state for which this core state stands. None: it stands for none, or there is no such core
    /// state.
    pub fn chart_state(&self, core: u32) -> Option<u32>
        ensures { result ≡ chart_state self.now.states core }
    {
        match self.states.get(core as usize) {
            Some(state) => *state,
            None => None,
        }
    }
}
