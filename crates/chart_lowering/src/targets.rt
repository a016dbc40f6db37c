//! Where the gotos of a region's states lead.

ghost use Rattle.std.specs.Prelude.{◌≡◌};
ghost use Rattle.chart_lowering.specs.Lowering.{label_at};

use sc_values::Name;
use sqlite_items::Items;

/// The labels to which a region's states go.
#[derive(Drop)]
pub struct Targets {
    /// Those of its states, in the order of the chart.
    pub states: Items<Name>,
    /// That of its end.
    pub end: Name,
}

impl Targets {
    /// The label of the state at this place. Where there is none, that of the end.
    pub(crate) fn label_at(&self, place: u32) -> Name
        ensures { result ≡ label_at self.now place }
    {
        match self.states.get(place as usize) {
            Some(label) => *label,
            None => self.end,
        }
    }
}
