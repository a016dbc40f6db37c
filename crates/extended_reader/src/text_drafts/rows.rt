//! Rows of what is new in states and transitions.

ghost use Rattle.std.specs.Prelude.{◌≡◌};
ghost use Rattle.extended_reader.specs.Draft.{no_rows, actions_of};

use crate::text_drafts::draft::{DraftEntry, DraftRows, StateActions};
use sqlite_items::Items;
use std::alloc::Global;

impl DraftRows {
    /// No rows.
    pub(crate) fn new(alloc: Global) -> DraftRows
        ensures { result ≡ no_rows }
    {
        DraftRows {
            entries: Items::new(alloc),
            ways: Items::new(alloc),
        }
    }
}

/// The actions of a state.
pub(crate) fn actions_of(is_final: bool, entries: Items<DraftEntry>) -> StateActions
    ensures { result ≡ actions_of is_final entries }
{
    StateActions {
        entries,
        may_last: !is_final,
    }
}
