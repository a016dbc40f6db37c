//! What is the author's in a reduced chart.

use chart_reduction::AuthorRows;
use sqlite_items::Items;

/// The effects of a transition of the author's: the number of the first one, and how many there are.
#[derive(Clone, Copy)]
pub struct EffectRow {
    pub first: u32,
    pub count: usize,
}

/// What is the author's in a reduced chart: its states and transitions, by their numbers in his text; the effects of
/// each transition of his, in the order of his text; and how many variables are his, which come before those that are
/// made.
#[derive(Drop)]
pub struct Author {
    pub rows: AuthorRows,
    pub effects: Items<EffectRow>,
    pub variables: usize,
}
