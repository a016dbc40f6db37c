//! The elements of a chart.

/// An element of a chart. Those of each sort are numbered from 0 in the order of the text; a state's own transitions
/// come before those in it.
#[derive(Clone, Copy, PartialEq, Eq)]
pub enum Element {
    /// The chart as a whole.
    Chart,
    Region(u32),
    State(u32),
    Transition(u32),
    /// An effect of a transition.
    Effect(u32),
}
