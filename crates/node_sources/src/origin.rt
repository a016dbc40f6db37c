//! Where a node of a program comes from.

ghost use Rattle.std.specs.Prelude.{◌≡◌};
ghost use Rattle.node_sources.specs.SclOrigins.{statement_at};

/// What stands at the place of an origin.
#[derive(Clone, Copy, PartialEq, Eq)]
pub enum SourcePart {
    /// A statement of SCL text, or the word that opens a branch or the text.
    Statement,
    /// The name of a chart, whose regions are entered and end.
    Chart,
    /// The name of a region, which begins or ends.
    Region,
    /// The name of a state, which waits or enters its regions.
    State,
    /// A transition: its word, where it is tested, or the variable of one of its effects.
    Transition,
    /// The word of an abort, for which something is looked at or noted.
    Abort,
    /// The name of a superstate, which is entered: its aborts are forgotten, and its regions are counted.
    Entry,
    /// A transition, or an initial state, where the regions of a superstate that have still to end are counted.
    Count,
}

/// Where a node of a program comes from.
#[derive(Clone, Copy)]
pub struct Origin {
    /// The first byte in the text, from 0.
    pub at: usize,
    /// What stands there.
    pub part: SourcePart,
    /// Where the name of the region stands that it is in, or for an abort that of its superstate. SCL text has none.
    pub region: Option<usize>,
    /// Where the name of the state stands that it belongs to, or for an abort its superstate.
    pub state: Option<usize>,
}

impl Origin {
    /// That of a statement.
    pub(crate) fn statement(at: usize) -> Origin
        ensures { result ≡ statement_at at }
    {
        Origin {
            at,
            part: SourcePart::Statement,
            region: None,
            state: None,
        }
    }
}
