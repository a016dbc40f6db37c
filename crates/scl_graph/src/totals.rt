//! What a text counts, however long it is.

ghost use Rattle.std.specs.Prelude.{◌≡◌, ◌↔◌, IsTrue};
ghost use Rattle.std.specs.Option.{SomeIff};
ghost use Rattle.scl_graph.specs.Inside.Resolving.{FitsTotals};
ghost use Rattle.scl_graph.specs.Inside.Totals.{AreCounted, as_branch, branches_totals, sum, totals_of, totals_of_all};

use sc_graph::{NODE_LIMIT, THREAD_LIMIT};
use scl::Statement;
use sqlite_items::Items;

// A text that counts more is longer than any memory.
const TOTAL_LIMIT: u64 = 4_611_686_018_427_387_904;

/// How many nodes of its own thread a text has, how many threads it forks, how many nodes these have, and
/// how many gotos stand in it.
#[derive(Clone, Copy)]
pub(crate) struct Totals {
    pub(crate) nodes: u64,
    pub(crate) threads: u64,
    pub(crate) lower: u64,
    pub(crate) jumps: u64,
}

impl Totals {
    /// Those of nothing.
    pub(crate) fn none() -> Totals
        ensures { result ≡ record { nodes = 0; threads = 0; lower = 0; jumps = 0 } }
    {
        Totals {
            nodes: 0,
            threads: 0,
            lower: 0,
            jumps: 0,
        }
    }

    /// Those of so many nodes.
    pub(crate) fn nodes(nodes: u64) -> Totals
        ensures { result ≡ record { nodes = nodes; threads = 0; lower = 0; jumps = 0 } }
    {
        Totals {
            nodes,
            threads: 0,
            lower: 0,
            jumps: 0,
        }
    }

    /// Those of a goto.
    pub(crate) fn goto() -> Totals
        ensures { result ≡ record { nodes = 0; threads = 0; lower = 0; jumps = 1 } }
    {
        Totals {
            nodes: 0,
            threads: 0,
            lower: 0,
            jumps: 1,
        }
    }

    // What a branch counts whose text counts this: one thread more, and the node of its end.
    fn as_branch(self) -> Option<Totals>
        requires { AreCounted self }
        ensures { SomeIff result (AreCounted (as_branch self)) (as_branch self) }
    {
        let branch = Totals {
            nodes: 0,
            threads: self.threads + 1,
            lower: self.nodes + 1 + self.lower,
            jumps: self.jumps,
        };
        branch.if_counted()
    }

    // Those of two texts together. None: one of them is above the limit.
    fn plus(self, other: Totals) -> Option<Totals>
        requires { AreCounted self × AreCounted other }
        ensures { SomeIff result (AreCounted (sum self other)) (sum self other) }
    {
        let both = Totals {
            nodes: self.nodes + other.nodes,
            threads: self.threads + other.threads,
            lower: self.lower + other.lower,
            jumps: self.jumps + other.jumps,
        };
        both.if_counted()
    }

    /// Those of two texts together, which are counted.
    pub(crate) fn and(self, other: Totals) -> Totals
        requires { AreCounted (sum self other) }
        ensures { result ≡ sum self other }
    {
        Totals {
            nodes: self.nodes + other.nodes,
            threads: self.threads + other.threads,
            lower: self.lower + other.lower,
            jumps: self.jumps + other.jumps,
        }
    }

    /// What a branch counts whose text counts this, which is counted.
    pub(crate) fn of_branch(self) -> Totals
        requires { AreCounted (as_branch self) }
        ensures { result ≡ as_branch self }
    {
        Totals {
            nodes: 0,
            threads: self.threads + 1,
            lower: self.nodes + 1 + self.lower,
            jumps: self.jumps,
        }
    }

    /// Whether a graph of this size has no more nodes and threads than an image may: beside those of the text
    /// there are the end of the first thread, and that thread.
    pub(crate) fn fit_an_image(self) -> bool
        requires { AreCounted self }
        ensures { IsTrue result ↔ FitsTotals self }
    {
        self.nodes + 1 + self.lower <= NODE_LIMIT as u64 && self.threads + 1 <= THREAD_LIMIT as u64
    }

    // These totals. None: one of them is above the limit.
    fn if_counted(self) -> Option<Totals>
        ensures { SomeIff result (AreCounted self) self }
    {
        let few = self.nodes <= TOTAL_LIMIT && self.threads <= TOTAL_LIMIT;
        if few && self.lower <= TOTAL_LIMIT && self.jumps <= TOTAL_LIMIT {
            Some(self)
        } else {
            None
        }
    }
}

/// What the statements of a text count. None: one of the totals is above the limit.
#[cycle(totalling)]
pub(crate) fn totals_of(statements: &[Statement]) -> Option<Totals>
    ensures { SomeIff result (AreCounted (totals_of_all statements.now)) (totals_of_all statements.now) }
{
    let mut total = Totals::none();
    for statement in statements {
        total = total.plus(statement_totals(statement)?)?;
    }
    Some(total)
}

// What a statement counts.
#[cycle(totalling)]
#[tactic(auto, using(crate::proofs::Pieces::piece_of_assign, crate::proofs::Pieces::piece_of_label, crate::proofs::Pieces::piece_of_goto, crate::proofs::Pieces::piece_of_pause, crate::proofs::Pieces::piece_of_if, crate::proofs::Pieces::piece_of_fork))]
fn statement_totals(statement: &Statement) -> Option<Totals>
    ensures { SomeIff result (AreCounted (totals_of statement.now)) (totals_of statement.now) }
{
    match statement {
        Statement::Label(_) => Some(Totals::none()),
        Statement::Goto(_) => Some(Totals::goto()),
        Statement::Assign { .. } => Some(Totals::nodes(1)),
        Statement::Pause => Some(Totals::nodes(2)),
        Statement::If {
            test: _,
            first,
            second,
        } => {
            let first = totals_of(first.as_slice())?;
            let second = totals_of(second.as_slice())?;
            Totals::nodes(1).plus(first.plus(second)?)
        }
        Statement::Fork { branches } => {
            let mut total = Totals::nodes(2);
            for branch in branches.as_slice() {
                total = total.plus(totals_of(branch.as_slice())?.as_branch()?)?;
            }
            Some(total)
        }
    }
}
