//! Graphs of nodes and weighted edges.

ghost use Rattle.std.specs.Prelude.{ℕ, ◌≤◌, MatchOption};
ghost use Rattle.least_or_cycle.specs.Walks.{LeadsStrictlyTo, LeadsTo};

/// A graph whose edges have a weight of 0 or 1 each.
pub trait Graph {
    ghost leads: { Self → ℕ → ℕ → ℕ → Type 0 };

    /// A node to which an edge leads, of a rank above 0 and below a number. None: there is none.
    fn towards(&self, ranks: &[u32], node: u16, below: u64) -> Option<u16>
        ensures { MatchOption result ((n : ℕ) → ¬ LeadsTo (leads self.now) ranks.now node below n)
            (LeadsTo (leads self.now) ranks.now node below) };

    /// A node to which an edge of weight 1 leads, of a rank above 0. None: there is none.
    fn strictly_towards(&self, ranks: &[u32], node: u16) -> Option<u16>
        ensures { MatchOption result ((n : ℕ) → ¬ LeadsStrictlyTo (leads self.now) ranks.now node n)
            (LeadsStrictlyTo (leads self.now) ranks.now node) };

    ghost light: { (graph : Self) (m n w : ℕ) → leads graph m n w → w ≤ 1 };
}
