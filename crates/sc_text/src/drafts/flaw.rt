//! Flaws of drafts, and their order.

ghost use Rattle.std.specs.Prelude.{◌≡◌};
ghost use Rattle.sc_text.specs.First.{comes_before};
ghost use Rattle.sc_text.specs.Flaws.{is_full};

use crate::FaultKind;

/// A flaw of a draft: what is broken, and its place in the text.
#[derive(Clone, Copy)]
pub struct Flaw {
    pub broken: FaultKind,
    pub at: usize,
}

impl Flaw {
    /// Whether it stands before the other, or at the same place with a smaller number.
    pub(crate) fn comes_before(self, other: Flaw) -> bool
        ensures { result ≡ comes_before self other }
    {
        self.at < other.at || (self.at == other.at && self.broken.number() < other.broken.number())
    }
}

/// Whether so many are there already that no more may be.
pub fn is_full(limit: usize, count: usize) -> bool
    ensures { result ≡ is_full limit count }
{
    !(count < limit)
}
