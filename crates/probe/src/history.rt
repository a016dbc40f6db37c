//! The history of published ticks.

ghost use Rattle.std.specs.Prelude.{◌≡◌, ◌+◌, ◌-◌, ◌^◌, ◌<◌, ◌++◌, ◌∷◌, [], MatchBool, IsTrue, length, min};
ghost use mathlib.Core.List.{IsPrefix};
ghost use Rattle.probe.specs.Progress.{count_of};
ghost use Rattle.probe.specs.Inside.History.{IsNext, word_of, greatest};

use crate::tick_end::TickEnd;
use logbook::{Gain, Offer, Plain, Play, Rule, Seen, Start, Word};
use std::marker::Model;

/// The law of the history, which has the opening row and a row for each published tick. It stands in the proofs alone:
/// what is stored are two words that count it.
pub(crate) struct Law;

impl Rule<TickEnd, u64> for Law {
    ghost use Rattle.std.specs.Prelude.{[]};
    ghost use base.Fml.{ftrue};
    ghost use Rattle.probe.specs.Inside.History.{IsCounted};

    ghost holds = { λ cells log. IsCounted cells log };

    ghost first = { [] };

    ghost hinted = { λ n log. Unit {0} };

    ghost shows = { λ log. [] };

    ghost keeps = { λ names log. ftrue };

    ghost moves = { λ ask before after answer. Unit {0} };
}

struct Nothing;

impl Gain<TickEnd, u64> for Nothing {
    ghost use base.Fml.{ftrue};

    ghost after = { λ names about answer. ftrue };
}

// A step that adds a row.
struct Addition;

impl Play<TickEnd, u64> for Addition {
    ghost use Rattle.probe.specs.Inside.History.{Adds};

    ghost then = { Adds };
}

impl Plain<TickEnd, TickEnd, u64> for Addition {
    ghost use Rattle.std.specs.Prelude.{None};

    ghost ask = { λ row. row };

    ghost state = { λ row. None };
}

/// A beginning of a history that was seen, its first rows. Only their number is stored.
#[derive(Drop)]
pub(crate) struct Beginning {
    len: u128,
    seen: Seen<TickEnd, u64, Law>,
}

impl Model for Beginning {
    ghost use Rattle.std.specs.Prelude.{◌≡◌, length};
    ghost use Rattle.probe.specs.Progress.{Progress};

    ghost Value = { Progress };

    ghost view = { λ b. record { publisher = b.seen.book; rows = b.seen.log } };

    ghost invariant = { λ b. b.len ≡ length b.seen.log };
}

impl Beginning {
    /// A copy.
    pub fn again(&self) -> Beginning
        ensures { result ≡ self.now }
    {
        Beginning {
            len: self.len,
            seen: self.seen.again(),
        }
    }

    /// How many ticks it has. The number stays at its greatest.
    pub fn count(&self) -> u64
        ensures { result ≡ count_of self.now }
    {
        count_of(self.len)
    }

    /// Whether it has the other's rows first. Of two beginnings of one history one is a beginning of the other.
    pub fn begins_with(&self, other: &Beginning) -> bool
        requires { self.now.publisher ≡ other.now.publisher }
        ensures { MatchBool result (IsPrefix other.now.rows self.now.rows) (IsPrefix self.now.rows other.now.rows) }
    {
        let mut both = self.seen.again();
        both.learn(&other.seen);
        other.len <= self.len
    }
}

/// How many ticks so many rows are, the opening row aside. The number stays at its greatest.
pub(crate) fn count_of(rows: u128) -> u64
    ensures { result ≡ min (rows - 1) (2 ^ 64 - 1) }
{
    u64::try_from(rows.saturating_sub(1)).unwrap_or(u64::MAX)
}

// Adds a row in one step, at the word that counts it. It did not where the word was found otherwise.
fn add(
    word: &Word<TickEnd, u64, Law>,
    held: u64,
    seen: &mut Seen<TickEnd, u64, Law>,
    row: &TickEnd,
) -> bool
    requires word { word.now ≡ word_of seen.old.book word.now.key }
    requires next { IsNext word.now.key held (length seen.old.log) }
    requires room { held < greatest }
    ensures book { seen.new.book ≡ seen.old.book }
    ensures added { IsTrue result → seen.new.log ≡ seen.old.log ++ row.now ∷ [] }
{
    let mut offer: Offer<TickEnd, u64, Law, Nothing> = seen.plain::<Nothing, TickEnd, Addition>(
        row,
    );
    let mut pen = seen.no_pen();
    let found = word.compare_exchange::<Addition, Nothing>(
        held,
        held + 1,
        seen,
        &mut offer,
        &mut pen,
    );
    found == held
}

/// The history of a publisher, to which it alone adds.
#[derive(Drop)]
pub(crate) struct History {
    low: Word<TickEnd, u64, Law>,
    high: Word<TickEnd, u64, Law>,
    low_count: u64,
    high_count: u64,
    beginning: Beginning,
}

impl Model for History {
    ghost use Rattle.std.specs.Prelude.{◌≡◌, length};
    ghost use Rattle.probe.specs.Progress.{Progress};
    ghost use Rattle.probe.specs.Inside.History.{Counts, word_of};

    ghost Value = { Progress };

    ghost view = { λ h. h.beginning };

    ghost invariant = { λ h. (h.low ≡ word_of h.beginning.publisher 0) × (h.high ≡ word_of h.beginning.publisher 1)
        × Counts h.low_count h.high_count (length h.beginning.rows) };
}

impl History {
    /// An empty history.
    pub fn new() -> History
        ensures { result.rows ≡ [] }
    {
        let (seen, mut first, mut second) = Seen::open(Start::alone(), 0, 0);
        History {
            low: Word::tracked(0, &mut first),
            high: Word::tracked(0, &mut second),
            low_count: 0,
            high_count: 0,
            beginning: Beginning { len: 0, seen },
        }
    }

    /// All of it, as a beginning.
    pub fn beginning(&self) -> &Beginning
        ensures { result.now ≡ self.now }
    {
        &self.beginning
    }

    /// Adds a row. It did not where both words are full, and then nothing changed.
    pub fn add(&mut self, row: &TickEnd) -> bool
        ensures publisher { self.new.publisher ≡ self.old.publisher }
        ensures added { MatchBool result (self.new.rows ≡ self.old.rows ++ row.now ∷ []) (self.new ≡ self.old) }
    {
        let mut seen = self.beginning.seen.again();
        if self.low_count < u64::MAX {
            if !add(&self.low, self.low_count, &mut seen, row) {
                return false;
            }
            self.low_count += 1;
        } else {
            if self.high_count == u64::MAX || !add(&self.high, self.high_count, &mut seen, row) {
                return false;
            }
            self.high_count += 1;
        }
        let len = self.beginning.len + 1;
        self.beginning = Beginning { len, seen };
        true
    }
}
