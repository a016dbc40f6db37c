//! What is left of the rows of a draft, as its states and transitions are gone over.

ghost use Rattle.std.specs.Prelude.{◌≡◌, ◌≤◌, ◌+◌, IfOk, length};
ghost use Rattle.std.specs.Option.{option_copied};
ghost use Rattle.extended_reader.specs.Counts.{HaveCounts, own_counts, counts_of, first_number};
ghost use Rattle.extended_reader.specs.Resolved.{first_actions, first_delay, is_by_history};
ghost use Rattle.extended_reader.specs.Resolved.{rows_of, behind_state, behind_transition};

use crate::counts::counts_in;
use crate::text_drafts::{DraftDelay, DraftEntry, DraftWay, StateActions};
use extended_charts::ELAPSED;
use std::alloc::AllocError;

/// The rows of the states and the transitions that are left, and how many counts these transitions have.
#[derive(Drop)]
pub(crate) struct RowsLeft<'a> {
    pub(crate) entries: &'a [StateActions],
    pub(crate) ways: &'a [DraftWay],
    counts: u16,
    ghost counted: { HaveCounts ways.now counts },
}

impl<'a> RowsLeft<'a> {
    /// These rows, of which all are left. Err: they have more than 65535 counts.
    pub(crate) fn of(
        entries: &'a [StateActions],
        ways: &'a [DraftWay],
    ) -> Result<RowsLeft<'a>, AllocError>
        ensures { IfOk result (λ rows. rows_of rows.entries.now rows.ways.now ≡ rows_of entries.now ways.now) }
    {
        let counts = counts_in(ways)?;
        Ok(RowsLeft {
            entries,
            ways,
            counts,
        })
    }

    /// Takes the actions of a state off the front.
    pub(crate) fn actions(&mut self) -> &'a [DraftEntry]
        ensures row { result.now ≡ first_actions self.old.entries.now }
        ensures left { rows_of self.new.entries.now self.new.ways.now ≡
            behind_state (rows_of self.old.entries.now self.old.ways.now) }
    {
        match self.entries {
            [own, behind @ ..] => {
                self.entries = behind;
                own.entries.as_slice()
            }
            [] => &[],
        }
    }

    /// The number of the first count that is left.
    pub(crate) fn number(&self) -> u16
        ensures { result ≡ first_number self.now.ways.now }
    {
        ELAPSED - self.counts
    }

    /// Takes the row of a transition off the front: what it waits for, and whether its target is entered by history.
    #[tactic(auto, using(crate::proofs::Counting::own_within, crate::proofs::Counting::fewer_behind))]
    pub(crate) fn way(&mut self) -> (Option<&'a DraftDelay>, bool)
        ensures delay { option_copied result.0 ≡ first_delay self.old.ways.now }
        ensures history { result.1 ≡ is_by_history self.old.ways.now }
        ensures left { rows_of self.new.entries.now self.new.ways.now ≡
            behind_transition (rows_of self.old.entries.now self.old.ways.now) }
    {
        match self.ways {
            [first, behind @ ..] => {
                self.counts = counts_behind(&first.delay, self.counts);
                self.ways = behind;
                (first.delay.as_ref(), first.history.is_some())
            }
            [] => (None, false),
        }
    }
}

// How many counts are left behind a delay, of so many with its own.
fn counts_behind(delay: &Option<DraftDelay>, counts: u16) -> u16
    requires { length (own_counts delay.now) ≤ counts }
    ensures { length (own_counts delay.now) + result ≡ counts }
{
    match delay {
        Some(delay) if delay.count.is_some() => counts - 1,
        _ => counts,
    }
}
