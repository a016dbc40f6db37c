//! Reading where transitions lead.

ghost use Rattle.std.specs.Prelude.{◌≡◌, MatchResult};
ghost use Rattle.grammar.specs.Read.{read};
ghost use Rattle.sc_text.specs.Reading.{Stops};
ghost use Rattle.chart_reader.specs.Phrase.{Gives};
ghost use Rattle.extended_reader.specs.Draft.{lead_of};
ghost use Rattle.extended_reader.specs.ExtendedText.{two_names, two_more, lead, last_lead, leading};

use crate::text_drafts::draft::{DraftLead, HistoryWords};
use chart_reader::text_parts::{Ahead, name, skip_sign};
use sc_text::{Named, ReadFault, Sign, name_follows};

#[tactic(auto, using(chart_reader::proofs::Parts::seq_stops_first, chart_reader::proofs::Parts::seq_stops_second, chart_reader::proofs::Parts::seq_gives), unfolding(crate::specs::ExtendedText::two_names))]
fn two_names(ahead: &mut Ahead, end: usize) -> Result<(Named, Named), ReadFault>
    ensures { MatchResult result
        (λ x. Gives (read two_names ahead.old.tokens.now) x ahead.new.tokens.now)
        (λ fault. Stops end (read two_names ahead.old.tokens.now) fault) }
{
    let first = name(ahead, end)?;
    let second = name(ahead, end)?;
    Ok((first, second))
}

// Two names more, where one is next.
fn two_more(ahead: &mut Ahead, end: usize) -> Result<Option<(Named, Named)>, ReadFault>
    ensures { MatchResult result
        (λ x. Gives (read two_more ahead.old.tokens.now) x ahead.new.tokens.now)
        (λ fault. Stops end (read two_more ahead.old.tokens.now) fault) }
{
    if !name_follows(ahead.tokens) {
        return Ok(None);
    }
    let more = two_names(ahead, end)?;
    Ok(Some(more))
}

// Where a transition leads, by the first name and the two behind it.
fn lead_of(first: Named, more: Option<(Named, Named)>) -> DraftLead
    ensures { result ≡ lead_of first more }
{
    match more {
        Some((history, target)) => DraftLead {
            history: Some(HistoryWords {
                shallow: first,
                history,
            }),
            target,
        },
        None => DraftLead {
            history: None,
            target: first,
        },
    }
}

#[tactic(auto, using(crate::proofs::Leads::lead_gives, chart_reader::proofs::Parts::made_stops, chart_reader::proofs::Parts::seq_stops_first, chart_reader::proofs::Parts::seq_stops_second), unfolding(crate::specs::ExtendedText::lead))]
fn lead(ahead: &mut Ahead, end: usize) -> Result<DraftLead, ReadFault>
    ensures { MatchResult result
        (λ x. Gives (read lead ahead.old.tokens.now) x ahead.new.tokens.now)
        (λ fault. Stops end (read lead ahead.old.tokens.now) fault) }
{
    let first = name(ahead, end)?;
    let more = two_more(ahead, end)?;
    Ok(lead_of(first, more))
}

#[tactic(auto, using(chart_reader::proofs::Parts::before_stops_first, chart_reader::proofs::Parts::before_stops_second, chart_reader::proofs::Parts::before_gives), unfolding(crate::specs::ExtendedText::last_lead))]
fn last_lead(ahead: &mut Ahead, end: usize) -> Result<DraftLead, ReadFault>
    ensures { MatchResult result
        (λ x. Gives (read last_lead ahead.old.tokens.now) x ahead.new.tokens.now)
        (λ fault. Stops end (read last_lead ahead.old.tokens.now) fault) }
{
    let lead = lead(ahead, end)?;
    skip_sign(ahead, end, Sign::Semicolon)?;
    Ok(lead)
}

/// Where a transition leads, between the arrow and the semicolon.
#[tactic(auto, using(chart_reader::proofs::Parts::after_stops_first), unfolding(crate::specs::ExtendedText::leading))]
pub(crate) fn leading(ahead: &mut Ahead, end: usize) -> Result<DraftLead, ReadFault>
    ensures { MatchResult result
        (λ x. Gives (read leading ahead.old.tokens.now) x ahead.new.tokens.now)
        (λ fault. Stops end (read leading ahead.old.tokens.now) fault) }
{
    skip_sign(ahead, end, Sign::Arrow)?;
    last_lead(ahead, end)
}
