//! Reading states and regions, which stand in one another.

ghost use Rattle.std.specs.Prelude.{◌≡◌, MatchResult};
ghost use Rattle.grammar.specs.Read.{read, starts};
ghost use Rattle.sc_text.specs.Expression.{text_tokens, expression};
ghost use Rattle.sc_text.specs.Reading.{Stops};
ghost use Rattle.chart_reader.specs.ChartText.{state_first, listed, inside, body, state, states, region, braced};
ghost use Rattle.chart_reader.specs.ChartText.{within};
ghost use Rattle.chart_reader.specs.PartsRead.{Fills};
ghost use Rattle.chart_reader.specs.Phrase.{Gives};
ghost use Rattle.chart_reader.specs.Inside.TextDrafts.{FillsBoth};

use crate::text_drafts::ahead::{Ahead, skip_sign};
use crate::text_drafts::draft::{DraftRegion, DraftState, DraftTransition};
use crate::text_drafts::transitions::leaving;
use crate::text_drafts::words::{flag, title};
use sc_text::ahead::{behind, sign_follows, too_deep, word_follows};
use sc_text::{ReadFault, Sign, Token, Word};
use sqlite_items::Items;
use std::alloc::Global;

/// Puts the regions of one superstate behind others, inside which so many more levels of regions may stand.
#[cycle(regions)]
#[tactic(auto, using(crate::proofs::Nesting::no_first_region))]
pub(crate) fn regions(
    alloc: Global,
    depth: u8,
    ahead: &mut Ahead,
    end: usize,
    found: &mut Items<DraftRegion>,
) -> Result<(), ReadFault>
    ensures { MatchResult result
        (λ _. Fills (read (listed (region (expression 0) (within (expression 0) depth))
        (region (expression 0) (within (expression 0) depth))) ahead.old.tokens.now)
        found.old found.new ahead.new.tokens.now)
        (λ fault. Stops end (read (listed (region (expression 0) (within (expression 0) depth))
        (region (expression 0) (within (expression 0) depth))) ahead.old.tokens.now) fault) }
{
    let first = region(alloc, depth, ahead, end)?;
    found.push(first)?;
    let most = ahead.tokens.len();
    for used in 0..most {
        if !word_follows(ahead.tokens, Word::Region) {
            return Ok(());
        }
        let next = region(alloc, depth, ahead, end)?;
        found.push(next)?;
    }
    Ok(())
}

#[cycle(regions)]
#[tactic(auto, using(crate::proofs::Nesting::region_gives, crate::proofs::Parts::made_stops, crate::proofs::Parts::seq_stops_first, crate::proofs::Parts::seq_stops_second), unfolding(crate::specs::ChartText::region))]
fn region(alloc: Global, depth: u8, ahead: &mut Ahead, end: usize) -> Result<DraftRegion, ReadFault>
    ensures { MatchResult result
        (λ x. Gives (read
        (region (expression 0) (within (expression 0) depth)) ahead.old.tokens.now) x ahead.new.tokens.now)
        (λ fault. Stops end (read (region (expression 0) (within (expression 0) depth)) ahead.old.tokens.now) fault) }
{
    let named = title(ahead, end, Word::Region)?;
    let mut states = Items::new(alloc);
    braced_states(alloc, depth, ahead, end, &mut states)?;
    Ok(DraftRegion { named, states })
}

#[cycle(regions)]
#[tactic(auto, using(crate::proofs::Parts::after_stops_first, crate::proofs::Nesting::braced_stops_inside))]
fn braced_states(
    alloc: Global,
    depth: u8,
    ahead: &mut Ahead,
    end: usize,
    found: &mut Items<DraftState>,
) -> Result<(), ReadFault>
    ensures { MatchResult result
        (λ _. Fills (read (braced (states (expression 0) (within
        (expression 0) depth))) ahead.old.tokens.now) found.old found.new ahead.new.tokens.now)
        (λ fault. Stops end (read (braced (states (expression 0)
        (within (expression 0) depth))) ahead.old.tokens.now) fault) }
{
    skip_sign(ahead, end, Sign::OpenBrace)?;
    states(alloc, depth, ahead, end, found)?;
    skip_sign(ahead, end, Sign::CloseBrace)
}

#[cycle(regions)]
#[tactic(auto, using(crate::proofs::Nesting::no_first_state))]
fn states(
    alloc: Global,
    depth: u8,
    ahead: &mut Ahead,
    end: usize,
    found: &mut Items<DraftState>,
) -> Result<(), ReadFault>
    ensures { MatchResult result
        (λ _. Fills (read
        (states (expression 0) (within (expression 0) depth)) ahead.old.tokens.now)
        found.old found.new ahead.new.tokens.now)
        (λ fault. Stops end (read (states (expression 0) (within (expression 0) depth)) ahead.old.tokens.now) fault) }
{
    let first = state(alloc, depth, ahead, end)?;
    found.push(first)?;
    let most = ahead.tokens.len();
    for used in 0..most {
        if !state_follows(ahead.tokens) {
            return Ok(());
        }
        let next = state(alloc, depth, ahead, end)?;
        found.push(next)?;
    }
    Ok(())
}

/// Whether a state is next.
pub fn state_follows(tokens: &[Token]) -> bool
    ensures { result ≡ starts text_tokens state_first tokens.now }
{
    word_follows(tokens, Word::Initial)
        || word_follows(tokens, Word::Final)
        || word_follows(tokens, Word::State)
}

#[cycle(regions)]
#[tactic(auto, using(crate::proofs::Nesting::state_gives, crate::proofs::Parts::made_stops, crate::proofs::Parts::seq_stops_first, crate::proofs::Parts::seq_stops_second), unfolding(crate::specs::ChartText::state))]
fn state(alloc: Global, depth: u8, ahead: &mut Ahead, end: usize) -> Result<DraftState, ReadFault>
    ensures { MatchResult result
        (λ x. Gives (read
        (state (expression 0) (within (expression 0) depth)) ahead.old.tokens.now) x ahead.new.tokens.now)
        (λ fault. Stops end (read (state (expression 0) (within (expression 0) depth)) ahead.old.tokens.now) fault) }
{
    let is_initial = flag(ahead, Word::Initial);
    let is_final = flag(ahead, Word::Final);
    let named = title(ahead, end, Word::State)?;
    let mut regions = Items::new(alloc);
    let mut transitions = Items::new(alloc);
    body(alloc, depth, ahead, end, &mut regions, &mut transitions)?;
    Ok(DraftState {
        is_initial,
        is_final,
        named,
        regions,
        transitions,
    })
}

// What is in a state, or the semicolon where nothing is.
#[cycle(regions)]
#[tactic(auto, using(crate::proofs::Nesting::simple_fills, crate::proofs::Nesting::brace_stops))]
fn body(
    alloc: Global,
    depth: u8,
    ahead: &mut Ahead,
    end: usize,
    regions: &mut Items<DraftRegion>,
    transitions: &mut Items<DraftTransition>,
) -> Result<(), ReadFault>
    ensures { MatchResult result
        (λ _. FillsBoth (read (body (expression 0) (within (expression 0) depth)) ahead.old.tokens.now)
        regions.old regions.new transitions.old transitions.new ahead.new.tokens.now)
        (λ fault. Stops end (read (body (expression 0) (within (expression 0) depth)) ahead.old.tokens.now) fault) }
{
    if sign_follows(ahead.tokens, Sign::Semicolon) {
        ahead.tokens = behind(ahead.tokens);
        return Ok(());
    }
    skip_sign(ahead, end, Sign::OpenBrace)?;
    inside(alloc, depth, ahead, end, regions, transitions)
}

// The regions and the transitions of a state, up to the brace that closes it.
#[cycle(regions)]
#[tactic(auto, using(crate::proofs::Nesting::too_deep_stops, crate::proofs::Nesting::regions_stop))]
fn inside(
    alloc: Global,
    depth: u8,
    ahead: &mut Ahead,
    end: usize,
    found: &mut Items<DraftRegion>,
    transitions: &mut Items<DraftTransition>,
) -> Result<(), ReadFault>
    ensures { MatchResult result
        (λ _. FillsBoth (read (inside (expression 0) (within (expression 0) depth)) ahead.old.tokens.now)
        found.old found.new transitions.old transitions.new ahead.new.tokens.now)
        (λ fault. Stops end (read (inside (expression 0) (within (expression 0) depth)) ahead.old.tokens.now) fault) }
{
    if !word_follows(ahead.tokens, Word::Region) {
        return leaving(alloc, ahead, end, transitions);
    }
    if depth == 0 {
        return Err(too_deep(ahead.tokens, end));
    }
    regions(alloc, depth - 1, ahead, end, found)?;
    leaving(alloc, ahead, end, transitions)
}
