//! Reading states and regions, which stand in one another, with what is new in them.

ghost use Rattle.std.specs.Prelude.{MatchResult};
ghost use Rattle.grammar.specs.Read.{read};
ghost use Rattle.sc_text.specs.Expression.{expression};
ghost use Rattle.sc_text.specs.Reading.{Stops};
ghost use Rattle.chart_reader.specs.ChartText.{braced};
ghost use Rattle.extended_reader.specs.ExtendedText.{rowed, inside, acting, body, state, region, within};
ghost use Rattle.extended_reader.specs.Inside.TextDrafts.{Puts, put_part, put_parts, put_inside, put_body};

use crate::text_drafts::draft::DraftRows;
use crate::text_drafts::entries::Entries;
use crate::text_drafts::rows::actions_of;
use crate::text_drafts::transitions::leaving;
use chart_reader::text_parts::{Ahead, flag, put_row, skip_sign, state_follows, title};
use chart_reader::{DraftRegion, DraftState, DraftTransition};
use sc_text::ahead::{behind, sign_follows, too_deep, word_follows};
use sc_text::{ReadFault, Sign, Word};
use sqlite_items::Items;
use std::alloc::Global;

/// Puts the regions of one superstate with their rows behind others, inside which so many more levels of regions may
/// stand.
#[cycle(regions)]
pub(crate) fn regions(
    alloc: Global,
    depth: u8,
    ahead: &mut Ahead,
    end: usize,
    found: &mut Items<DraftRegion>,
    rows: &mut DraftRows,
) -> Result<(), ReadFault>
    ensures { MatchResult result
        (λ _. Puts (read (rowed (region (expression 0) (within (expression 0) depth))) ahead.old.tokens.now) put_parts
        (found.old, rows.old) (found.new, rows.new) ahead.new.tokens.now)
        (λ fault. Stops end (read (rowed (region (expression 0) (within (expression 0) depth)))
        ahead.old.tokens.now) fault) }
{
    region(alloc, depth, ahead, end, found, rows)?;
    let most = ahead.tokens.len();
    for used in 0..most {
        if !word_follows(ahead.tokens, Word::Region) {
            return Ok(());
        }
        region(alloc, depth, ahead, end, found, rows)?;
    }
    Ok(())
}

#[cycle(regions)]
#[tactic(auto, using(chart_reader::proofs::Parts::made_stops, chart_reader::proofs::Parts::seq_stops_first, chart_reader::proofs::Parts::seq_stops_second), unfolding(crate::specs::ExtendedText::region))]
fn region(
    alloc: Global,
    depth: u8,
    ahead: &mut Ahead,
    end: usize,
    found: &mut Items<DraftRegion>,
    rows: &mut DraftRows,
) -> Result<(), ReadFault>
    ensures { MatchResult result
        (λ _. Puts (read (region (expression 0) (within (expression 0) depth)) ahead.old.tokens.now) put_part
        (found.old, rows.old) (found.new, rows.new) ahead.new.tokens.now)
        (λ fault. Stops end (read (region (expression 0) (within (expression 0) depth)) ahead.old.tokens.now) fault) }
{
    let named = title(ahead, end, Word::Region)?;
    let mut states = Items::new(alloc);
    match braced_states(alloc, depth, ahead, end, &mut states, rows) {
        Ok(()) => {
            found.push(DraftRegion { named, states })?;
            Ok(())
        }
        Err(fault) => {
            drop(states);
            Err(fault)
        }
    }
}

#[cycle(regions)]
#[tactic(auto, using(chart_reader::proofs::Parts::after_stops_first, chart_reader::proofs::Nesting::braced_stops_inside))]
fn braced_states(
    alloc: Global,
    depth: u8,
    ahead: &mut Ahead,
    end: usize,
    found: &mut Items<DraftState>,
    rows: &mut DraftRows,
) -> Result<(), ReadFault>
    ensures { MatchResult result
        (λ _. Puts (read (braced (rowed (state (expression 0) (within (expression 0) depth)))) ahead.old.tokens.now)
        put_parts (found.old, rows.old) (found.new, rows.new) ahead.new.tokens.now)
        (λ fault. Stops end (read (braced (rowed (state (expression 0) (within (expression 0) depth))))
        ahead.old.tokens.now) fault) }
{
    skip_sign(ahead, end, Sign::OpenBrace)?;
    states(alloc, depth, ahead, end, found, rows)?;
    skip_sign(ahead, end, Sign::CloseBrace)
}

#[cycle(regions)]
fn states(
    alloc: Global,
    depth: u8,
    ahead: &mut Ahead,
    end: usize,
    found: &mut Items<DraftState>,
    rows: &mut DraftRows,
) -> Result<(), ReadFault>
    ensures { MatchResult result
        (λ _. Puts (read (rowed (state (expression 0) (within (expression 0) depth))) ahead.old.tokens.now) put_parts
        (found.old, rows.old) (found.new, rows.new) ahead.new.tokens.now)
        (λ fault. Stops end (read (rowed (state (expression 0) (within (expression 0) depth)))
        ahead.old.tokens.now) fault) }
{
    state(alloc, depth, ahead, end, found, rows)?;
    let most = ahead.tokens.len();
    for used in 0..most {
        if !state_follows(ahead.tokens) {
            return Ok(());
        }
        state(alloc, depth, ahead, end, found, rows)?;
    }
    Ok(())
}

#[cycle(regions)]
#[tactic(auto, using(chart_reader::proofs::Parts::made_stops, chart_reader::proofs::Parts::seq_stops_first, chart_reader::proofs::Parts::seq_stops_second), unfolding(crate::specs::ExtendedText::state))]
fn state(
    alloc: Global,
    depth: u8,
    ahead: &mut Ahead,
    end: usize,
    found: &mut Items<DraftState>,
    rows: &mut DraftRows,
) -> Result<(), ReadFault>
    ensures { MatchResult result
        (λ _. Puts (read (state (expression 0) (within (expression 0) depth)) ahead.old.tokens.now) put_part
        (found.old, rows.old) (found.new, rows.new) ahead.new.tokens.now)
        (λ fault. Stops end (read (state (expression 0) (within (expression 0) depth)) ahead.old.tokens.now) fault) }
{
    let is_initial = flag(ahead, Word::Initial);
    let is_final = flag(ahead, Word::Final);
    let named = title(ahead, end, Word::State)?;
    let mut regions = Items::new(alloc);
    let mut transitions = Items::new(alloc);
    match body(
        alloc,
        depth,
        is_final,
        ahead,
        end,
        &mut regions,
        &mut transitions,
        rows,
    ) {
        Ok(()) => {
            found.push(DraftState {
                is_initial,
                is_final,
                named,
                regions,
                transitions,
            })?;
            Ok(())
        }
        Err(fault) => {
            drop(regions);
            drop(transitions);
            Err(fault)
        }
    }
}

// What is in a state, or the semicolon where nothing is.
#[cycle(regions)]
#[tactic(auto, using(crate::proofs::Nesting::brace_stops))]
fn body(
    alloc: Global,
    depth: u8,
    is_final: bool,
    ahead: &mut Ahead,
    end: usize,
    found: &mut Items<DraftRegion>,
    transitions: &mut Items<DraftTransition>,
    rows: &mut DraftRows,
) -> Result<(), ReadFault>
    ensures { MatchResult result
        (λ _. Puts (read (body (expression 0) (within (expression 0) depth)) ahead.old.tokens.now) (put_body is_final)
        ((found.old, transitions.old), rows.old) ((found.new, transitions.new), rows.new) ahead.new.tokens.now)
        (λ fault. Stops end (read (body (expression 0) (within (expression 0) depth)) ahead.old.tokens.now) fault) }
{
    if sign_follows(ahead.tokens, Sign::Semicolon) {
        ahead.tokens = behind(ahead.tokens);
        rows.entries.push(actions_of(is_final, Items::new(alloc)))?;
        return Ok(());
    }
    skip_sign(ahead, end, Sign::OpenBrace)?;
    acting(alloc, depth, is_final, ahead, end, found, transitions, rows)
}

// The actions of a state, and what is in it behind them.
#[cycle(regions)]
#[tactic(auto, using(chart_reader::proofs::Parts::seq_stops_first), unfolding(crate::specs::ExtendedText::acting))]
fn acting(
    alloc: Global,
    depth: u8,
    is_final: bool,
    ahead: &mut Ahead,
    end: usize,
    found: &mut Items<DraftRegion>,
    transitions: &mut Items<DraftTransition>,
    rows: &mut DraftRows,
) -> Result<(), ReadFault>
    ensures { MatchResult result
        (λ _. Puts (read (acting (expression 0) (within (expression 0) depth)) ahead.old.tokens.now)
        (put_body is_final) ((found.old, transitions.old), rows.old) ((found.new, transitions.new), rows.new)
        ahead.new.tokens.now)
        (λ fault. Stops end (read (acting (expression 0) (within (expression 0) depth)) ahead.old.tokens.now) fault) }
{
    let mut own = Items::new(alloc);
    put_row::<Entries>(alloc, ahead, end, &mut own)?;
    rows.entries.push(actions_of(is_final, own))?;
    inside(alloc, depth, ahead, end, found, transitions, rows)
}

// The regions and the transitions of a state, up to the brace that closes it.
#[cycle(regions)]
#[tactic(auto, using(crate::proofs::Nesting::too_deep_stops, crate::proofs::Nesting::regions_stop))]
fn inside(
    alloc: Global,
    depth: u8,
    ahead: &mut Ahead,
    end: usize,
    found: &mut Items<DraftRegion>,
    transitions: &mut Items<DraftTransition>,
    rows: &mut DraftRows,
) -> Result<(), ReadFault>
    ensures { MatchResult result
        (λ _. Puts (read (inside (expression 0) (within (expression 0) depth)) ahead.old.tokens.now) put_inside
        ((found.old, transitions.old), rows.old) ((found.new, transitions.new), rows.new) ahead.new.tokens.now)
        (λ fault. Stops end (read (inside (expression 0) (within (expression 0) depth)) ahead.old.tokens.now) fault) }
{
    if !word_follows(ahead.tokens, Word::Region) {
        return leaving(alloc, ahead, end, transitions, &mut rows.ways);
    }
    if depth == 0 {
        return Err(too_deep(ahead.tokens, end));
    }
    regions(alloc, depth - 1, ahead, end, found, rows)?;
    leaving(alloc, ahead, end, transitions, &mut rows.ways)
}
