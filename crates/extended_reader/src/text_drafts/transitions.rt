//! Reading transitions with what is new of them.

ghost use Rattle.std.specs.Prelude.{◌≡◌, [], ◌∷◌, ◌++◌, MatchResult, OnOk, option_map};
ghost use Rattle.grammar.specs.Grammar.{seq};
ghost use Rattle.grammar.specs.Read.{read};
ghost use Rattle.sc_text.specs.Expression.{expression};
ghost use Rattle.sc_text.specs.Reading.{Stops};
ghost use Rattle.chart_reader.specs.ChartText.{trigger};
ghost use Rattle.chart_reader.specs.Phrase.{Gives};
ghost use Rattle.extended_reader.specs.Draft.{hold_of};
ghost use Rattle.extended_reader.specs.ExtendedText.{some_count, counted, some_delay, pause, tested, termination};
ghost use Rattle.extended_reader.specs.ExtendedText.{outcome, transition, transitions, leaving};
ghost use Rattle.extended_reader.specs.Inside.TextDrafts.{Puts, put_way, put_ways};

use crate::text_drafts::draft::{DraftCount, DraftDelay, DraftLead, DraftWay};
use crate::text_drafts::effects::outcome;
use chart_reader::text_parts::{
    Ahead, join_word, name, placed, skip_sign, tested_word, transition_follows, trigger,
};
use chart_reader::{DraftEffect, DraftTransition};
use sc_text::ahead::{behind, word_follows};
use sc_text::{ReadFault, Sign, TextExpression, Word, name_follows};
use sqlite_items::Items;
use std::alloc::{AllocError, Global};

#[tactic(auto, using(crate::proofs::Pieces::some_delay_gives, chart_reader::proofs::Parts::made_stops, chart_reader::proofs::Parts::seq_stops_first, chart_reader::proofs::Parts::seq_stops_second), unfolding(crate::specs::ExtendedText::some_delay))]
fn some_delay(alloc: Global, ahead: &mut Ahead, end: usize) -> Result<DraftDelay, ReadFault>
    ensures { MatchResult result
        (λ x. Gives (read (some_delay (expression 0)) ahead.old.tokens.now) x ahead.new.tokens.now)
        (λ fault. Stops end (read (some_delay (expression 0)) ahead.old.tokens.now) fault) }
{
    let word = name(ahead, end)?;
    let until = placed(alloc, ahead, end)?;
    match counted(alloc, ahead, end) {
        Ok(count) => Ok(DraftDelay {
            word: Some(word),
            until,
            count,
        }),
        Err(fault) => {
            drop(until);
            Err(fault)
        }
    }
}

// The condition of which ticks are counted, where there is one.
#[tactic(auto, using(crate::proofs::Pieces::count_missing, crate::proofs::Pieces::count_there, crate::proofs::Pieces::count_stops))]
fn counted(alloc: Global, ahead: &mut Ahead, end: usize) -> Result<Option<DraftCount>, ReadFault>
    ensures { MatchResult result
        (λ x. Gives (read (counted (expression 0)) ahead.old.tokens.now) x ahead.new.tokens.now)
        (λ fault. Stops end (read (counted (expression 0)) ahead.old.tokens.now) fault) }
{
    if !name_follows(ahead.tokens) {
        return Ok(None);
    }
    let count = some_count(alloc, ahead, end)?;
    Ok(Some(count))
}

#[tactic(auto, using(crate::proofs::Pieces::some_count_gives, chart_reader::proofs::Parts::made_stops, chart_reader::proofs::Parts::seq_stops_first, chart_reader::proofs::Parts::seq_stops_second), unfolding(crate::specs::ExtendedText::some_count))]
fn some_count(alloc: Global, ahead: &mut Ahead, end: usize) -> Result<DraftCount, ReadFault>
    ensures { MatchResult result
        (λ x. Gives (read (some_count (expression 0)) ahead.old.tokens.now) x ahead.new.tokens.now)
        (λ fault. Stops end (read (some_count (expression 0)) ahead.old.tokens.now) fault) }
{
    let word = name(ahead, end)?;
    let condition = placed(alloc, ahead, end)?;
    Ok(DraftCount { word, condition })
}

// Whether a transition is tested at once, and what it waits for.
fn pause(
    alloc: Global,
    ahead: &mut Ahead,
    end: usize,
) -> Result<(bool, Option<DraftDelay>), ReadFault>
    ensures { MatchResult result
        (λ x. Gives (read (pause (expression 0)) ahead.old.tokens.now) x ahead.new.tokens.now)
        (λ fault. Stops end (read (pause (expression 0)) ahead.old.tokens.now) fault) }
{
    if word_follows(ahead.tokens, Word::Immediate) {
        ahead.tokens = behind(ahead.tokens);
        return Ok((true, None));
    }
    if !name_follows(ahead.tokens) {
        return Ok((false, None));
    }
    let delay = some_delay(alloc, ahead, end)?;
    Ok((false, Some(delay)))
}

// The trigger of a transition, what it does, and where it leads.
#[tactic(auto, using(chart_reader::proofs::Parts::seq_stops_first, chart_reader::proofs::Parts::seq_stops_second, chart_reader::proofs::Parts::seq_gives))]
fn triggered(
    alloc: Global,
    ahead: &mut Ahead,
    end: usize,
) -> Result<(Option<TextExpression>, (Items<DraftEffect>, DraftLead)), ReadFault>
    ensures { MatchResult result
        (λ x. Gives (read (seq (trigger (expression 0)) (outcome (expression 0))) ahead.old.tokens.now) x
        ahead.new.tokens.now)
        (λ fault. Stops end (read (seq (trigger (expression 0)) (outcome (expression 0))) ahead.old.tokens.now) fault) }
{
    let trigger = trigger(alloc, ahead, end)?;
    match outcome(alloc, ahead, end) {
        Ok(does) => Ok((trigger, does)),
        Err(fault) => {
            drop(trigger);
            Err(fault)
        }
    }
}

#[tactic(auto, using(crate::proofs::Pieces::tested_made, chart_reader::proofs::Parts::made_stops, chart_reader::proofs::Parts::seq_stops_first, chart_reader::proofs::Parts::seq_stops_second), unfolding(crate::specs::ExtendedText::tested))]
fn tested(
    alloc: Global,
    ahead: &mut Ahead,
    end: usize,
) -> Result<(DraftTransition, DraftWay), ReadFault>
    ensures { MatchResult result
        (λ x. Gives (read (tested (expression 0)) ahead.old.tokens.now) x ahead.new.tokens.now)
        (λ fault. Stops end (read (tested (expression 0)) ahead.old.tokens.now) fault) }
{
    let (kind, at) = tested_word(ahead, end)?;
    let (immediate, delay) = pause(alloc, ahead, end)?;
    match triggered(alloc, ahead, end) {
        Ok((trigger, does)) => {
            let (effects, lead) = does;
            let transition = DraftTransition {
                kind,
                at,
                immediate,
                trigger,
                effects,
                target: lead.target,
            };
            let way = DraftWay {
                delay,
                history: lead.history,
            };
            Ok((transition, way))
        }
        Err(fault) => {
            drop(delay);
            Err(fault)
        }
    }
}

// The trigger of a termination, for which it waits.
fn hold_of(trigger: Option<TextExpression>) -> Option<DraftDelay>
    ensures { result ≡ option_map hold_of trigger }
{
    match trigger {
        Some(until) => Some(DraftDelay {
            word: None,
            until,
            count: None,
        }),
        None => None,
    }
}

#[tactic(auto, using(crate::proofs::Pieces::termination_made, chart_reader::proofs::Parts::made_stops, chart_reader::proofs::Parts::seq_stops_first, chart_reader::proofs::Parts::seq_stops_second), unfolding(crate::specs::ExtendedText::termination))]
fn termination(
    alloc: Global,
    ahead: &mut Ahead,
    end: usize,
) -> Result<(DraftTransition, DraftWay), ReadFault>
    ensures { MatchResult result
        (λ x. Gives (read (termination (expression 0)) ahead.old.tokens.now) x ahead.new.tokens.now)
        (λ fault. Stops end (read (termination (expression 0)) ahead.old.tokens.now) fault) }
{
    let (kind, at) = join_word(ahead, end)?;
    let (trigger, does) = triggered(alloc, ahead, end)?;
    let (effects, lead) = does;
    let delay = hold_of(trigger);
    let ends = DraftTransition {
        kind,
        at,
        immediate: false,
        trigger: None,
        effects,
        target: lead.target,
    };
    let way = DraftWay {
        delay,
        history: lead.history,
    };
    Ok((ends, way))
}

fn transition(
    alloc: Global,
    ahead: &mut Ahead,
    end: usize,
) -> Result<(DraftTransition, DraftWay), ReadFault>
    ensures { MatchResult result
        (λ x. Gives (read (transition (expression 0)) ahead.old.tokens.now) x ahead.new.tokens.now)
        (λ fault. Stops end (read (transition (expression 0)) ahead.old.tokens.now) fault) }
{
    if word_follows(ahead.tokens, Word::Join) {
        return termination(alloc, ahead, end);
    }
    tested(alloc, ahead, end)
}

fn transitions(
    alloc: Global,
    ahead: &mut Ahead,
    end: usize,
    found: &mut Items<DraftTransition>,
    ways: &mut Items<DraftWay>,
) -> Result<(), ReadFault>
    ensures { MatchResult result
        (λ _. Puts (read (transitions (expression 0)) ahead.old.tokens.now) put_ways
        (found.old, ways.old) (found.new, ways.new) ahead.new.tokens.now)
        (λ fault. Stops end (read (transitions (expression 0)) ahead.old.tokens.now) fault) }
{
    let most = ahead.tokens.len();
    for used in 0..most {
        if !transition_follows(ahead.tokens) {
            return Ok(());
        }
        put_transition(alloc, ahead, end, found, ways)?;
    }
    Ok(())
}

// Puts a transition, and what is new of it, behind others.
fn put_transition(
    alloc: Global,
    ahead: &mut Ahead,
    end: usize,
    found: &mut Items<DraftTransition>,
    ways: &mut Items<DraftWay>,
) -> Result<(), ReadFault>
    ensures { MatchResult result
        (λ _. Puts (read (transition (expression 0)) ahead.old.tokens.now) put_way
        (found.old, ways.old) (found.new, ways.new) ahead.new.tokens.now)
        (λ fault. Stops end (read (transition (expression 0)) ahead.old.tokens.now) fault) }
{
    let (next, way) = transition(alloc, ahead, end)?;
    put_both(next, way, found, ways)?;
    Ok(())
}

fn put_both(
    next: DraftTransition,
    way: DraftWay,
    found: &mut Items<DraftTransition>,
    ways: &mut Items<DraftWay>,
) -> Result<(), AllocError>
    ensures next { OnOk result (found.new ≡ found.old ++ next ∷ []) }
    ensures way { OnOk result (ways.new ≡ ways.old ++ way ∷ []) }
{
    match found.push(next) {
        Ok(()) => ways.push(way),
        Err(error) => {
            drop(way);
            Err(error)
        }
    }
}

/// Puts the transitions of a state with what is new of them behind others, up to the brace that closes it.
#[tactic(auto, using(chart_reader::proofs::Parts::before_stops_first), unfolding(crate::specs::ExtendedText::leaving))]
pub(crate) fn leaving(
    alloc: Global,
    ahead: &mut Ahead,
    end: usize,
    found: &mut Items<DraftTransition>,
    ways: &mut Items<DraftWay>,
) -> Result<(), ReadFault>
    ensures { MatchResult result
        (λ _. Puts (read (leaving (expression 0)) ahead.old.tokens.now) put_ways
        (found.old, ways.old) (found.new, ways.new) ahead.new.tokens.now)
        (λ fault. Stops end (read (leaving (expression 0)) ahead.old.tokens.now) fault) }
{
    transitions(alloc, ahead, end, found, ways)?;
    skip_sign(ahead, end, Sign::CloseBrace)
}
