//! What is wrong with actions, and with what is new of transitions.

ghost use Rattle.std.specs.Prelude.{◌≡◌, OnOk, map};
ghost use Rattle.sc_text.specs.Told.{told_behind};
ghost use Rattle.chart_reader.specs.Flaws.{trigger_flaws};
ghost use Rattle.extended_reader.specs.Flaws.{joined, is_action_word, action_word_flaws, during_flaws, made_flaws};
ghost use Rattle.extended_reader.specs.Flaws.{entry_flaws, entries_flaws, until_flaws, count_flaws, delay_flaws};
ghost use Rattle.extended_reader.specs.Flaws.{way_flaws, all_way_flaws};

use crate::text_drafts::draft::{DraftCount, DraftDelay, DraftEntry, DraftWay, StateActions};
use crate::text_drafts::emission_flaws::emissions_flaws;
use crate::text_drafts::history_flaws::{history_flaws, words_flaws};
use crate::text_drafts::item_flaws::word_flaws;
use chart_reader::{DraftRegion, effect_flaws};
use sc_text::{FaultKind, Flaw, Named, Scope, TextExpression, note_told};
use sc_values::Kind;
use sqlite_items::Items;
use std::alloc::{AllocError, Global};

/// Tells the flaws of the actions of states, over these variables and signals. Err: memory was refused.
pub(crate) fn all_entries_flaws(
    alloc: Global,
    scope: &Scope,
    signals: &Scope,
    rows: &[StateActions],
    found: &mut Items<Flaw>,
) -> Result<(), AllocError>
    ensures { OnOk result (found.new ≡ told_behind found.old
        (joined (map (entries_flaws scope.now.variables.now signals.now.variables.now) rows.now))) }
{
    for row in rows {
        entries_flaws(alloc, scope, signals, row, found)?;
    }
    Ok(())
}

// The flaws of the actions of one state.
fn entries_flaws(
    alloc: Global,
    scope: &Scope,
    signals: &Scope,
    actions: &StateActions,
    found: &mut Items<Flaw>,
) -> Result<(), AllocError>
    ensures { OnOk result (found.new ≡ told_behind found.old
        (entries_flaws scope.now.variables.now signals.now.variables.now actions.now)) }
{
    all_flaws(
        alloc,
        scope,
        signals,
        actions.may_last,
        actions.entries.as_slice(),
        found,
    )
}

fn all_flaws(
    alloc: Global,
    scope: &Scope,
    signals: &Scope,
    may_last: bool,
    entries: &[DraftEntry],
    found: &mut Items<Flaw>,
) -> Result<(), AllocError>
    ensures { OnOk result (found.new ≡ told_behind found.old
        (joined (map (entry_flaws scope.now.variables.now signals.now.variables.now may_last) entries.now))) }
{
    for entry in entries {
        entry_flaws(alloc, scope, signals, may_last, entry, found)?;
    }
    Ok(())
}

fn is_action_word(is_bare: bool, word: &str) -> bool
    ensures { result ≡ is_action_word is_bare word.now }
{
    word == "during" || (is_bare && (word == "entry" || word == "exit"))
}

fn action_word_flaws(
    alloc: Global,
    entry: &DraftEntry,
    found: &mut Items<Flaw>,
) -> Result<(), AllocError>
    ensures { OnOk result (found.new ≡ told_behind found.old (action_word_flaws entry.now)) }
{
    let is_bare = !(entry.immediate || entry.trigger.is_some());
    let is_known = is_action_word(is_bare, entry.word.name.as_str());
    note_told(alloc, found, !is_known, FaultKind::Grammar, entry.word.at)
}

// Nothing is made while a state goes on that may not.
fn during_flaws(
    alloc: Global,
    may_last: bool,
    word: Named,
    found: &mut Items<Flaw>,
) -> Result<(), AllocError>
    ensures { OnOk result (found.new ≡ told_behind found.old (during_flaws may_last word)) }
{
    let is_wrong = !may_last && word.name.as_str() == "during";
    note_told(alloc, found, is_wrong, FaultKind::Rule, word.at)
}

fn trigger_flaws(
    alloc: Global,
    scope: &Scope,
    trigger: &Option<TextExpression>,
    found: &mut Items<Flaw>,
) -> Result<(), AllocError>
    ensures { OnOk result (found.new ≡ told_behind found.old
        (trigger_flaws scope.now.variables.now trigger.now)) }
{
    match trigger {
        Some(trigger) => scope.tell_expression(alloc, Some(Kind::Bool), trigger, found),
        None => Ok(()),
    }
}

// The flaws of what is made, and of when.
#[tactic(auto, using(sc_text::proofs::ToldInOrder::told_both))]
fn made_flaws(
    alloc: Global,
    scope: &Scope,
    signals: &Scope,
    entry: &DraftEntry,
    found: &mut Items<Flaw>,
) -> Result<(), AllocError>
    ensures { OnOk result (found.new ≡ told_behind found.old
        (made_flaws scope.now.variables.now signals.now.variables.now entry.now)) }
{
    trigger_flaws(alloc, scope, &entry.trigger, found)?;
    effect_flaws(alloc, scope, entry.effects.as_slice(), found)?;
    emissions_flaws(alloc, signals, entry.effects.as_slice(), found)
}

#[tactic(auto, using(sc_text::proofs::ToldInOrder::told_both))]
fn entry_flaws(
    alloc: Global,
    scope: &Scope,
    signals: &Scope,
    may_last: bool,
    entry: &DraftEntry,
    found: &mut Items<Flaw>,
) -> Result<(), AllocError>
    ensures { OnOk result (found.new ≡ told_behind found.old
        (entry_flaws scope.now.variables.now signals.now.variables.now may_last entry.now)) }
{
    action_word_flaws(alloc, entry, found)?;
    during_flaws(alloc, may_last, entry.word, found)?;
    made_flaws(alloc, scope, signals, entry, found)
}

/// Tells the flaws of what is new of the transitions of these regions. Err: memory was refused.
#[tactic(auto, using(sc_text::proofs::ToldInOrder::told_both))]
pub(crate) fn all_way_flaws(
    alloc: Global,
    scope: &Scope,
    regions: &[DraftRegion],
    ways: &[DraftWay],
    found: &mut Items<Flaw>,
) -> Result<(), AllocError>
    ensures { OnOk result (found.new ≡ told_behind found.old
        (all_way_flaws scope.now.variables.now regions.now ways.now)) }
{
    each_way_flaws(alloc, scope, ways, found)?;
    history_flaws(alloc, regions, ways, found)
}

fn each_way_flaws(
    alloc: Global,
    scope: &Scope,
    ways: &[DraftWay],
    found: &mut Items<Flaw>,
) -> Result<(), AllocError>
    ensures { OnOk result (found.new ≡ told_behind found.old
        (joined (map (way_flaws scope.now.variables.now) ways.now))) }
{
    for way in ways {
        way_flaws(alloc, scope, way, found)?;
    }
    Ok(())
}

// The flaws of what is new of one transition.
#[tactic(auto, using(sc_text::proofs::ToldInOrder::told_both))]
fn way_flaws(
    alloc: Global,
    scope: &Scope,
    way: &DraftWay,
    found: &mut Items<Flaw>,
) -> Result<(), AllocError>
    ensures { OnOk result (found.new ≡ told_behind found.old
        (way_flaws scope.now.variables.now way.now)) }
{
    delay_flaws(alloc, scope, &way.delay, found)?;
    words_flaws(alloc, way.history, found)
}

#[tactic(auto, using(sc_text::proofs::ToldInOrder::told_both))]
fn delay_flaws(
    alloc: Global,
    scope: &Scope,
    delay: &Option<DraftDelay>,
    found: &mut Items<Flaw>,
) -> Result<(), AllocError>
    ensures { OnOk result (found.new ≡ told_behind found.old
        (delay_flaws scope.now.variables.now delay.now)) }
{
    match delay {
        Some(delay) => {
            until_flaws(alloc, scope, delay.word, &delay.until, found)?;
            count_flaws(alloc, scope, &delay.count, found)
        }
        None => Ok(()),
    }
}

// The flaws of a condition of which ticks are counted.
#[tactic(auto, using(sc_text::proofs::ToldInOrder::told_both))]
fn count_flaws(
    alloc: Global,
    scope: &Scope,
    count: &Option<DraftCount>,
    found: &mut Items<Flaw>,
) -> Result<(), AllocError>
    ensures { OnOk result (found.new ≡ told_behind found.old
        (count_flaws scope.now.variables.now count.now)) }
{
    match count {
        Some(count) => {
            word_flaws(alloc, "of", count.word, found)?;
            scope.tell_expression(alloc, Some(Kind::Bool), &count.condition, found)
        }
        None => Ok(()),
    }
}

// The flaws of ticks behind a word, or of a trigger behind none.
#[tactic(auto, using(sc_text::proofs::ToldInOrder::told_both))]
fn until_flaws(
    alloc: Global,
    scope: &Scope,
    word: Option<Named>,
    until: &TextExpression,
    found: &mut Items<Flaw>,
) -> Result<(), AllocError>
    ensures { OnOk result (found.new ≡ told_behind found.old
        (until_flaws scope.now.variables.now word until.now)) }
{
    match word {
        Some(word) => {
            word_flaws(alloc, "after", word, found)?;
            scope.tell_expression(alloc, Some(Kind::Int), until, found)
        }
        None => scope.tell_expression(alloc, Some(Kind::Bool), until, found),
    }
}
