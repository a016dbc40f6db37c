//! The actions of a state, with their names looked up.

ghost use Rattle.std.specs.Prelude.{◌≡◌, ◌≤◌, [], ◌∷◌, ◌++◌, OnOk, length};
ghost use Rattle.sc_graph.specs.Limits.{variable_limit};
ghost use Rattle.sc_text.specs.Flaws.{variable_names};
ghost use Rattle.extended_reader.specs.Inside.{fill_actions};
ghost use Rattle.extended_reader.specs.Resolved.{actions_of, during_of, durings_of};

use crate::text_drafts::DraftEntry;
use chart_reader::{effects, put_effects, trigger};
use core_charts::Effect;
use extended_charts::{During, ExtendedState};
use sc_text::Scope;
use sqlite_items::Items;
use std::alloc::{AllocError, Global};

/// Puts the actions of a state, over these variables, behind others. Err: memory was refused.
pub(crate) fn put_actions(
    alloc: Global,
    scope: &Scope,
    entries: &[DraftEntry],
    state: &mut ExtendedState,
) -> Result<(), AllocError>
    requires { length scope.now.variables.now ≤ variable_limit }
    ensures { OnOk result (state.new ≡
        fill_actions (variable_names scope.now.variables.now) entries.now state.old) }
{
    put_word_actions(alloc, "entry", scope, entries, &mut state.entry)?;
    put_word_actions(alloc, "exit", scope, entries, &mut state.exit)?;
    put_durings(alloc, scope, entries, &mut state.during)
}

// Puts the effects behind this word behind others.
fn put_word_actions(
    alloc: Global,
    word: &str,
    scope: &Scope,
    entries: &[DraftEntry],
    made: &mut Items<Effect>,
) -> Result<(), AllocError>
    requires { length scope.now.variables.now ≤ variable_limit }
    ensures { OnOk result (made.new ≡ made.old ++
        actions_of word.now (variable_names scope.now.variables.now) entries.now) }
{
    for entry in entries {
        if entry.word.name.as_str() == word {
            put_effects(alloc, scope, entry.effects.as_slice(), made)?;
        }
    }
    Ok(())
}

// Puts those that are made while the state goes on behind others.
fn put_durings(
    alloc: Global,
    scope: &Scope,
    entries: &[DraftEntry],
    made: &mut Items<During>,
) -> Result<(), AllocError>
    requires { length scope.now.variables.now ≤ variable_limit }
    ensures { OnOk result (made.new ≡ made.old ++
        durings_of (variable_names scope.now.variables.now) entries.now) }
{
    for entry in entries {
        if entry.word.name.as_str() == "during" {
            put_during(alloc, scope, entry, made)?;
        }
    }
    Ok(())
}

fn put_during(
    alloc: Global,
    scope: &Scope,
    entry: &DraftEntry,
    made: &mut Items<During>,
) -> Result<(), AllocError>
    requires { length scope.now.variables.now ≤ variable_limit }
    ensures { OnOk result (made.new ≡ made.old ++
        during_of (variable_names scope.now.variables.now) entry.now ∷ []) }
{
    let trigger = trigger(alloc, scope, &entry.trigger)?;
    match effects(alloc, scope, entry.effects.as_slice()) {
        Ok(effects) => made.push(During {
            immediate: entry.immediate,
            trigger,
            effects,
        }),
        Err(error) => {
            drop(trigger);
            Err(error)
        }
    }
}
