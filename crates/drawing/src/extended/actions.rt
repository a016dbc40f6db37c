//! The label of a state: its name, and its actions.

ghost use Rattle.std.specs.Prelude.{◌≡◌, IfOk, string_bytes};
ghost use Rattle.drawing.specs.Actions.{action_text, actions_text, during_words, durings_text};
ghost use Rattle.drawing.specs.Actions.{label_text, when_text};

use crate::{Symbol, effect_text, further_text, trigger_text};
use core_charts::Effect;
use extended_charts::During;
use sc_graph::VariableId;
use sc_values::Name;
use std::alloc::{AllocError, Global};

// These effects behind these words, in lines.
fn action_text(
    alloc: Global,
    symbols: &[Symbol],
    signals: &[VariableId],
    words: &str,
    effects: &[Effect],
) -> Result<String, AllocError>
    ensures { IfOk result (λ text. string_bytes text
        ≡ action_text symbols.now signals.now words.now effects.now) }
{
    match effects {
        [] => Ok(String::new(alloc)),
        [first, rest @ ..] => {
            let one = effect_text(alloc, symbols, signals, first)?;
            let others = further_text(alloc, symbols, signals, rest)?;
            format!(in alloc; "{words} do {one}{others}\\l")
        }
    }
}

fn when_text(immediate: bool) -> &'static str
    ensures { result.now ≡ when_text immediate }
{
    if immediate {
        "immediate during"
    } else {
        "during"
    }
}

// What stands before the effects of a during action.
fn during_words(alloc: Global, symbols: &[Symbol], during: &During) -> Result<String, AllocError>
    ensures { IfOk result (λ text. string_bytes text ≡ during_words symbols.now during.now) }
{
    let when = when_text(during.immediate);
    let asked = trigger_text(alloc, symbols, &during.trigger)?;
    format!(in alloc; "{when}{asked}")
}

fn during_text(
    alloc: Global,
    symbols: &[Symbol],
    signals: &[VariableId],
    during: &During,
) -> Result<String, AllocError>
    ensures { IfOk result (λ text. string_bytes text
        ≡ action_text symbols.now signals.now (during_words symbols.now during.now) during.now.effects) }
{
    let words = during_words(alloc, symbols, during)?;
    action_text(
        alloc,
        symbols,
        signals,
        words.as_str(),
        during.effects.as_slice(),
    )
}

fn durings_text(
    alloc: Global,
    symbols: &[Symbol],
    signals: &[VariableId],
    durings: &[During],
) -> Result<String, AllocError>
    ensures { IfOk result (λ text. string_bytes text ≡ durings_text symbols.now signals.now durings.now) }
{
    let mut text = String::new(alloc);
    for during in durings {
        let one = during_text(alloc, symbols, signals, during)?;
        text.push_str(one.as_str())?;
    }
    Ok(text)
}

/// The lines of the actions of a state. Err: memory was refused.
pub(crate) fn actions_text(
    alloc: Global,
    symbols: &[Symbol],
    signals: &[VariableId],
    entry: &[Effect],
    exit: &[Effect],
    durings: &[During],
) -> Result<String, AllocError>
    ensures { IfOk result (λ text. string_bytes text
        ≡ actions_text symbols.now signals.now entry.now exit.now durings.now) }
{
    let entry = action_text(alloc, symbols, signals, "entry", entry)?;
    let during = durings_text(alloc, symbols, signals, durings)?;
    let exit = action_text(alloc, symbols, signals, "exit", exit)?;
    format!(in alloc; "{entry}{during}{exit}")
}

/// The label of a state of this name, whose actions have these lines. Err: memory was refused.
pub(crate) fn label_text(alloc: Global, name: Name, actions: &str) -> Result<String, AllocError>
    ensures { IfOk result (λ text. string_bytes text ≡ label_text name actions.now) }
{
    if actions.is_empty() {
        format!(in alloc; "{name}")
    } else {
        format!(in alloc; "{name}\\n{actions}")
    }
}
