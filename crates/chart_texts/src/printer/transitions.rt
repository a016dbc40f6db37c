//! The texts of transitions.

ghost use Rattle.std.specs.Prelude.{◌≡◌, ◌++◌, IfOk, slice_get, string_bytes};
ghost use Rattle.chart_texts.specs.Layout.{effect_text, effects_text, further_text, named};
ghost use Rattle.chart_texts.specs.Layout.{transition_text, transitions_text, trigger_text};

use crate::printer::lines::put_line;
use crate::printer::words::{immediate_text, word_of};
use core_charts::{Effect, Transition};
use sc_graph::Variable;
use sc_values::{Expr, Name};
use scl_printer::{text_of, variable_text};
use sqlite_items::at;
use std::alloc::{AllocError, Global};

/// The condition of a transition with the word before it; nothing where there is none. Err: memory was refused.
pub fn trigger_text(
    alloc: Global,
    variables: &[Variable],
    trigger: &Option<Expr>,
) -> Result<String, AllocError>
    ensures { IfOk result (λ text. string_bytes text ≡ trigger_text variables.now trigger.now) }
{
    match trigger {
        Some(trigger) => {
            let test = text_of(alloc, variables, trigger)?;
            format!(in alloc; " if {test}")
        }
        None => Ok(String::new(alloc)),
    }
}

/// An effect: the name of its variable, and the expression whose value that gets. Err: memory was refused.
#[tactic(auto, unfolding(crate::specs::Layout::effect_text))]
pub fn effect_text(
    alloc: Global,
    variables: &[Variable],
    effect: &Effect,
) -> Result<String, AllocError>
    ensures { IfOk result (λ text. string_bytes text ≡ effect_text variables.now effect.now) }
{
    let name = variable_text(variables, effect.variable);
    let value = text_of(alloc, variables, &effect.value)?;
    format!(in alloc; "{name} = {value}")
}

// The effects behind the first.
fn further_text(
    alloc: Global,
    variables: &[Variable],
    effects: &[Effect],
) -> Result<String, AllocError>
    ensures { IfOk result (λ text. string_bytes text ≡ further_text variables.now effects.now) }
{
    let mut text = String::new(alloc);
    for effect in effects {
        let one = effect_text(alloc, variables, effect)?;
        text.push_str(", ")?;
        text.push_str(one.as_str())?;
    }
    Ok(text)
}

// All effects, where there are some.
fn effects_text(
    alloc: Global,
    variables: &[Variable],
    effects: &[Effect],
) -> Result<String, AllocError>
    ensures { IfOk result (λ text. string_bytes text ≡ effects_text variables.now effects.now) }
{
    match effects {
        [] => Ok(String::new(alloc)),
        [first, rest @ ..] => {
            let one = effect_text(alloc, variables, first)?;
            let others = further_text(alloc, variables, rest)?;
            format!(in alloc; " do {one}{others}")
        }
    }
}

// The name at this place.
fn target_text(alloc: Global, states: &[Name], target: u32) -> Result<String, AllocError>
    ensures { IfOk result (λ text. string_bytes text ≡ named (slice_get states.now target)) }
{
    match at(states, target as usize) {
        Some(name) => format!(in alloc; "{name}"),
        None => Ok(String::new(alloc)),
    }
}

// A transition of a state of a region, whose states have these names.
fn transition_text(
    alloc: Global,
    variables: &[Variable],
    states: &[Name],
    transition: &Transition,
) -> Result<String, AllocError>
    ensures { IfOk result (λ text. string_bytes text ≡ transition_text variables.now states.now transition.now) }
{
    let word = word_of(transition.kind);
    let immediate = immediate_text(transition.immediate);
    let trigger = trigger_text(alloc, variables, &transition.trigger)?;
    let effects = effects_text(alloc, variables, transition.effects.as_slice())?;
    let target = target_text(alloc, states, transition.target)?;
    format!(in alloc; "{word}{immediate}{trigger}{effects} -> {target};")
}

/// Puts the lines of the transitions of a state of a region, whose states have these names, behind a text. Err: memory
/// was refused.
pub(crate) fn put_transitions(
    alloc: Global,
    text: &mut String,
    variables: &[Variable],
    states: &[Name],
    own: &[Transition],
    margin: &str,
) -> Result<(), AllocError>
    ensures { IfOk result (λ _. string_bytes text.new
        ≡ string_bytes text.old ++ transitions_text variables.now states.now own.now margin.now) }
{
    for transition in own {
        let line = transition_text(alloc, variables, states, transition)?;
        put_line(text, line.as_str(), margin)?;
    }
    Ok(())
}
