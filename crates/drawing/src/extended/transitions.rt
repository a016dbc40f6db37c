//! The arrows of the transitions of an extended chart.

ghost use Rattle.std.specs.Prelude.{◌≡◌, IfOk, string_bytes};
ghost use Rattle.drawing.specs.Transitions.{entering_text, place_of, transition_text};

use crate::extended::triggers::asked_text;
use crate::{Arrow, Symbol, words_text};
use core_charts::Transition;
use sc_graph::VariableId;
use sqlite_items::Items;
use std::alloc::{AllocError, Global};

// How the target with this number is entered, in a region of so many states.
fn entering_text(states: u32, target: u32) -> &'static str
    ensures { result.now ≡ entering_text states target }
{
    if target < states {
        ""
    } else {
        "  \\l     -> shallow history"
    }
}

// The place of the target with this number.
fn place_of(states: u32, target: u32) -> u32
    ensures { result ≡ place_of states target }
{
    if target < states {
        target
    } else {
        target - states
    }
}

/// What the words of transitions depend on: what numbers name, which of them are signals, and how many counts there
/// are.
#[derive(Clone, Copy)]
pub(crate) struct Words<'a> {
    pub(crate) symbols: &'a [Symbol],
    pub(crate) signals: &'a [VariableId],
    pub(crate) counts: usize,
}

// The transition with this number among those of its state, in a region of so many states.
fn transition_text(
    alloc: Global,
    words: &Words<'_>,
    states: u32,
    number: u32,
    transition: &Transition,
) -> Result<String, AllocError>
    ensures { IfOk result (λ text. string_bytes text ≡ transition_text words.now.symbols.now
        words.now.signals.now words.now.counts states number transition.now) }
{
    let (symbols, signals) = (words.symbols, words.signals);
    let asked = asked_text(alloc, symbols, words.counts, &transition.trigger)?;
    let entering = entering_text(states, transition.target);
    words_text(
        alloc,
        symbols,
        signals,
        number,
        transition,
        asked.as_str(),
        entering,
    )
}

/// The arrows of these transitions of a state, in a region of so many states. Err: memory was refused.
pub(crate) fn arrows(
    alloc: Global,
    words: &Words<'_>,
    states: u32,
    transitions: &[Transition],
) -> Result<Items<Arrow>, AllocError> {
    let mut arrows = Items::new(alloc);
    let mut number: u32 = 1;
    for transition in transitions {
        arrows.push(Arrow {
            kind: transition.kind,
            immediate: transition.immediate,
            target: place_of(states, transition.target),
            words: transition_text(alloc, words, states, number, transition)?,
        })?;
        number = number.saturating_add(1);
    }
    Ok(arrows)
}
