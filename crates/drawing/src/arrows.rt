//! The arrows of the transitions of a state. The words of a transition are a node between its state and its target, so
//! that they have room of their own, and nothing is drawn over them. Delayed transitions of a simple state to itself
//! share one arrow, beside which the words of each stand.

ghost use Rattle.std.specs.Prelude.{◌≡◌};
ghost use Rattle.drawing.specs.Labels.{head_text, line_text, tail_text};

use crate::drawn::{Arrow, DrawnState};
use crate::sheet::Sheet;
use core_charts::TransitionKind;
use sqlite_items::at;

// How the arrow to the words of a transition is drawn.
fn tail_text(kind: TransitionKind) -> &'static str
    ensures { result.now ≡ tail_text kind }
{
    match kind {
        TransitionKind::Go => "dir=\"none\"",
        TransitionKind::Strong => "dir=\"back\", arrowtail=\"dot\", color=\"red3\"",
        TransitionKind::Weak => "dir=\"back\", arrowtail=\"odot\", color=\"orange3\"",
        TransitionKind::Join => "dir=\"back\", arrowtail=\"invempty\", color=\"green4\"",
    }
}

// How the arrow from the words of a transition is drawn.
fn head_text(kind: TransitionKind) -> &'static str
    ensures { result.now ≡ head_text kind }
{
    match kind {
        TransitionKind::Go => "color=\"black\"",
        TransitionKind::Strong => "color=\"red3\"",
        TransitionKind::Weak => "color=\"orange3\"",
        TransitionKind::Join => "color=\"green4\"",
    }
}

// How the lines of both are drawn.
fn line_text(immediate: bool) -> &'static str
    ensures { result.now ≡ line_text immediate }
{
    if immediate { ", style=\"dashed\"" } else { "" }
}

// A transition of a state of a region: the numbers of the state and of the transition.
#[derive(Clone, Copy)]
struct Origin {
    state: u32,
    number: u32,
}

// Puts the name of the node of the words of a transition.
fn put_name(sheet: &mut Sheet, origin: Origin) {
    sheet.put_inner(origin.state);
    sheet.put(" ");
    sheet.text.put_number(origin.number);
}

// Says where an arrow is cut that ends or begins at the state of this number: at the border of a superstate.
fn put_cut(sheet: &mut Sheet, states: &[DrawnState], end: &str, number: u32) {
    match at(states, number as usize) {
        Some(state) if state.is_superstate() => {
            sheet.put(end);
            sheet.put_inner(number);
            sheet.put("\"");
        }
        _ => {}
    }
}

// Puts a piece where an arrow leads to the state of this number. Arrows to words from there and back stand apart so.
fn put_side(sheet: &mut Sheet, arrow: &Arrow, from: u32, side: &str) {
    if arrow.target == from {
        sheet.put(side);
    }
}

// Puts the node of the words of a transition.
fn put_words(sheet: &mut Sheet, origin: Origin, words: &str) {
    sheet.put("\"");
    put_name(sheet, origin);
    sheet.put("\" [shape=\"plaintext\", fontsize=10, margin=0, height=0, label=\"");
    sheet.put(words);
    sheet.put("\"];\n");
}

// Puts the arrow from a state to the words of a transition.
fn put_tail(sheet: &mut Sheet, states: &[DrawnState], origin: Origin, arrow: &Arrow) {
    sheet.put("\"");
    sheet.put_inner(origin.state);
    sheet.put("\" -> \"");
    put_name(sheet, origin);
    sheet.put("\" [");
    sheet.put(tail_text(arrow.kind));
    sheet.put(line_text(arrow.immediate));
    put_cut(sheet, states, ", ltail=\"cluster_", origin.state);
    put_side(sheet, arrow, origin.state, ", headport=\"w\"");
    sheet.put("];\n");
}

// Puts the arrow from the words of a transition to its target.
fn put_head(sheet: &mut Sheet, states: &[DrawnState], origin: Origin, arrow: &Arrow) {
    sheet.put("\"");
    put_name(sheet, origin);
    sheet.put("\" -> \"");
    sheet.put_inner(arrow.target);
    sheet.put("\" [");
    sheet.put(head_text(arrow.kind));
    sheet.put(line_text(arrow.immediate));
    put_cut(sheet, states, ", lhead=\"cluster_", arrow.target);
    put_side(sheet, arrow, origin.state, ", tailport=\"e\"");
    sheet.put("];\n");
}

// Whether a transition of the state of this number shares an arrow.
fn is_shared(state: &DrawnState, from: u32, arrow: &Arrow) -> bool {
    arrow.target == from && !arrow.immediate && !state.is_superstate()
}

// Puts the words of the transitions of a state, and the arrows to them and from them, but for those that share one.
fn put_unshared(sheet: &mut Sheet, states: &[DrawnState], from: u32, state: &DrawnState) {
    let mut number: u32 = 1;
    for arrow in state.arrows.as_slice() {
        if !is_shared(state, from, arrow) {
            let origin = Origin {
                state: from,
                number,
            };
            put_words(sheet, origin, arrow.words.as_str());
            put_tail(sheet, states, origin, arrow);
            put_head(sheet, states, origin, arrow);
        }
        number = number.saturating_add(1);
    }
}

// Puts what begins the arrow that transitions of the state of this number share.
fn put_shared_opening(sheet: &mut Sheet, from: u32) {
    sheet.put("\"");
    sheet.put_inner(from);
    sheet.put("\" -> \"");
    sheet.put_inner(from);
    sheet.put("\" [label=\"");
}

// Puts the arrow that transitions of a state share, where they have words.
fn put_shared(sheet: &mut Sheet, from: u32, state: &DrawnState) {
    let mut is_open = false;
    for arrow in state.arrows.as_slice() {
        if is_shared(state, from, arrow) && !arrow.words.is_empty() {
            if !is_open {
                put_shared_opening(sheet, from);
                is_open = true;
            }
            sheet.put(arrow.words.as_str());
        }
    }
    if is_open {
        sheet.put("\"];\n");
    }
}

/// Puts the arrows of the transitions of all states of a region.
pub(crate) fn put_transitions(sheet: &mut Sheet, states: &[DrawnState]) {
    let mut from: u32 = 0;
    for state in states {
        put_unshared(sheet, states, from, state);
        put_shared(sheet, from, state);
        from = from.saturating_add(1);
    }
}
