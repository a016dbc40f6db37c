//! The text of regions, and of states with what is inside them.

ghost use Rattle.std.specs.Prelude.{◌≡◌, ◌+◌, ◌<◌, ◌^◌, IfOk, map};
ghost use Rattle.chart_lowering.specs.Lowering.{labels_in, labels_in_initial, labels_in_states, label_name, branches};
ghost use Rattle.chart_lowering.specs.Lowering.{is_wanted, numbers, targets, texts, body_from, piece_of_region};
ghost use Rattle.chart_lowering.specs.Lowering.{piece_of_state};

use crate::counting::{labels_in_initial, state_labels};
use crate::labels::{label, label_name, past};
use crate::states::{final_state, simple_state, superstate};
use crate::targets::Targets;
use core_charts::{Region, State};
use scl::Statement;
use sqlite_items::Items;
use std::alloc::{AllocError, Global};

/// The body of a region, and the number behind those of its labels.
#[derive(Drop)]
pub(crate) struct Body {
    statements: Items<Statement>,
    next: u64,
}

/// The branches of a fork, and the number behind those of their labels.
#[derive(Drop)]
pub(crate) struct Branches {
    pub(crate) bodies: Items<Items<Statement>>,
    next: u64,
}

/// The numbers of the labels of a region's states, and of its end.
#[derive(Drop)]
struct Numbers {
    states: Items<u64>,
    end: u64,
}

/// The branches for these regions, whose labels have the numbers from this one on.
#[cycle(text)]
pub(crate) fn branches_of(
    alloc: Global,
    regions: &[Region],
    number: u64,
) -> Result<Branches, AllocError>
    ensures bodies { IfOk result (λ made. made.bodies ≡ branches (map piece_of_region regions.now) number) }
    ensures next { IfOk result (λ made. made.next ≡ number + labels_in (map piece_of_region regions.now)) }
    ensures within { IfOk result (λ made. made.next < 2 ^ 64) }
{
    let mut bodies = Items::new(alloc);
    let mut next = number;
    for region in regions {
        let body = body_of(alloc, region, next)?;
        bodies.push(body.statements)?;
        next = body.next;
    }
    Ok(Branches { bodies, next })
}

// The body of a region, whose labels have the numbers from this one on.
#[cycle(text)]
fn body_of(alloc: Global, region: &Region, number: u64) -> Result<Body, AllocError>
    ensures statements { IfOk result (λ made. made.statements ≡ (piece_of_region region.now).body number) }
    ensures next { IfOk result (λ made. made.next ≡ number + (piece_of_region region.now).labels) }
    ensures within { IfOk result (λ made. made.next < 2 ^ 64) }
{
    let states = region.states.as_slice();
    let numbers = numbers_of(alloc, states, number)?;
    let statements = statements_of(alloc, states, &numbers)?;
    let next = past(numbers.end, 1)?;
    Ok(Body { statements, next })
}

// The body of a region of these states, whose labels have these numbers.
#[cycle(text)]
fn statements_of(
    alloc: Global,
    states: &[State],
    numbers: &Numbers,
) -> Result<Items<Statement>, AllocError>
    ensures { IfOk result
        (λ text. text ≡ body_from (map piece_of_state states.now) numbers.now.states numbers.now.end) }
{
    let at = targets_of(alloc, numbers)?;
    let mut text = texts_of(alloc, true, &at, states, numbers.states.as_slice())?;
    let others = texts_of(alloc, false, &at, states, numbers.states.as_slice())?;
    text.append(others)?;
    text.push(label(numbers.end))?;
    Ok(text)
}

// The texts of the initial states, or of the others, whose labels have these numbers.
#[cycle(text)]
fn texts_of(
    alloc: Global,
    are_initial: bool,
    at: &Targets,
    states: &[State],
    numbers: &[u64],
) -> Result<Items<Statement>, AllocError>
    ensures { IfOk result (λ text. text ≡ texts are_initial at.now (map piece_of_state states.now) numbers.now) }
{
    let mut text = Items::new(alloc);
    for (place, state) in states.iter().enumerate() {
        let Some(number) = numbers.get(place) else {
            return Ok(text);
        };
        if is_wanted(are_initial, state.is_initial) {
            text.append(text_of(alloc, state, at, *number)?)?;
        }
    }
    Ok(text)
}

// The text of a state, whose labels have the numbers from this one on.
#[cycle(text)]
fn text_of(
    alloc: Global,
    state: &State,
    at: &Targets,
    number: u64,
) -> Result<Items<Statement>, AllocError>
    ensures { IfOk result (λ text. text ≡ (piece_of_state state.now).text at.now number) }
{
    let transitions = state.transitions.as_slice();
    if state.is_final {
        return final_state(alloc, at, number);
    }
    if !state.is_superstate() {
        return simple_state(alloc, at, transitions, number);
    }
    let inside = branches_of(alloc, state.regions.as_slice(), past(number, 1)?)?;
    superstate(alloc, at, transitions, number, inside.bodies, inside.next)
}

/// Whether a state is one of those that are wanted: the initial ones, or the others.
pub fn is_wanted(are_initial: bool, is_initial: bool) -> bool
    ensures { result ≡ is_wanted are_initial is_initial }
{
    if are_initial { is_initial } else { !is_initial }
}

// The numbers of the states' labels, where the initial one's are the first.
fn numbers_of(alloc: Global, states: &[State], first: u64) -> Result<Numbers, AllocError>
    ensures states { IfOk result (λ made. made.states ≡ numbers (map piece_of_state states.now) first
        (first + labels_in_initial (map piece_of_state states.now))) }
    ensures end { IfOk result (λ made. made.end ≡ first + labels_in_states (map piece_of_state states.now)) }
{
    let mut next = past(first, labels_in_initial(states)?)?;
    let mut end = first;
    let mut numbers = Items::new(alloc);
    for state in states {
        let labels = state_labels(state)?;
        end = past(end, labels)?;
        if state.is_initial {
            numbers.push(first)?;
        } else {
            numbers.push(next)?;
            next = past(next, labels)?;
        }
    }
    Ok(Numbers {
        states: numbers,
        end,
    })
}

// The labels of these numbers.
fn targets_of(alloc: Global, numbers: &Numbers) -> Result<Targets, AllocError>
    ensures { IfOk result (λ at. at ≡ targets numbers.now.states numbers.now.end) }
{
    let mut states = Items::new(alloc);
    for number in numbers.states.as_slice() {
        states.push(label_name(*number))?;
    }
    Ok(Targets {
        states,
        end: label_name(numbers.end),
    })
}
