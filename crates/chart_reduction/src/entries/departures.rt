//! The states behind a superstate, which make the exit actions of what was active in it.

ghost use Rattle.std.specs.Prelude.{◌≡◌, [], ◌∷◌, ◌++◌, suc, IfOk, OnOk, length, map};
ghost use Rattle.chart_reduction.specs.Exits.{integer, set, is_at, departure, departures, behind, way_out, ways_out};
ghost use Rattle.chart_reduction.specs.Exits.{led_out, left_by, left_transitions, left_behind};
ghost use Rattle.chart_reduction.specs.Inside.Entries.{led_to};

use crate::entries::leaving::Leaving;
use core_charts::{Effect, Transition, TransitionKind, copied_effects, copied_trigger, next};
use extended_charts::{
    ExtendedState, alone, always, has_some, made_state, put_copied_effects, sum,
};
use sc_graph::VariableId;
use sc_text::numbered;
use sc_values::{BinaryOperator, Expr, Value};
use sqlite_items::{Boxed, Items};
use std::alloc::{AllocError, Global};

/// Puts that the variable becomes this number. Err: no int has it, or memory was refused.
pub(crate) fn put_set(
    variable: VariableId,
    number: u32,
    made: &mut Items<Effect>,
) -> Result<(), AllocError>
    ensures { OnOk result (made.new ≡ made.old ++ set variable number ∷ []) }
{
    match integer(number) {
        Ok(value) => made.push(Effect { variable, value }),
        Err(error) => Err(error),
    }
}

fn integer(number: u32) -> Result<Expr, AllocError>
    ensures { IfOk result (λ made. made ≡ integer number) }
{
    match i32::try_from(number) {
        Ok(number) => Ok(Expr::Literal(Value::Int(number))),
        Err(_) => Err(AllocError),
    }
}

fn boxed_integer(alloc: Global, number: u32) -> Result<Boxed<Expr>, AllocError>
    ensures { IfOk result (λ made. made ≡ integer number) }
{
    Boxed::new(alloc, integer(number)?)
}

/// Whether the variable is this number. Err: memory was refused, or no int has it.
pub(crate) fn is_at(alloc: Global, variable: VariableId, number: u32) -> Result<Expr, AllocError>
    ensures { IfOk result (λ made. made ≡ is_at variable number) }
{
    let noted = Boxed::new(alloc, Expr::Load(variable))?;
    match boxed_integer(alloc, number) {
        Ok(number) => Ok(Expr::Binary(BinaryOperator::Equal, noted, number)),
        Err(error) => {
            drop(noted);
            Err(error)
        }
    }
}

// First these effects, then those.
fn joined(alloc: Global, first: &[Effect], then: &[Effect]) -> Result<Items<Effect>, AllocError>
    ensures { IfOk result (λ made. made ≡ first.now ++ then.now) }
{
    let mut made = copied_effects(alloc, first)?;
    match put_copied_effects(alloc, then, &mut made) {
        Ok(()) => Ok(made),
        Err(error) => {
            drop(made);
            Err(error)
        }
    }
}

// These exit actions, behind which the variable notes nothing more.
fn departing(
    alloc: Global,
    variable: VariableId,
    exit: &[Effect],
) -> Result<Items<Effect>, AllocError>
    ensures { IfOk result (λ made. made ≡ exit.now ++ set variable 0 ∷ []) }
{
    let mut effects = copied_effects(alloc, exit)?;
    match put_set(variable, 0, &mut effects) {
        Ok(()) => Ok(effects),
        Err(error) => {
            drop(effects);
            Err(error)
        }
    }
}

fn put_departure(
    alloc: Global,
    variable: VariableId,
    number: u32,
    target: u32,
    exit: &[Effect],
    made: &mut Items<Transition>,
) -> Result<(), AllocError>
    ensures { OnOk result (made.new ≡ made.old ++ departure variable number target exit.now ∷ []) }
{
    let trigger = is_at(alloc, variable, number)?;
    match departing(alloc, variable, exit) {
        Ok(effects) => made.push(Transition {
            kind: TransitionKind::Go,
            immediate: true,
            trigger: Some(trigger),
            effects,
            target,
        }),
        Err(error) => {
            drop(trigger);
            Err(error)
        }
    }
}

fn put_departures(
    alloc: Global,
    variable: VariableId,
    target: u32,
    exits: &[Items<Effect>],
    made: &mut Items<Transition>,
) -> Result<(), AllocError>
    ensures { OnOk result (made.new ≡ made.old ++ departures variable 1 target exits.now) }
{
    let mut number = 1;
    for exit in exits {
        put_departure(alloc, variable, number, target, exit.as_slice(), made)?;
        number = next(number)?;
    }
    made.push(always(true, Items::new(alloc), target))
}

fn behind(alloc: Global, place: u32, transitions: Items<Transition>) -> ExtendedState
    ensures { result ≡ behind place transitions }
{
    let name = numbered("leave__", place as u64);
    made_state(alloc, name, false, Items::new(alloc), transitions)
}

// Puts the state of this place that makes what is left of one region, and goes on.
fn put_leaving(
    alloc: Global,
    place: u32,
    onward: u32,
    leaving: &Leaving,
    made: &mut Items<ExtendedState>,
) -> Result<(), AllocError>
    ensures { OnOk result
        (made.new ≡ made.old ++ behind place (departures leaving.now.variable 1 onward leaving.now.exits) ∷ []) }
{
    let mut transitions = Items::new(alloc);
    let exits = leaving.exits.as_slice();
    match put_departures(alloc, leaving.variable, onward, exits, &mut transitions) {
        Ok(()) => made.push(behind(alloc, place, transitions)),
        Err(error) => {
            drop(transitions);
            Err(error)
        }
    }
}

// Puts the state of this place that makes these effects and those of the transition, and goes to its target.
fn put_last(
    alloc: Global,
    place: u32,
    own: &[Effect],
    transition: &Transition,
    made: &mut Items<ExtendedState>,
) -> Result<(), AllocError>
    ensures { OnOk result
        (made.new ≡ made.old ++ way_out place [] (own.now ++ transition.now.effects) transition.now.target) }
{
    let effects = joined(alloc, own, transition.effects.as_slice())?;
    match alone(alloc, always(true, effects, transition.target)) {
        Ok(transitions) => made.push(behind(alloc, place, transitions)),
        Err(error) => Err(error),
    }
}

// Puts the states from this place on that make what is left, then these effects and those of the transition, and go to
// its target.
fn put_way_out(
    alloc: Global,
    first: u32,
    leavings: &[Leaving],
    own: &[Effect],
    transition: &Transition,
    made: &mut Items<ExtendedState>,
) -> Result<(), AllocError>
    ensures { OnOk result
        (made.new
        ≡ made.old ++ way_out first leavings.now (own.now ++ transition.now.effects) transition.now.target) }
{
    let mut place = first;
    for leaving in leavings {
        let onward = next(place)?;
        put_leaving(alloc, place, onward, leaving, made)?;
        place = onward;
    }
    put_last(alloc, place, own, transition, made)
}

// How many states one way out has.
fn length_of(leavings: &[Leaving]) -> Result<u32, AllocError>
    ensures { IfOk result (λ count. count ≡ suc (length leavings.now)) }
{
    match u32::try_from(leavings.len()) {
        Ok(count) => next(count),
        Err(_) => Err(AllocError),
    }
}

fn put_ways_out(
    alloc: Global,
    first: u32,
    leavings: &[Leaving],
    own: &[Effect],
    transitions: &[Transition],
    made: &mut Items<ExtendedState>,
) -> Result<(), AllocError>
    ensures { OnOk result (made.new ≡ made.old ++ ways_out first leavings.now own.now transitions.now) }
{
    let states = length_of(leavings)?;
    let mut place = first;
    for transition in transitions {
        put_way_out(alloc, place, leavings, own, transition, made)?;
        place = sum(place, states)?;
    }
    Ok(())
}

// Puts the transition that leads to the first of the states behind, which make what it makes.
fn put_led_to(
    alloc: Global,
    place: u32,
    transition: &Transition,
    made: &mut Items<Transition>,
) -> Result<(), AllocError>
    ensures { OnOk result (made.new ≡ made.old ++ led_to place transition.now ∷ []) }
{
    match copied_trigger(alloc, &transition.trigger) {
        Ok(trigger) => made.push(Transition {
            kind: transition.kind,
            immediate: transition.immediate,
            trigger,
            effects: Items::new(alloc),
            target: place,
        }),
        Err(error) => Err(error),
    }
}

fn put_led_out(
    alloc: Global,
    first: u32,
    leavings: &[Leaving],
    transitions: &[Transition],
    made: &mut Items<Transition>,
) -> Result<(), AllocError>
    ensures { OnOk result (made.new ≡ made.old ++ led_out first leavings.now transitions.now) }
{
    let states = length_of(leavings)?;
    let mut place = first;
    for transition in transitions {
        put_led_to(alloc, place, transition, made)?;
        place = sum(place, states)?;
    }
    Ok(())
}

fn put_left_by(
    alloc: Global,
    own: &[Effect],
    transition: &Transition,
    made: &mut Items<Transition>,
) -> Result<(), AllocError>
    ensures { OnOk result (made.new ≡ made.old ++ left_by own.now transition.now ∷ []) }
{
    let trigger = copied_trigger(alloc, &transition.trigger)?;
    match joined(alloc, own, transition.effects.as_slice()) {
        Ok(effects) => made.push(Transition {
            kind: transition.kind,
            immediate: transition.immediate,
            trigger,
            effects,
            target: transition.target,
        }),
        Err(error) => {
            drop(trigger);
            Err(error)
        }
    }
}

fn put_all_left_by(
    alloc: Global,
    own: &[Effect],
    transitions: &[Transition],
    made: &mut Items<Transition>,
) -> Result<(), AllocError>
    ensures { OnOk result (made.new ≡ made.old ++ map (left_by own.now) transitions.now) }
{
    for transition in transitions {
        put_left_by(alloc, own, transition, made)?;
    }
    Ok(())
}

/// Puts the transitions of a state that makes these effects as it is left, where the states behind it stand from this
/// place on. Err: memory was refused.
pub(crate) fn put_left_transitions(
    alloc: Global,
    place: u32,
    leavings: &[Leaving],
    own: &[Effect],
    transitions: &[Transition],
    made: &mut Items<Transition>,
) -> Result<(), AllocError>
    ensures { OnOk result (made.new ≡ made.old ++ left_transitions place leavings.now own.now transitions.now) }
{
    if has_some(leavings) {
        put_led_out(alloc, place, leavings, transitions, made)
    } else {
        put_all_left_by(alloc, own, transitions, made)
    }
}

/// Puts the states behind it. Err: memory was refused.
pub(crate) fn put_left_behind(
    alloc: Global,
    place: u32,
    leavings: &[Leaving],
    own: &[Effect],
    transitions: &[Transition],
    made: &mut Items<ExtendedState>,
) -> Result<(), AllocError>
    ensures { OnOk result (made.new ≡ made.old ++ left_behind place leavings.now own.now transitions.now) }
{
    if has_some(leavings) {
        put_ways_out(alloc, place, leavings, own, transitions, made)
    } else {
        Ok(())
    }
}
