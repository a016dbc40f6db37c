//! The states that expansion makes of a state, and abort monitors, without what is inside them.

ghost use Rattle.std.specs.Prelude.{◌≡◌, ◌∷◌, ◌++◌, [], OnOk};
ghost use Rattle.core_charts.specs.Tests.{terminations};
ghost use Rattle.abort_expansion.specs.Superstates.{simple, simple_transitions, resets, preparation, abandoned};
ghost use Rattle.abort_expansion.specs.Superstates.{monitor, monitor_transitions, continuation, closing};
ghost use Rattle.abort_expansion.specs.Superstates.{joined_or_left, all_ended, fork};
ghost use Rattle.abort_expansion.specs.Transitions.{on, put};
ghost use Rattle.abort_expansion.specs.Inside.Parts.{preparing, watching, continuing};

use crate::checks::{
    AbortSort, put_answer, put_answers, put_entry_aborts, put_raising, put_strong_checks,
    put_weak_checks,
};
use crate::flags::{Flags, weak_around};
use crate::making::{alone, go, is_number, put};
use crate::names::{
    abandoned_name, continuation_name, monitor_name, preparation_name, watching_name,
};
use crate::places::RegionPlaces;
use core_charts::{Effect, Region, State, Transition, TransitionKind};
use sc_graph::VariableId;
use sc_values::Name;
use sqlite_items::Items;
use std::alloc::{AllocError, Global};

/// Puts a simple state of this name and these transitions behind others.
pub(crate) fn put_simple(
    alloc: Global,
    is_final: bool,
    name: Name,
    own: &[Transition],
    around: &[Flags],
    at: &RegionPlaces,
    begins: bool,
    made: &mut Items<State>,
) -> Result<(), AllocError>
    ensures { OnOk result (made.new ≡ made.old ++ simple is_final name own.now around.now at.now begins ∷ []) }
{
    if is_final {
        return made.push(State {
            name,
            is_initial: begins,
            is_final: true,
            regions: Items::new(alloc),
            transitions: Items::new(alloc),
        });
    }
    let mut transitions = Items::new(alloc);
    put_simple_transitions(alloc, own, around, at, &mut transitions)?;
    made.push(State {
        name,
        is_initial: begins,
        is_final: false,
        regions: Items::new(alloc),
        transitions,
    })
}

fn put_simple_transitions(
    alloc: Global,
    own: &[Transition],
    around: &[Flags],
    at: &RegionPlaces,
    made: &mut Items<Transition>,
) -> Result<(), AllocError>
    ensures { OnOk result (made.new ≡ made.old ++ simple_transitions around.now at.now own.now) }
{
    put_strong_checks(alloc, false, at.left, around, made)?;
    at.put_all_led(alloc, own, made)?;
    put_weak_checks(alloc, true, at.left, around, made)
}

/// Puts the preparation state of a superstate with so many regions, whose fork has this place, behind others.
pub(crate) fn put_preparation(
    alloc: Global,
    superstate: u32,
    flags: Flags,
    regions: u16,
    own: &[Transition],
    at: &RegionPlaces,
    fork: u32,
    begins: bool,
    made: &mut Items<State>,
) -> Result<(), AllocError>
    ensures { OnOk result (made.new
        ≡ made.old ++ preparation superstate flags regions own.now at.now fork begins ∷ []) }
{
    let mut transitions = Items::new(alloc);
    put_preparing(alloc, flags, regions, own, at, fork, &mut transitions)?;
    made.push(State {
        name: preparation_name(superstate),
        is_initial: begins,
        is_final: false,
        regions: Items::new(alloc),
        transitions,
    })
}

// Puts what the preparation state does behind others.
fn put_preparing(
    alloc: Global,
    flags: Flags,
    regions: u16,
    own: &[Transition],
    at: &RegionPlaces,
    fork: u32,
    made: &mut Items<Transition>,
) -> Result<(), AllocError>
    ensures { OnOk result (made.new ≡ made.old ++ preparing flags regions own.now at.now fork) }
{
    put_entry_aborts(alloc, at, own, made)?;
    let mut effects = Items::new(alloc);
    put_resets(flags, regions, &mut effects)?;
    made.push(go(true, None, effects, fork))
}

// Puts the flags and the counter as they are where a superstate with so many regions is entered behind others.
fn put_resets(flags: Flags, regions: u16, made: &mut Items<Effect>) -> Result<(), AllocError>
    ensures { OnOk result (made.new ≡ made.old ++ resets flags regions) }
{
    put_value(flags.strong, 0, made)?;
    put_value(flags.weak, 0, made)?;
    put_value(flags.counter, regions, made)
}

// Puts behind others that the variable becomes this number, where it is there.
fn put_value(
    variable: Option<VariableId>,
    number: u16,
    made: &mut Items<Effect>,
) -> Result<(), AllocError>
    ensures { OnOk result (made.new ≡ made.old ++ on variable (λ x. put x number)) }
{
    match variable {
        Some(variable) => made.push(put(variable, number)),
        None => Ok(()),
    }
}

/// The abandoned state.
pub(crate) fn abandoned(alloc: Global) -> State
    ensures { result ≡ abandoned }
{
    State {
        name: abandoned_name(),
        is_initial: false,
        is_final: true,
        regions: Items::new(alloc),
        transitions: Items::new(alloc),
    }
}

fn put_all_ended(
    alloc: Global,
    counter: Option<VariableId>,
    made: &mut Items<Transition>,
) -> Result<(), AllocError>
    ensures { OnOk result (made.new ≡ made.old ++ all_ended counter) }
{
    match counter {
        Some(variable) => {
            let trigger = is_number(alloc, variable, 0)?;
            made.push(go(true, Some(trigger), Items::new(alloc), 1))
        }
        None => Ok(()),
    }
}

fn put_monitor_transitions(
    alloc: Global,
    around: &[Flags],
    flags: Flags,
    own: &[Transition],
    made: &mut Items<Transition>,
) -> Result<(), AllocError>
    ensures { OnOk result (made.new ≡ made.old ++ monitor_transitions around.now flags own.now) }
{
    put_strong_checks(alloc, false, 1, around, made)?;
    put_raising(alloc, AbortSort::Strong, 1, flags.strong, own, made)?;
    put_raising(alloc, AbortSort::Weak, 1, flags.weak, own, made)?;
    put_all_ended(alloc, flags.counter, made)?;
    put_weak_checks(alloc, true, 1, around, made)
}

// Puts the first state of an abort monitor behind others.
fn put_watching(
    alloc: Global,
    around: &[Flags],
    flags: Flags,
    own: &[Transition],
    made: &mut Items<State>,
) -> Result<(), AllocError>
    ensures { OnOk result (made.new ≡ made.old ++ watching around.now flags own.now ∷ []) }
{
    let mut transitions = Items::new(alloc);
    put_monitor_transitions(alloc, around, flags, own, &mut transitions)?;
    made.push(State {
        name: watching_name(),
        is_initial: true,
        is_final: false,
        regions: Items::new(alloc),
        transitions,
    })
}

/// Puts the abort monitor of a superstate behind other regions.
pub(crate) fn put_monitor(
    alloc: Global,
    superstate: u32,
    around: &[Flags],
    flags: Flags,
    own: &[Transition],
    made: &mut Items<Region>,
) -> Result<(), AllocError>
    ensures { OnOk result (made.new ≡ made.old ++ monitor superstate around.now flags own.now ∷ []) }
{
    let mut states = Items::new(alloc);
    put_watching(alloc, around, flags, own, &mut states)?;
    states.push(abandoned(alloc))?;
    made.push(Region {
        name: monitor_name(superstate),
        states,
    })
}

fn put_joined_or_left(
    alloc: Global,
    at: &RegionPlaces,
    counter: Option<VariableId>,
    join: &Transition,
    made: &mut Items<Transition>,
) -> Result<(), AllocError>
    ensures { OnOk result (made.new ≡ made.old ++ joined_or_left at.now counter join.now) }
{
    if let Some(variable) = counter {
        put_answer(alloc, at, variable, 0, join, made)?;
    }
    made.push(go(true, None, Items::new(alloc), at.left))
}

fn put_closing(
    alloc: Global,
    around: &[Flags],
    flags: Flags,
    at: &RegionPlaces,
    own: &[Transition],
    made: &mut Items<Transition>,
) -> Result<(), AllocError>
    ensures { OnOk result (made.new ≡ made.old ++ closing around.now flags at.now (terminations own.now)) }
{
    for transition in own {
        if transition.kind.is_join() {
            return put_ending(alloc, around, flags, at, transition, made);
        }
    }
    put_weak_checks(alloc, true, at.left, around, made)
}

// Puts what the continuation state does by this termination behind others.
fn put_ending(
    alloc: Global,
    around: &[Flags],
    flags: Flags,
    at: &RegionPlaces,
    join: &Transition,
    made: &mut Items<Transition>,
) -> Result<(), AllocError>
    ensures { OnOk result (made.new ≡ made.old ++ closing around.now flags at.now (join.now ∷ [])) }
{
    if weak_around(around) {
        put_joined_or_left(alloc, at, flags.counter, join, made)
    } else {
        at.put_led_by(alloc, None, join, made)
    }
}

/// Puts the continuation state of a superstate behind others.
pub(crate) fn put_continuation(
    alloc: Global,
    superstate: u32,
    around: &[Flags],
    flags: Flags,
    at: &RegionPlaces,
    own: &[Transition],
    made: &mut Items<State>,
) -> Result<(), AllocError>
    ensures { OnOk result (made.new ≡ made.old ++ continuation superstate around.now flags at.now own.now ∷ []) }
{
    let mut transitions = Items::new(alloc);
    put_continuing(alloc, around, flags, at, own, &mut transitions)?;
    made.push(State {
        name: continuation_name(superstate),
        is_initial: false,
        is_final: false,
        regions: Items::new(alloc),
        transitions,
    })
}

// Puts what the continuation state does behind others.
fn put_continuing(
    alloc: Global,
    around: &[Flags],
    flags: Flags,
    at: &RegionPlaces,
    own: &[Transition],
    made: &mut Items<Transition>,
) -> Result<(), AllocError>
    ensures { OnOk result (made.new ≡ made.old ++ continuing around.now flags at.now own.now) }
{
    put_strong_checks(alloc, true, at.left, around, made)?;
    put_answers(alloc, AbortSort::Strong, at, flags.strong, own, made)?;
    put_answers(alloc, AbortSort::Weak, at, flags.weak, own, made)?;
    put_closing(alloc, around, flags, at, own, made)
}

/// Puts the fork of a superstate, whose continuation state has this place, behind others.
pub(crate) fn put_fork(
    alloc: Global,
    name: Name,
    begins: bool,
    regions: Items<Region>,
    continuation: u32,
    made: &mut Items<State>,
) -> Result<(), AllocError>
    ensures { OnOk result (made.new ≡ made.old ++ fork name begins regions continuation ∷ []) }
{
    let transitions = alone(
        alloc,
        Transition {
            kind: TransitionKind::Join,
            immediate: false,
            trigger: None,
            effects: Items::new(alloc),
            target: continuation,
        },
    )?;
    made.push(State {
        name,
        is_initial: begins,
        is_final: false,
        regions,
        transitions,
    })
}
