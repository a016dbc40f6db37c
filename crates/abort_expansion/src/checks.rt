//! The transitions by which the aborts of superstates are checked, answered and raised.

ghost use Rattle.std.specs.Prelude.{◌≡◌, ◌+◌, [], ◌∷◌, ◌++◌, Some, IfOk, OnOk, map};
ghost use Rattle.core_charts.specs.Tests.{at_once, strong_aborts};
ghost use Rattle.abort_expansion.specs.Transitions.{strong_checks, weak_checks, answers, raising, led_by};
ghost use Rattle.abort_expansion.specs.Transitions.{go, is_number, put};
ghost use Rattle.abort_expansion.specs.Inside.Sorts.{is_abort_of, aborts_of, is_told_at_once};

use crate::flags::Flags;
use crate::making::{alone, go, is_number, put, put_check};
use crate::places::RegionPlaces;
use core_charts::{Transition, TransitionKind, copied_trigger};
use sc_graph::VariableId;
use sqlite_items::Items;
use std::alloc::{AllocError, Global};

/// Puts the checks of the flags of strong aborts behind others.
pub(crate) fn put_strong_checks(
    alloc: Global,
    immediate: bool,
    left: u32,
    around: &[Flags],
    made: &mut Items<Transition>,
) -> Result<(), AllocError>
    ensures { OnOk result (made.new ≡ made.old ++ strong_checks immediate left around.now) }
{
    for flags in around {
        put_check(alloc, immediate, left, flags.strong, made)?;
    }
    Ok(())
}

/// Puts the checks of the flags of weak aborts behind others.
pub(crate) fn put_weak_checks(
    alloc: Global,
    immediate: bool,
    left: u32,
    around: &[Flags],
    made: &mut Items<Transition>,
) -> Result<(), AllocError>
    ensures { OnOk result (made.new ≡ made.old ++ weak_checks immediate left around.now) }
{
    for flags in around {
        put_check(alloc, immediate, left, flags.weak, made)?;
    }
    Ok(())
}

/// Which aborts are meant.
#[derive(Clone, Copy)]
pub enum AbortSort {
    Strong,
    Weak,
}

impl AbortSort {
    fn has(self, kind: TransitionKind) -> bool
        ensures { result ≡ is_abort_of self kind }
    {
        match self {
            AbortSort::Strong => kind.is_strong(),
            AbortSort::Weak => kind.is_weak(),
        }
    }

    // Whether this abort is told in the tick of entry too.
    fn is_told_at_once(self, transition: &Transition) -> bool
        ensures { result ≡ is_told_at_once self transition.now }
    {
        match self {
            AbortSort::Strong => false,
            AbortSort::Weak => transition.immediate,
        }
    }
}

// The number behind this one. Err: no memory holds so many aborts.
fn next(number: u16) -> Result<u16, AllocError>
    ensures { IfOk result (λ next. next ≡ number + 1) }
{
    match number.checked_add(1) {
        Some(next) => Ok(next),
        None => Err(AllocError),
    }
}

/// Puts the effects and the target of a transition behind others, tested by whether the variable is this number.
pub(crate) fn put_answer(
    alloc: Global,
    at: &RegionPlaces,
    variable: VariableId,
    number: u16,
    transition: &Transition,
    made: &mut Items<Transition>,
) -> Result<(), AllocError>
    ensures { OnOk result (made.new
        ≡ made.old ++ led_by at.now (Some (is_number variable number)) transition.now ∷ []) }
{
    let trigger = is_number(alloc, variable, number)?;
    at.put_led_by(alloc, Some(trigger), transition, made)
}

/// Puts the effects and targets of the aborts of this sort behind others, each tested by its number in the flag.
pub(crate) fn put_answers(
    alloc: Global,
    sort: AbortSort,
    at: &RegionPlaces,
    flag: Option<VariableId>,
    own: &[Transition],
    made: &mut Items<Transition>,
) -> Result<(), AllocError>
    ensures { OnOk result (made.new ≡ made.old ++ answers at.now flag 1 (aborts_of sort own.now)) }
{
    let Some(variable) = flag else {
        return Ok(());
    };
    let mut number = 1;
    for transition in own {
        if sort.has(transition.kind) {
            put_answer(alloc, at, variable, number, transition, made)?;
            number = next(number)?;
        }
    }
    Ok(())
}

// Puts the trigger of an abort of this sort behind others, which puts this number into the flag.
fn put_raised(
    alloc: Global,
    sort: AbortSort,
    left: u32,
    variable: VariableId,
    number: u16,
    transition: &Transition,
    made: &mut Items<Transition>,
) -> Result<(), AllocError>
    ensures { OnOk result (made.new ≡ made.old
        ++ go (is_told_at_once sort transition.now) transition.now.trigger (put variable number ∷ []) left ∷ []) }
{
    let effects = alone(alloc, put(variable, number))?;
    let trigger = copied_trigger(alloc, &transition.trigger)?;
    made.push(go(sort.is_told_at_once(transition), trigger, effects, left))
}

/// Puts the triggers of the aborts of this sort behind others, each of which puts its number into the flag.
pub(crate) fn put_raising(
    alloc: Global,
    sort: AbortSort,
    left: u32,
    flag: Option<VariableId>,
    own: &[Transition],
    made: &mut Items<Transition>,
) -> Result<(), AllocError>
    ensures { OnOk result (made.new ≡ made.old
        ++ raising (is_told_at_once sort) left flag 1 (aborts_of sort own.now)) }
{
    let Some(variable) = flag else {
        return Ok(());
    };
    let mut number = 1;
    for transition in own {
        if sort.has(transition.kind) {
            put_raised(alloc, sort, left, variable, number, transition, made)?;
            number = next(number)?;
        }
    }
    Ok(())
}

// Puts an abort, with its trigger, behind others.
fn put_entry_abort(
    alloc: Global,
    at: &RegionPlaces,
    transition: &Transition,
    made: &mut Items<Transition>,
) -> Result<(), AllocError>
    ensures { OnOk result (made.new ≡ made.old ++ led_by at.now transition.now.trigger transition.now ∷ []) }
{
    let trigger = copied_trigger(alloc, &transition.trigger)?;
    at.put_led_by(alloc, trigger, transition, made)
}

/// Puts the immediate strong aborts, with their triggers, behind others.
pub(crate) fn put_entry_aborts(
    alloc: Global,
    at: &RegionPlaces,
    own: &[Transition],
    made: &mut Items<Transition>,
) -> Result<(), AllocError>
    ensures { OnOk result (made.new ≡ made.old
        ++ map (λ t. led_by at.now t.trigger t) (at_once (strong_aborts own.now))) }
{
    for transition in own {
        if transition.kind.is_strong() && transition.immediate {
            put_entry_abort(alloc, at, transition, made)?;
        }
    }
    Ok(())
}
