//! Where a region begins that goes on where it was: in a state that leads to each of the others.

ghost use Rattle.std.specs.Prelude.{◌≡◌, [], ◌∷◌, ◌++◌, IfOk, OnOk, Some, map, true};
ghost use Rattle.extended_charts.specs.Making.{always};
ghost use Rattle.chart_reduction.specs.Histories.{was_at, initial_among, resumptions, resuming, past_state};
ghost use Rattle.chart_reduction.specs.Inside.Entries.{own_resumption};

use crate::entries::departures::is_at;
use crate::entries::histories::Past;
use core_charts::{Transition, TransitionKind, next};
use extended_charts::{ExtendedState, always, count, made_state};
use sc_text::numbered;
use sc_values::{BinaryOperator, Expr};
use sqlite_items::{Boxed, Items};
use std::alloc::{AllocError, Global};

// Whether the region was in the state of this place, and goes on there.
fn was_at(alloc: Global, past: Past, place: u32) -> Result<Expr, AllocError>
    ensures { IfOk result (λ made. made ≡ was_at past place) }
{
    let last = Boxed::new(alloc, is_at(alloc, past.last, next(place)?)?)?;
    match Boxed::new(alloc, Expr::Load(past.history)) {
        Ok(history) => Ok(Expr::Binary(BinaryOperator::And, history, last)),
        Err(error) => {
            drop(last);
            Err(error)
        }
    }
}

// Puts one to the state of this place, where it is not the initial one.
fn put_resumption(
    alloc: Global,
    past: Past,
    place: u32,
    is_initial: bool,
    made: &mut Items<Transition>,
) -> Result<(), AllocError>
    ensures { OnOk result (made.new ≡ made.old ++ own_resumption past place is_initial) }
{
    if is_initial {
        return Ok(());
    }
    match was_at(alloc, past, place) {
        Ok(trigger) => made.push(Transition {
            kind: TransitionKind::Go,
            immediate: true,
            trigger: Some(trigger),
            effects: Items::new(alloc),
            target: place,
        }),
        Err(error) => Err(error),
    }
}

#[tactic(auto, using(crate::proofs::PastStates::state_begins))]
fn put_resumptions(
    alloc: Global,
    past: Past,
    states: &[ExtendedState],
    made: &mut Items<Transition>,
) -> Result<(), AllocError>
    ensures { OnOk result (made.new ≡ made.old ++ resumptions past 0 (map past_state states.now)) }
{
    let mut place = 0;
    for state in states {
        put_resumption(alloc, past, place, state.is_initial, made)?;
        place = next(place)?;
    }
    Ok(())
}

#[tactic(auto, using(crate::proofs::PastStates::state_begins))]
fn initial_among(states: &[ExtendedState]) -> Result<u32, AllocError>
    ensures { IfOk result (λ place. place ≡ initial_among 0 (map past_state states.now)) }
{
    let mut place = 0;
    for state in states {
        if state.is_initial {
            return Ok(place);
        }
        place = next(place)?;
    }
    Ok(place)
}

// Puts the state in which a region begins that goes on where it was.
fn put_resuming_state(
    alloc: Global,
    past: Past,
    states: &[ExtendedState],
    made: &mut Items<ExtendedState>,
) -> Result<(), AllocError>
    ensures { OnOk result (made.new ≡ made.old ++ resuming (Some past) (map past_state states.now)) }
{
    let name = numbered("resume__", count(states)? as u64);
    let initial = initial_among(states)?;
    let mut ways = Items::new(alloc);
    match put_ways(alloc, past, initial, states, &mut ways) {
        Ok(()) => made.push(made_state(alloc, name, true, Items::new(alloc), ways)),
        Err(error) => {
            drop(ways);
            Err(error)
        }
    }
}

// Puts its ways on: behind those to where the region was, the one to the state of this place.
fn put_ways(
    alloc: Global,
    past: Past,
    initial: u32,
    states: &[ExtendedState],
    made: &mut Items<Transition>,
) -> Result<(), AllocError>
    ensures { OnOk result (made.new ≡ made.old
        ++ (resumptions past 0 (map past_state states.now) ++ always true [] initial ∷ [])) }
{
    put_resumptions(alloc, past, states, made)?;
    made.push(always(true, Items::new(alloc), initial))
}

/// Puts where the region begins, if not in its initial state. Err: memory was refused.
pub(crate) fn put_resuming(
    alloc: Global,
    own: Option<Past>,
    states: &[ExtendedState],
    made: &mut Items<ExtendedState>,
) -> Result<(), AllocError>
    ensures { OnOk result (made.new ≡ made.old ++ resuming own (map past_state states.now)) }
{
    match own {
        Some(past) => put_resuming_state(alloc, past, states, made),
        None => Ok(()),
    }
}
