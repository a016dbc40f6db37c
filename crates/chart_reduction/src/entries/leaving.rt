//! Which regions note in which of their states they are, and what is left of them as a superstate around them is left.

ghost use Rattle.std.specs.Prelude.{◌≡◌, [], ◌∷◌, ◌++◌, IfOk, OnOk, map};
ghost use Rattle.extended_charts.specs.Making.{has_some};
ghost use Rattle.chart_reduction.specs.Exits.{left_region, left_state, exits_of, notes, notes_in};
ghost use Rattle.chart_reduction.specs.Exits.{leavings_in, leavings_among, own_leaving};

use core_charts::{Effect, copied_effects};
use extended_charts::{ExtendedRegion, ExtendedState, has_some, one, sum, variable};
use sc_graph::VariableId;
use sqlite_items::Items;
use std::alloc::{AllocError, Global};

/// A region that notes in a variable in which of its states with exit actions it is. These count from 1.
#[derive(Drop)]
pub struct Leaving {
    pub variable: VariableId,
    /// What each of these states does as it is left.
    pub exits: Items<Items<Effect>>,
}

/// Whether the state has exit actions.
#[tactic(auto, using(crate::proofs::Left::state_exit))]
pub(crate) fn has_exit(state: &ExtendedState) -> bool
    ensures { result ≡ has_some (left_state state.now).exit }
{
    has_some(state.exit.as_slice())
}

/// Whether one of these states has exit actions.
pub(crate) fn have_exits(states: &[ExtendedState]) -> bool
    ensures { result ≡ has_some (exits_of (map left_state states.now)) }
{
    for state in states {
        if has_exit(state) {
            return true;
        }
    }
    false
}

// Puts the exit actions of the states that have some.
#[tactic(auto, using(crate::proofs::Left::state_exit))]
fn put_exits(
    alloc: Global,
    states: &[ExtendedState],
    made: &mut Items<Items<Effect>>,
) -> Result<(), AllocError>
    ensures { OnOk result (made.new ≡ made.old ++ exits_of (map left_state states.now)) }
{
    for state in states {
        if has_exit(state) {
            put_exit(alloc, state.exit.as_slice(), made)?;
        }
    }
    Ok(())
}

fn put_exit(
    alloc: Global,
    exit: &[Effect],
    made: &mut Items<Items<Effect>>,
) -> Result<(), AllocError>
    ensures { OnOk result (made.new ≡ made.old ++ exit.now ∷ []) }
{
    match copied_effects(alloc, exit) {
        Ok(copies) => made.push(copies),
        Err(error) => Err(error),
    }
}

// How many of these regions, and of those in them, note where they are.
#[cycle(counting)]
fn notes_in(regions: &[ExtendedRegion]) -> Result<u32, AllocError>
    ensures { IfOk result (λ count. count ≡ notes_in (map left_region regions.now)) }
{
    let mut count = 0;
    for region in regions {
        count = sum(count, notes(region)?)?;
    }
    Ok(count)
}

/// How many of this region and of those in it. Err: no memory holds so many.
#[cycle(counting)]
pub(crate) fn notes(region: &ExtendedRegion) -> Result<u32, AllocError>
    ensures { IfOk result (λ count. count ≡ notes (left_region region.now)) }
{
    sum(inside(region)?, one(have_exits(region.states.as_slice())))
}

/// How many of those in this region. Err: no memory holds so many.
#[cycle(counting)]
pub(crate) fn inside(region: &ExtendedRegion) -> Result<u32, AllocError>
    ensures { IfOk result (λ count. count ≡ (left_region region.now).inside) }
{
    let mut count = 0;
    for state in region.states.as_slice() {
        count = sum(count, state_inside(state)?)?;
    }
    Ok(count)
}

/// How many of those in this state. Err: no memory holds so many.
#[cycle(counting)]
#[tactic(auto, using(crate::proofs::Left::state_inside))]
pub(crate) fn state_inside(state: &ExtendedState) -> Result<u32, AllocError>
    ensures { IfOk result (λ count. count ≡ (left_state state.now).inside) }
{
    notes_in(state.regions.as_slice())
}

// Puts what is left of these regions, and of those in them, where variables from this one on note where they are: those
// in a region first.
#[cycle(leaving)]
fn put_leavings_in(
    alloc: Global,
    first: u32,
    regions: &[ExtendedRegion],
    made: &mut Items<Leaving>,
) -> Result<(), AllocError>
    ensures { OnOk result (made.new ≡ made.old ++ leavings_in first (map left_region regions.now)) }
{
    let mut x = first;
    for region in regions {
        put_leavings(alloc, x, region, made)?;
        x = sum(x, notes(region)?)?;
    }
    Ok(())
}

#[cycle(leaving)]
#[tactic(auto, using(crate::proofs::Left::region_leavings))]
fn put_leavings(
    alloc: Global,
    x: u32,
    region: &ExtendedRegion,
    made: &mut Items<Leaving>,
) -> Result<(), AllocError>
    ensures { OnOk result (made.new ≡ made.old ++ (left_region region.now).leavings x) }
{
    let states = region.states.as_slice();
    let own = sum(x, inside(region)?)?;
    put_leavings_among(alloc, x, states, made)?;
    put_own_leaving(alloc, own, states, made)
}

#[cycle(leaving)]
fn put_leavings_among(
    alloc: Global,
    first: u32,
    states: &[ExtendedState],
    made: &mut Items<Leaving>,
) -> Result<(), AllocError>
    ensures { OnOk result (made.new ≡ made.old ++ leavings_among first (map left_state states.now)) }
{
    let mut x = first;
    for state in states {
        put_state_leavings(alloc, x, state, made)?;
        x = sum(x, state_inside(state)?)?;
    }
    Ok(())
}

/// Puts what is left of the regions in this state, where variables from this one on note where they are: those in a
/// region first. Err: memory was refused, or there are more than 65535 variables.
#[cycle(leaving)]
#[tactic(auto, using(crate::proofs::Left::state_leavings))]
pub(crate) fn put_state_leavings(
    alloc: Global,
    x: u32,
    state: &ExtendedState,
    made: &mut Items<Leaving>,
) -> Result<(), AllocError>
    ensures { OnOk result (made.new ≡ made.old ++ (left_state state.now).leavings x) }
{
    put_leavings_in(alloc, x, state.regions.as_slice(), made)
}

fn put_own_leaving(
    alloc: Global,
    x: u32,
    states: &[ExtendedState],
    made: &mut Items<Leaving>,
) -> Result<(), AllocError>
    ensures { OnOk result (made.new ≡ made.old ++ own_leaving x (exits_of (map left_state states.now))) }
{
    if !have_exits(states) {
        return Ok(());
    }
    let variable = variable(x as usize)?;
    let mut exits = Items::new(alloc);
    match put_exits(alloc, states, &mut exits) {
        Ok(()) => made.push(Leaving { variable, exits }),
        Err(error) => {
            drop(exits);
            Err(error)
        }
    }
}
