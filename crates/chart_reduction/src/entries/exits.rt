//! Exit actions: a transition makes those of the state that it leaves, behind those of what is active in it.

ghost use Rattle.std.specs.Prelude.{◌≡◌, ◌+◌, [], ◌∷◌, ◌++◌, IfOk, OnOk, length, map};
ghost use Rattle.chart_reduction.specs.Exits.{noted, parting, own_note, left_region, left_state, all_regions};
ghost use Rattle.chart_reduction.specs.Exits.{all_states, all_behind, with_behind, all_inside, outer_regions};
ghost use Rattle.chart_reduction.specs.Exits.{with_exits};
ghost use Rattle.chart_reduction.specs.Inside.Entries.{note_of, own_leavings, own_transitions, fill_left};

use crate::entries::departures::{put_left_behind, put_left_transitions, put_set};
use crate::entries::leaving::{
    Leaving, has_exit, have_exits, inside, notes, put_state_leavings, state_inside,
};
use core_charts::{Effect, Transition, copied_effects};
use extended_charts::{
    ExtendedChart, ExtendedRegion, ExtendedState, bare, count, has_some, one, put_copied_effects,
    put_integers, sum, variable,
};
use sc_graph::VariableId;
use sqlite_items::Items;
use std::alloc::{AllocError, Global};

// More states than any region that is made has; a region of a chart has 256 at most.
const MOST_STATES: u32 = 1024;

/// The chart whose transitions make the exit actions. Err: memory was refused, there are more than 65535 variables, or
/// a region would have more than 1,024 states.
pub fn with_exits(alloc: Global, chart: ExtendedChart) -> Result<ExtendedChart, AllocError>
    ensures { IfOk result (λ made. made ≡ with_exits chart) }
{
    let mut chart = chart;
    match put_exits(alloc, &mut chart) {
        Ok(()) => Ok(chart),
        Err(error) => {
            drop(chart);
            Err(error)
        }
    }
}

// The chart is behind a reference, so that no `?` has to drop its parts.
fn put_exits(alloc: Global, chart: &mut ExtendedChart) -> Result<(), AllocError>
    ensures { OnOk result (chart.new ≡ with_exits chart.old) }
{
    let first = u32::from(variable(chart.variables.len())?);
    let count = all_inside(chart.regions.as_slice())?;
    let mut regions = Items::new(alloc);
    put_outer_regions(alloc, first, chart.regions.as_slice(), &mut regions)?;
    chart.regions = regions;
    put_integers("in__", count, &mut chart.variables)
}

// Puts the number of a state, where its region notes it and the state has exit actions.
fn put_noted(
    own: Option<VariableId>,
    number: u32,
    exit: &[Effect],
    made: &mut Items<Effect>,
) -> Result<(), AllocError>
    ensures { OnOk result (made.new ≡ made.old ++ noted own number exit.now) }
{
    match own {
        Some(x) if has_some(exit) => put_set(x, number, made),
        _ => Ok(()),
    }
}

// What is done as a state is left.
fn parting(
    alloc: Global,
    own: Option<VariableId>,
    exit: &[Effect],
) -> Result<Items<Effect>, AllocError>
    ensures { IfOk result (λ made. made ≡ parting own exit.now) }
{
    let mut made = copied_effects(alloc, exit)?;
    match put_noted(own, 0, exit, &mut made) {
        Ok(()) => Ok(made),
        Err(error) => {
            drop(made);
            Err(error)
        }
    }
}

fn own_note(x: u32, notes: bool) -> Result<Option<VariableId>, AllocError>
    ensures { IfOk result (λ own. own ≡ own_note x notes) }
{
    if notes {
        Ok(Some(variable(x as usize)?))
    } else {
        Ok(None)
    }
}

// The variable in which a region notes where it is, behind those of the regions in it, which begin with this one.
fn note_of(x: u32, region: &ExtendedRegion) -> Result<Option<VariableId>, AllocError>
    ensures { IfOk result (λ own. own ≡ note_of x (left_region region.now)) }
{
    let notes_itself = have_exits(region.states.as_slice());
    own_note(sum(x, inside(region)?)?, notes_itself)
}

// The place behind so many states. Err: no region is made of so many, since a chart has far fewer in one.
fn place_behind(place: u32, width: usize) -> Result<u32, AllocError>
    ensures { IfOk result (λ behind. behind ≡ place + width) }
{
    let Ok(width) = u32::try_from(width) else {
        return Err(AllocError);
    };
    let behind = sum(place, width)?;
    if behind > MOST_STATES {
        Err(AllocError)
    } else {
        Ok(behind)
    }
}

// What is left of the regions in a state. What is active in one that a reduction made is left with the author's state
// around it.
fn leavings_of(alloc: Global, x: u32, state: &ExtendedState) -> Result<Items<Leaving>, AllocError>
    ensures { IfOk result (λ made. made ≡ own_leavings x state.now) }
{
    let mut made = Items::new(alloc);
    if !state.is_own {
        return Ok(made);
    }
    match put_state_leavings(alloc, x, state, &mut made) {
        Ok(()) => Ok(made),
        Err(error) => {
            drop(made);
            Err(error)
        }
    }
}

// How many regions note where they are.
fn all_inside(regions: &[ExtendedRegion]) -> Result<u32, AllocError>
    ensures { IfOk result (λ count. count ≡ all_inside (map left_region regions.now)) }
{
    let mut count = 0;
    for region in regions {
        count = sum(count, inside(region)?)?;
    }
    Ok(count)
}

// Puts the regions of the chart.
fn put_outer_regions(
    alloc: Global,
    first: u32,
    regions: &[ExtendedRegion],
    made: &mut Items<ExtendedRegion>,
) -> Result<(), AllocError>
    ensures { OnOk result (made.new ≡ made.old ++ outer_regions first (map left_region regions.now)) }
{
    let mut x = first;
    for region in regions {
        put_region(alloc, None, x, region, made)?;
        x = sum(x, inside(region)?)?;
    }
    Ok(())
}

// Puts the regions of a superstate.
#[cycle(left)]
fn put_regions(
    alloc: Global,
    first: u32,
    regions: &[ExtendedRegion],
    made: &mut Items<ExtendedRegion>,
) -> Result<(), AllocError>
    ensures { OnOk result (made.new ≡ made.old ++ all_regions first (map left_region regions.now)) }
{
    let mut x = first;
    for region in regions {
        let own = note_of(x, region)?;
        put_region(alloc, own, x, region, made)?;
        x = sum(x, notes(region)?)?;
    }
    Ok(())
}

#[cycle(left)]
fn put_region(
    alloc: Global,
    own: Option<VariableId>,
    x: u32,
    region: &ExtendedRegion,
    made: &mut Items<ExtendedRegion>,
) -> Result<(), AllocError>
    ensures { OnOk result (made.new ≡ made.old ++ (left_region region.now).made own x ∷ []) }
{
    let mut states = Items::new(alloc);
    match put_with_behind(alloc, own, x, region.states.as_slice(), &mut states) {
        Ok(()) => made.push(ExtendedRegion {
            name: region.name,
            states,
        }),
        Err(error) => {
            drop(states);
            Err(error)
        }
    }
}

// Puts the states of a region, and what stands behind them.
#[cycle(left)]
fn put_with_behind(
    alloc: Global,
    own: Option<VariableId>,
    first: u32,
    states: &[ExtendedState],
    made: &mut Items<ExtendedState>,
) -> Result<(), AllocError>
    ensures { OnOk result (made.new ≡ made.old ++ with_behind own first (map left_state states.now)) }
{
    let mut behind = Items::new(alloc);
    match put_states(alloc, own, first, states, made, &mut behind) {
        Ok(()) => made.append(behind),
        Err(error) => {
            drop(behind);
            Err(error)
        }
    }
}

// Puts the states of a region, and elsewhere what stands behind them.
#[cycle(left)]
fn put_states(
    alloc: Global,
    own: Option<VariableId>,
    first: u32,
    states: &[ExtendedState],
    made: &mut Items<ExtendedState>,
    behind: &mut Items<ExtendedState>,
) -> Result<(), AllocError>
    ensures states { OnOk result
        (made.new ≡ made.old ++ all_states own 1 first (length states.now) (map left_state states.now)) }
    ensures behind { OnOk result
        (behind.new ≡ behind.old ++ all_behind own first (length states.now) (map left_state states.now)) }
{
    let mut number = 1;
    let mut x = first;
    let mut place = count(states)?;
    for state in states {
        put_state(alloc, own, number, x, place, state, made)?;
        place = put_behind(alloc, own, x, place, state, behind)?;
        number = sum(number, one(has_exit(state)))?;
        x = sum(x, state_inside(state)?)?;
    }
    Ok(())
}

#[cycle(left)]
#[tactic(auto, using(crate::proofs::Left::state_made))]
fn put_state(
    alloc: Global,
    own: Option<VariableId>,
    number: u32,
    x: u32,
    place: u32,
    state: &ExtendedState,
    made: &mut Items<ExtendedState>,
) -> Result<(), AllocError>
    ensures { OnOk result (made.new ≡ made.old ++ (left_state state.now).made own number x place ∷ []) }
{
    let mut left = bare(alloc, state);
    match fill_left(alloc, own, number, x, place, state, &mut left) {
        Ok(()) => made.push(left),
        Err(error) => {
            drop(left);
            Err(error)
        }
    }
}

// Puts what a state holds into a bare one, which is behind a reference so that no `?` has to drop its parts.
#[cycle(left)]
fn fill_left(
    alloc: Global,
    own: Option<VariableId>,
    number: u32,
    x: u32,
    place: u32,
    state: &ExtendedState,
    left: &mut ExtendedState,
) -> Result<(), AllocError>
    ensures { OnOk result (left.new ≡ fill_left own number x place state.now left.old) }
{
    put_noted(own, number, state.exit.as_slice(), &mut left.entry)?;
    put_copied_effects(alloc, state.entry.as_slice(), &mut left.entry)?;
    put_regions(alloc, x, state.regions.as_slice(), &mut left.regions)?;
    put_transitions(alloc, own, x, place, state, &mut left.transitions)
}

// Puts the transitions of a state.
fn put_transitions(
    alloc: Global,
    own: Option<VariableId>,
    x: u32,
    place: u32,
    state: &ExtendedState,
    made: &mut Items<Transition>,
) -> Result<(), AllocError>
    ensures { OnOk result (made.new ≡ made.old ++ own_transitions own x place state.now) }
{
    let leavings = leavings_of(alloc, x, state)?;
    match parting(alloc, own, state.exit.as_slice()) {
        Ok(parting) => put_left_transitions(
            alloc,
            place,
            leavings.as_slice(),
            parting.as_slice(),
            state.transitions.as_slice(),
            made,
        ),
        Err(error) => {
            drop(leavings);
            Err(error)
        }
    }
}

// Puts what stands behind a state, from this place on.
#[tactic(auto, using(crate::proofs::Left::state_behind))]
fn put_own_behind(
    alloc: Global,
    own: Option<VariableId>,
    x: u32,
    place: u32,
    state: &ExtendedState,
    made: &mut Items<ExtendedState>,
) -> Result<(), AllocError>
    ensures { OnOk result (made.new ≡ made.old ++ (left_state state.now).behind own x place) }
{
    let leavings = leavings_of(alloc, x, state)?;
    match parting(alloc, own, state.exit.as_slice()) {
        Ok(parting) => put_left_behind(
            alloc,
            place,
            leavings.as_slice(),
            parting.as_slice(),
            state.transitions.as_slice(),
            made,
        ),
        Err(error) => {
            drop(leavings);
            Err(error)
        }
    }
}

// Puts it, and tells the place behind it.
fn put_behind(
    alloc: Global,
    own: Option<VariableId>,
    x: u32,
    place: u32,
    state: &ExtendedState,
    made: &mut Items<ExtendedState>,
) -> Result<u32, AllocError>
    ensures place { IfOk result (λ past. past ≡ place + length ((left_state state.now).behind own x place)) }
    ensures behind { OnOk result (made.new ≡ made.old ++ (left_state state.now).behind own x place) }
{
    let before = made.len();
    put_own_behind(alloc, own, x, place, state, made)?;
    place_behind(place, made.len() - before)
}
