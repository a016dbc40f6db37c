//! Entry actions: a state that has such is entered by a step state before it, which makes them.

ghost use Rattle.std.specs.Prelude.{◌≡◌, ◌+◌, [], ◌∷◌, ◌++◌, IfOk, OnOk, map, slice_get, unwrap_or};
ghost use Rattle.chart_reduction.specs.Entry.{width, entrances, nowhere, led, standing, entering, laid, all_laid};
ghost use Rattle.chart_reduction.specs.Entry.{entered, without_entry};
ghost use Rattle.extended_charts.specs.declared.extended.ExtendedRegion.TheViews.{out-ExtendedState};

use core_charts::{Effect, Region, State, Transition, copied_effects};
use extended_charts::{ExtendedRegion, ExtendedState, alone, always, has_some, sum};
use sc_text::numbered;
use sqlite_items::Items;
use std::alloc::{AllocError, Global};

/// Regions whose states are entered by the states that make their entry actions. Err: memory was refused.
pub fn without_entry(alloc: Global, regions: &[ExtendedRegion]) -> Result<Items<Region>, AllocError>
    ensures { IfOk result (λ made. made ≡ map without_entry regions.now) }
{
    let mut made = Items::new(alloc);
    match put_regions(alloc, regions, &mut made) {
        Ok(()) => Ok(made),
        Err(error) => {
            drop(made);
            Err(error)
        }
    }
}

// Puts what is made of regions behind others.
#[cycle(entered)]
fn put_regions(
    alloc: Global,
    regions: &[ExtendedRegion],
    made: &mut Items<Region>,
) -> Result<(), AllocError>
    ensures { OnOk result (made.new ≡ made.old ++ map without_entry regions.now) }
{
    for region in regions {
        put_region(alloc, region, made)?;
    }
    Ok(())
}

#[cycle(entered)]
fn put_region(
    alloc: Global,
    region: &ExtendedRegion,
    made: &mut Items<Region>,
) -> Result<(), AllocError>
    ensures { OnOk result (made.new ≡ made.old ++ without_entry region.now ∷ []) }
{
    let at = entrances(alloc, region.states.as_slice())?;
    let mut states = Items::new(alloc);
    match put_states(alloc, at.as_slice(), region.states.as_slice(), &mut states) {
        Ok(()) => made.push(Region {
            name: region.name,
            states,
        }),
        Err(error) => {
            drop(states);
            Err(error)
        }
    }
}

// Puts what stands for the states of a region behind others.
#[cycle(entered)]
fn put_states(
    alloc: Global,
    at: &[u32],
    states: &[ExtendedState],
    made: &mut Items<State>,
) -> Result<(), AllocError>
    ensures { OnOk result (made.new ≡ made.old ++ all_laid at.now 0 0 (map entered states.now)) }
{
    let mut number = 0;
    let mut place = 0;
    for state in states {
        put_laid(alloc, at, number, place, state, made)?;
        number = sum(number, 1)?;
        place = sum(place, width(state))?;
    }
    Ok(())
}

#[cycle(entered)]
#[tactic(auto, using(crate::proofs::EntryFolded::state_entered))]
fn put_laid(
    alloc: Global,
    at: &[u32],
    number: u32,
    place: u32,
    state: &ExtendedState,
    made: &mut Items<State>,
) -> Result<(), AllocError>
    ensures { OnOk result (made.new ≡ made.old ++ laid at.now number place (entered state.now)) }
{
    let entry = state.entry.as_slice();
    put_entering(alloc, number, place, state.is_initial, entry, made)?;
    put_standing(alloc, at, state, made)
}

// Puts the state itself.
#[cycle(entered)]
#[tactic(auto, using(crate::proofs::EntryFolded::state_entered))]
fn put_standing(
    alloc: Global,
    at: &[u32],
    state: &ExtendedState,
    made: &mut Items<State>,
) -> Result<(), AllocError>
    ensures { OnOk result (made.new ≡ made.old ++ standing at.now (entered state.now) ∷ []) }
{
    let mut regions = Items::new(alloc);
    let mut transitions = Items::new(alloc);
    match put_inside(alloc, at, state, &mut regions, &mut transitions) {
        Ok(()) => made.push(State {
            name: state.name,
            is_initial: state.is_initial && !has_some(state.entry.as_slice()),
            is_final: state.is_final,
            regions,
            transitions,
        }),
        Err(error) => {
            drop(regions);
            drop(transitions);
            Err(error)
        }
    }
}

// Puts what is in it: its regions and its transitions.
#[cycle(entered)]
fn put_inside(
    alloc: Global,
    at: &[u32],
    state: &ExtendedState,
    regions: &mut Items<Region>,
    transitions: &mut Items<Transition>,
) -> Result<(), AllocError>
    ensures regions { OnOk result
        (regions.new ≡ regions.old ++ map without_entry (out-ExtendedState state.now).regions) }
    ensures transitions { OnOk result
        (transitions.new ≡ transitions.old ++ map (led at.now) (out-ExtendedState state.now).transitions) }
{
    put_regions(alloc, state.regions.as_slice(), regions)?;
    put_all_led(alloc, at, state.transitions.as_slice(), transitions)
}

// Puts the step state of this number and place, where there are entry actions.
fn put_entering(
    alloc: Global,
    number: u32,
    place: u32,
    is_initial: bool,
    entry: &[Effect],
    made: &mut Items<State>,
) -> Result<(), AllocError>
    ensures { OnOk result (made.new ≡ made.old ++ entering number place is_initial entry.now) }
{
    if !has_some(entry) {
        return Ok(());
    }
    let behind = sum(place, 1)?;
    let effects = copied_effects(alloc, entry)?;
    match alone(alloc, always(true, effects, behind)) {
        Ok(transitions) => made.push(State {
            name: numbered("enter__", number as u64),
            is_initial,
            is_final: false,
            regions: Items::new(alloc),
            transitions,
        }),
        Err(error) => Err(error),
    }
}

#[tactic(auto, using(crate::proofs::EntryFolded::state_entered))]
fn width(state: &ExtendedState) -> u32
    ensures { result ≡ width (entered state.now) }
{
    if has_some(state.entry.as_slice()) {
        2
    } else {
        1
    }
}

fn entrances(alloc: Global, states: &[ExtendedState]) -> Result<Items<u32>, AllocError>
    ensures { IfOk result (λ at. at ≡ entrances (map entered states.now) 0) }
{
    let mut made = Items::new(alloc);
    match put_entrances(states, &mut made) {
        Ok(()) => Ok(made),
        Err(error) => {
            drop(made);
            Err(error)
        }
    }
}

// Puts the place at which each state is entered.
fn put_entrances(states: &[ExtendedState], made: &mut Items<u32>) -> Result<(), AllocError>
    ensures { OnOk result (made.new ≡ made.old ++ entrances (map entered states.now) 0) }
{
    let mut place = 0;
    for state in states {
        made.push(place)?;
        place = sum(place, width(state))?;
    }
    Ok(())
}

fn entrance(at: &[u32], target: u32) -> u32
    ensures { result ≡ unwrap_or (slice_get at.now target) nowhere }
{
    match at.get(target as usize) {
        Some(place) => *place,
        None => u32::MAX,
    }
}

// Puts transitions as they stand, to where their targets are entered.
fn put_all_led(
    alloc: Global,
    at: &[u32],
    transitions: &[Transition],
    made: &mut Items<Transition>,
) -> Result<(), AllocError>
    ensures { OnOk result (made.new ≡ made.old ++ map (led at.now) transitions.now) }
{
    for transition in transitions {
        put_led(alloc, at, transition, made)?;
    }
    Ok(())
}

fn put_led(
    alloc: Global,
    at: &[u32],
    transition: &Transition,
    made: &mut Items<Transition>,
) -> Result<(), AllocError>
    ensures { OnOk result (made.new ≡ made.old ++ led at.now transition.now ∷ []) }
{
    match transition.copied(alloc) {
        Ok(mut copy) => {
            copy.target = entrance(at, transition.target);
            made.push(copy)
        }
        Err(error) => Err(error),
    }
}
