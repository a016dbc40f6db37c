//! The places of all elements of a draft: one walk over it, in the order of their numbers.

ghost use Rattle.std.specs.Prelude.{◌≡◌, ◌++◌, IfOk, map};
ghost use Rattle.node_sources.specs.Places.{all, beside, of_effects, of_region, of_state, of_transition};
ghost use Rattle.node_sources.specs.Places.{places_of, region};

use crate::chart_places::places::{PlaceRows, Places};
use crate::chart_places::states_around::states_around_of;
use chart_reader::{DraftChart, DraftEffect, DraftRegion, DraftState, DraftTransition};
use sqlite_items::Items;
use std::alloc::{AllocError, Global};

/// Where the elements of the chart that a draft is stand in its text. Err: memory was refused.
pub fn places_of(alloc: Global, draft: &DraftChart) -> Result<Places, AllocError>
    ensures { IfOk result (λ places. places ≡ places_of draft.now) }
{
    let mut rows = PlaceRows::none(alloc);
    put_regions(draft.regions.as_slice(), &mut rows)?;
    let states_around = states_around_of(alloc, draft)?;
    Ok(Places {
        chart: draft.named.at,
        rows,
        states_around,
    })
}

// Puts those of regions, with all that is in them, behind the others.
#[cycle(draft)]
fn put_regions(regions: &[DraftRegion], rows: &mut PlaceRows) -> Result<(), AllocError>
    ensures { IfOk result (λ _. rows.new ≡ beside rows.old (all (map of_region regions.now))) }
{
    for region in regions {
        put_region(region, rows)?;
    }
    Ok(())
}

#[cycle(draft)]
#[tactic(auto, using(crate::proofs::ChartParts::region_is))]
fn put_region(region: &DraftRegion, rows: &mut PlaceRows) -> Result<(), AllocError>
    ensures { IfOk result (λ _. rows.new ≡ beside rows.old (of_region region.now)) }
{
    put_region_over(region.named.at, region.states.as_slice(), rows)
}

// Puts those of a region of these states, which stands there, behind the others.
#[cycle(draft)]
fn put_region_over(
    place: usize,
    states: &[DraftState],
    rows: &mut PlaceRows,
) -> Result<(), AllocError>
    ensures { IfOk result (λ _. rows.new ≡ beside rows.old (beside (region place) (all (map of_state states.now)))) }
{
    rows.put_region(place)?;
    put_states(states, rows)
}

// Puts those of states, with all that is in them, behind the others.
#[cycle(draft)]
fn put_states(states: &[DraftState], rows: &mut PlaceRows) -> Result<(), AllocError>
    ensures { IfOk result (λ _. rows.new ≡ beside rows.old (all (map of_state states.now))) }
{
    for state in states {
        put_state(state, rows)?;
    }
    Ok(())
}

#[cycle(draft)]
fn put_state(state: &DraftState, rows: &mut PlaceRows) -> Result<(), AllocError>
    ensures { IfOk result (λ _. rows.new ≡ beside rows.old (of_state state.now)) }
{
    rows.put_state(state.named.at)?;
    put_transitions(state.transitions.as_slice(), rows)?;
    put_regions(state.regions.as_slice(), rows)
}

// Puts those of transitions and their effects behind the others.
fn put_transitions(transitions: &[DraftTransition], rows: &mut PlaceRows) -> Result<(), AllocError>
    ensures { IfOk result (λ _. rows.new ≡ beside rows.old (all (map of_transition transitions.now))) }
{
    for transition in transitions {
        rows.transitions.push(transition.at)?;
        put_effects(transition.effects.as_slice(), &mut rows.effects)?;
    }
    Ok(())
}

fn put_effects(effects: &[DraftEffect], places: &mut Items<usize>) -> Result<(), AllocError>
    ensures { IfOk result (λ _. places.new ≡ places.old ++ of_effects effects.now) }
{
    for effect in effects {
        places.push(effect.variable.at)?;
    }
    Ok(())
}
