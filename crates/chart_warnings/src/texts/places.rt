//! Where the elements of a chart stand in its text of which warnings speak.

ghost use Rattle.std.specs.Prelude.{◌≡◌, ◌++◌, IfOk, map};
ghost use Rattle.chart_warnings.specs.Places.{at_number, of_region, of_regions, of_state, place_of};
ghost use Rattle.chart_warnings.specs.Places.{places_of, row, state_at};

use crate::Warning;
use chart_reader::{DraftChart, DraftRegion, DraftState, DraftTransition};
use sc_text::Declaration;
use sqlite_items::{Items, at};
use std::alloc::{AllocError, Global};

/// Where a state stands, by its name; its transitions, by their words; and the regions inside it, by their names.
#[derive(Drop)]
pub struct StatePlaces {
    pub name: usize,
    pub transitions: Items<usize>,
    pub regions: Items<usize>,
}

/// Where the variables of a chart stand, by their names, and its states, in the order of the text.
#[derive(Drop)]
pub struct ChartPlaces {
    pub variables: Items<usize>,
    pub states: Items<StatePlaces>,
}

/// The places of the chart that a draft is. Err: memory was refused.
pub fn places_of(alloc: Global, draft: &DraftChart) -> Result<ChartPlaces, AllocError>
    ensures { IfOk result (λ places. places ≡ places_of draft.now) }
{
    let variables = variable_places(alloc, draft.variables.as_slice())?;
    let mut states = Items::new(alloc);
    put_regions(alloc, draft.regions.as_slice(), &mut states)?;
    Ok(ChartPlaces { variables, states })
}

fn variable_places(alloc: Global, variables: &[Declaration]) -> Result<Items<usize>, AllocError>
    ensures { IfOk result (λ places. places ≡ map (λ v. v.named.at) variables.now) }
{
    let mut places = Items::new(alloc);
    for variable in variables {
        places.push(variable.named.at)?;
    }
    Ok(places)
}

fn transition_places(
    alloc: Global,
    transitions: &[DraftTransition],
) -> Result<Items<usize>, AllocError>
    ensures { IfOk result (λ places. places ≡ map (λ t. t.at) transitions.now) }
{
    let mut places = Items::new(alloc);
    for transition in transitions {
        places.push(transition.at)?;
    }
    Ok(places)
}

#[tactic(auto, using(crate::proofs::Parts::region_at))]
fn region_places(alloc: Global, regions: &[DraftRegion]) -> Result<Items<usize>, AllocError>
    ensures { IfOk result (λ places. places ≡ map (λ r. r.at) (map of_region regions.now)) }
{
    let mut places = Items::new(alloc);
    for region in regions {
        places.push(region.named.at)?;
    }
    Ok(places)
}

// Puts the states of regions, with all that is in them, behind the others.
#[cycle(draft)]
fn put_regions(
    alloc: Global,
    regions: &[DraftRegion],
    places: &mut Items<StatePlaces>,
) -> Result<(), AllocError>
    ensures { IfOk result (λ _. places.new ≡ places.old ++ of_regions regions.now) }
{
    for region in regions {
        put_region(alloc, region, places)?;
    }
    Ok(())
}

#[cycle(draft)]
#[tactic(auto, using(crate::proofs::Parts::states_in))]
fn put_region(
    alloc: Global,
    region: &DraftRegion,
    places: &mut Items<StatePlaces>,
) -> Result<(), AllocError>
    ensures { IfOk result (λ _. places.new ≡ places.old ++ (of_region region.now).states) }
{
    put_states(alloc, region.states.as_slice(), places)
}

// Puts states, with all that is in them, behind the others.
#[cycle(draft)]
fn put_states(
    alloc: Global,
    states: &[DraftState],
    places: &mut Items<StatePlaces>,
) -> Result<(), AllocError>
    ensures { IfOk result (λ _. places.new ≡ places.old ++ row (map of_state states.now)) }
{
    for state in states {
        put_state(alloc, state, places)?;
    }
    Ok(())
}

#[cycle(draft)]
fn put_state(
    alloc: Global,
    state: &DraftState,
    places: &mut Items<StatePlaces>,
) -> Result<(), AllocError>
    ensures { IfOk result (λ _. places.new ≡ places.old ++ of_state state.now) }
{
    let transitions = transition_places(alloc, state.transitions.as_slice())?;
    let regions = region_places(alloc, state.regions.as_slice())?;
    places.push(StatePlaces {
        name: state.named.at,
        transitions,
        regions,
    })?;
    put_regions(alloc, state.regions.as_slice(), places)
}

fn at_number(places: &[usize], number: usize) -> usize
    ensures { result ≡ at_number places.now number }
{
    match at(places, number) {
        Some(place) => *place,
        None => 0,
    }
}

impl ChartPlaces {
    /// Where the name of a state stands; where there is none of this number, the first place.
    pub(crate) fn state(&self, number: usize) -> usize
        ensures { result ≡ (state_at self.now number).name }
    {
        match at(self.states.as_slice(), number) {
            Some(state) => state.name,
            None => 0,
        }
    }

    /// Where a transition of a state stands; where there is none of these numbers, the first place.
    pub(crate) fn transition(&self, state: usize, number: usize) -> usize
        ensures { result ≡ at_number (state_at self.now state).transitions number }
    {
        match at(self.states.as_slice(), state) {
            Some(state) => at_number(state.transitions.as_slice(), number),
            None => 0,
        }
    }

    /// Where the name of a region of a state stands; where there is none of these numbers, the first place.
    pub(crate) fn region(&self, state: usize, number: usize) -> usize
        ensures { result ≡ at_number (state_at self.now state).regions number }
    {
        match at(self.states.as_slice(), state) {
            Some(state) => at_number(state.regions.as_slice(), number),
            None => 0,
        }
    }

    /// Where the name of a variable stands; where there is none of this number, the first place.
    pub(crate) fn variable(&self, number: usize) -> usize
        ensures { result ≡ at_number self.now.variables number }
    {
        at_number(self.variables.as_slice(), number)
    }

    /// The place of a warning.
    pub(crate) fn place_of(&self, warning: Warning) -> usize
        ensures { result ≡ place_of self.now warning }
    {
        match warning {
            Warning::StaysOn {
                state,
                transition,
                ..
            }
            | Warning::Forestalled { state, transition } => self.transition(state, transition),
            Warning::Unreached { state } | Warning::NeverLeft { state } => self.state(state),
            Warning::NeverRead { variable } | Warning::NeverSet { variable } => {
                self.variable(variable)
            }
            Warning::NeverAsked { input } => self.variable(input),
            Warning::NeverEnded { state, region, .. } => self.region(state, region),
        }
    }
}
