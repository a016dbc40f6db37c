//! In which state and region the elements of a chart stand: one walk over its draft, in the order of their numbers.

ghost use Rattle.std.specs.Prelude.{◌≡◌, ◌++◌, IfOk, OnOk, map};
ghost use Rattle.node_sources.specs.StatesAround.{all, beside, in_row, nothing, of_effects, of_region, of_state};
ghost use Rattle.node_sources.specs.StatesAround.{of_transitions, states_around_of, state};

use chart_reader::{DraftChart, DraftEffect, DraftRegion, DraftState, DraftTransition};
use sqlite_items::Items;
use std::alloc::{AllocError, Global};

/// A state of a text: where the name of its region stands, and where its own one does.
#[derive(Clone, Copy)]
pub struct StateAround {
    pub region: usize,
    pub state: usize,
}

/// In which state the elements of a chart stand, of each sort in the order of their numbers: each state in itself, a
/// transition and its effects in the state that it leaves.
#[derive(Drop)]
pub struct StatesAround {
    pub states: Items<StateAround>,
    pub transitions: Items<StateAround>,
    pub effects: Items<StateAround>,
}

impl StatesAround {
    // Of no element yet.
    fn none(alloc: Global) -> StatesAround
        ensures { result ≡ nothing }
    {
        StatesAround {
            states: Items::new(alloc),
            transitions: Items::new(alloc),
            effects: Items::new(alloc),
        }
    }

    // Puts that of a state behind the others. Err: memory was refused.
    fn put_state(&mut self, around: StateAround) -> Result<(), AllocError>
        ensures { OnOk result (self.new ≡ beside self.old (state around)) }
    {
        self.states.push(around)
    }
}

/// In which states of a text the elements of the chart that its draft is stand. Err: memory was refused.
pub fn states_around_of(alloc: Global, draft: &DraftChart) -> Result<StatesAround, AllocError>
    ensures { IfOk result (λ states_around. states_around ≡ states_around_of draft.now) }
{
    let mut states_around = StatesAround::none(alloc);
    put_regions(draft.regions.as_slice(), &mut states_around)?;
    Ok(states_around)
}

// Puts those in regions behind the others.
#[cycle(states_around)]
fn put_regions(regions: &[DraftRegion], states_around: &mut StatesAround) -> Result<(), AllocError>
    ensures { IfOk result (λ _. states_around.new ≡ beside states_around.old (all (map of_region regions.now))) }
{
    for region in regions {
        put_region(region, states_around)?;
    }
    Ok(())
}

#[cycle(states_around)]
#[tactic(auto, using(crate::proofs::ChartParts::states_around_in_region))]
fn put_region(region: &DraftRegion, states_around: &mut StatesAround) -> Result<(), AllocError>
    ensures { IfOk result (λ _. states_around.new ≡ beside states_around.old (of_region region.now)) }
{
    put_states(region.named.at, region.states.as_slice(), states_around)
}

// Puts those of states behind the others, with all that is in them, in a region whose name stands there.
#[cycle(states_around)]
fn put_states(
    region: usize,
    states: &[DraftState],
    states_around: &mut StatesAround,
) -> Result<(), AllocError>
    ensures { IfOk result
        (λ _. states_around.new ≡ beside states_around.old (in_row (map of_state states.now) region)) }
{
    for state in states {
        put_state(region, state, states_around)?;
    }
    Ok(())
}

#[cycle(states_around)]
fn put_state(
    region: usize,
    state: &DraftState,
    states_around: &mut StatesAround,
) -> Result<(), AllocError>
    ensures { IfOk result (λ _. states_around.new ≡ beside states_around.old (of_state state.now region)) }
{
    let around = StateAround {
        region,
        state: state.named.at,
    };
    states_around.put_state(around)?;
    put_transitions(around, state.transitions.as_slice(), states_around)?;
    put_regions(state.regions.as_slice(), states_around)
}

// Puts those of the transitions of a state and of their effects behind the others.
fn put_transitions(
    around: StateAround,
    transitions: &[DraftTransition],
    states_around: &mut StatesAround,
) -> Result<(), AllocError>
    ensures { IfOk result (λ _. states_around.new ≡ beside states_around.old (of_transitions around transitions.now)) }
{
    for transition in transitions {
        states_around.transitions.push(around)?;
        put_effects(
            around,
            transition.effects.as_slice(),
            &mut states_around.effects,
        )?;
    }
    Ok(())
}

fn put_effects(
    around: StateAround,
    effects: &[DraftEffect],
    states_around: &mut Items<StateAround>,
) -> Result<(), AllocError>
    ensures { IfOk result (λ _. states_around.new ≡ states_around.old ++ of_effects around effects.now) }
{
    for _ in effects {
        states_around.push(around)?;
    }
    Ok(())
}
