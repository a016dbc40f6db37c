//! Which states and transitions of a reduced chart are the author's.

ghost use Rattle.std.specs.Prelude.{◌≡◌, IfOk, map};
ghost use Rattle.core_charts.specs.Elements.{row};
ghost use Rattle.chart_reduction.specs.Rows.{before, states_in_region, states_in_state, transitions_in_region};
ghost use Rattle.chart_reduction.specs.Rows.{transitions_in_state, numbers, rows_of};

use core_charts::{Effect, Transition, next};
use extended_charts::{ExtendedRegion, ExtendedState, alone, has_some};
use sqlite_items::Items;
use std::alloc::{AllocError, Global};

/// Of each state and each transition of a reduced chart, in the order of its text, the number of the author's, if it is
/// one of his.
#[derive(Drop)]
pub struct AuthorRows {
    pub states: Items<Option<u32>>,
    pub transitions: Items<Option<u32>>,
}

/// Which states and transitions are the author's, where these regions are left without entry actions. Err: memory was
/// refused.
pub fn rows_of(alloc: Global, regions: &[ExtendedRegion]) -> Result<AuthorRows, AllocError>
    ensures { IfOk result (λ rows. rows ≡ rows_of regions.now) }
{
    let states = states_in_regions(alloc, regions)?;
    let transitions = transitions_in_regions(alloc, regions)?;
    Ok(AuthorRows {
        states: numbers(alloc, states.as_slice())?,
        transitions: numbers(alloc, transitions.as_slice())?,
    })
}

fn numbers(alloc: Global, marks: &[bool]) -> Result<Items<Option<u32>>, AllocError>
    ensures { IfOk result (λ made. made ≡ numbers 0 marks.now) }
{
    let mut made = Items::new(alloc);
    let mut number = 0;
    for is_own in marks {
        if *is_own {
            made.push(Some(number))?;
            number = next(number)?;
        } else {
            made.push(None)?;
        }
    }
    Ok(made)
}

// Before a state with entry actions stands another.
fn before(alloc: Global, entry: &[Effect]) -> Result<Items<bool>, AllocError>
    ensures { IfOk result (λ made. made ≡ before entry.now) }
{
    if has_some(entry) {
        alone(alloc, false)
    } else {
        Ok(Items::new(alloc))
    }
}

fn of_transitions(
    alloc: Global,
    is_own: bool,
    transitions: &[Transition],
) -> Result<Items<bool>, AllocError>
    ensures { IfOk result (λ made. made ≡ map (λ t. is_own) transitions.now) }
{
    let mut made = Items::new(alloc);
    for _ in transitions {
        made.push(is_own)?;
    }
    Ok(made)
}

#[cycle(states)]
fn states_in_regions(alloc: Global, regions: &[ExtendedRegion]) -> Result<Items<bool>, AllocError>
    ensures { IfOk result (λ made. made ≡ row (map states_in_region regions.now)) }
{
    let mut made = Items::new(alloc);
    for region in regions {
        made.append(states_in_region(alloc, region)?)?;
    }
    Ok(made)
}

#[cycle(states)]
fn states_in_region(alloc: Global, region: &ExtendedRegion) -> Result<Items<bool>, AllocError>
    ensures { IfOk result (λ made. made ≡ states_in_region region.now) }
{
    states_in_states(alloc, region.states.as_slice())
}

#[cycle(states)]
fn states_in_states(alloc: Global, states: &[ExtendedState]) -> Result<Items<bool>, AllocError>
    ensures { IfOk result (λ made. made ≡ row (map states_in_state states.now)) }
{
    let mut made = Items::new(alloc);
    for state in states {
        made.append(states_in_state(alloc, state)?)?;
    }
    Ok(made)
}

#[cycle(states)]
#[tactic(auto, using(crate::proofs::Folded::state_states))]
fn states_in_state(alloc: Global, state: &ExtendedState) -> Result<Items<bool>, AllocError>
    ensures { IfOk result (λ made. made ≡ states_in_state state.now) }
{
    let mut made = before(alloc, state.entry.as_slice())?;
    made.push(state.is_own)?;
    made.append(states_in_regions(alloc, state.regions.as_slice())?)?;
    Ok(made)
}

#[cycle(transitions)]
fn transitions_in_regions(
    alloc: Global,
    regions: &[ExtendedRegion],
) -> Result<Items<bool>, AllocError>
    ensures { IfOk result (λ made. made ≡ row (map transitions_in_region regions.now)) }
{
    let mut made = Items::new(alloc);
    for region in regions {
        made.append(transitions_in_region(alloc, region)?)?;
    }
    Ok(made)
}

#[cycle(transitions)]
fn transitions_in_region(alloc: Global, region: &ExtendedRegion) -> Result<Items<bool>, AllocError>
    ensures { IfOk result (λ made. made ≡ transitions_in_region region.now) }
{
    transitions_in_states(alloc, region.states.as_slice())
}

#[cycle(transitions)]
fn transitions_in_states(alloc: Global, states: &[ExtendedState]) -> Result<Items<bool>, AllocError>
    ensures { IfOk result (λ made. made ≡ row (map transitions_in_state states.now)) }
{
    let mut made = Items::new(alloc);
    for state in states {
        made.append(transitions_in_state(alloc, state)?)?;
    }
    Ok(made)
}

#[cycle(transitions)]
fn transitions_in_state(alloc: Global, state: &ExtendedState) -> Result<Items<bool>, AllocError>
    ensures { IfOk result (λ made. made ≡ transitions_in_state state.now) }
{
    let mut made = before(alloc, state.entry.as_slice())?;
    made.append(of_transitions(alloc, state.is_own, state.transitions.as_slice())?)?;
    made.append(transitions_in_regions(alloc, state.regions.as_slice())?)?;
    Ok(made)
}
