//! The numbers of states and regions, which are counted in the order of the text. Where they are too many to be
//! numbered, no memory holds their rows: this counts as refused memory.

ghost use Rattle.std.specs.Prelude.{◌≡◌, ◌+◌, IfOk, map};
ghost use Rattle.chart_machine.specs.Table.{region_numbers, regions_in_initial, state_numbers};
ghost use Rattle.chart_machine.specs.Table.{subtree_of_region, subtree_of_state};

use core_charts::{Region, State};
use sqlite_items::Items;
use std::alloc::{AllocError, Global};

// Two numbers together.
fn sum(one: usize, other: usize) -> Result<usize, AllocError>
    ensures { IfOk result (λ n. n ≡ one + other) }
{
    match one.checked_add(other) {
        Some(both) => Ok(both),
        None => Err(AllocError),
    }
}

// The first number behind that of a state and those of the states in it.
#[cycle(states)]
pub(crate) fn past_states(state: &State, next: usize) -> Result<usize, AllocError>
    ensures { IfOk result (λ n. n ≡ next + (subtree_of_state state.now).states) }
{
    let mut past = sum(next, 1)?;
    for region in state.regions.as_slice() {
        past = past_states_of_region(region, past)?;
    }
    Ok(past)
}

// The first number behind those of the states in a region.
#[cycle(states)]
pub(crate) fn past_states_of_region(region: &Region, next: usize) -> Result<usize, AllocError>
    ensures { IfOk result (λ n. n ≡ next + (subtree_of_region region.now).states) }
{
    let mut past = next;
    for state in region.states.as_slice() {
        past = past_states(state, past)?;
    }
    Ok(past)
}

// The first number behind those of the regions in a state.
#[cycle(regions)]
pub(crate) fn past_regions(state: &State, next: usize) -> Result<usize, AllocError>
    ensures { IfOk result (λ n. n ≡ next + (subtree_of_state state.now).regions) }
{
    let mut past = next;
    for region in state.regions.as_slice() {
        past = past_region(region, past)?;
    }
    Ok(past)
}

// The first number behind that of a region and those of the regions in it.
#[cycle(regions)]
pub(crate) fn past_region(region: &Region, next: usize) -> Result<usize, AllocError>
    ensures { IfOk result (λ n. n ≡ next + (subtree_of_region region.now).regions) }
{
    let mut past = sum(next, 1)?;
    for state in region.states.as_slice() {
        past = past_regions(state, past)?;
    }
    Ok(past)
}

// The first number behind those of the regions in the initial ones of these states.
pub(crate) fn past_initial(states: &[State], next: usize) -> Result<usize, AllocError>
    ensures { IfOk result (λ n. n ≡ next + regions_in_initial (map subtree_of_state states.now)) }
{
    let mut next = next;
    for state in states {
        if state.is_initial {
            next = past_regions(state, next)?;
        }
    }
    Ok(next)
}

pub(crate) fn state_numbers(
    alloc: Global,
    states: &[State],
    from: usize,
) -> Result<Items<usize>, AllocError>
    ensures { IfOk result (λ numbers. numbers ≡ state_numbers (map subtree_of_state states.now) from) }
{
    let mut next = from;
    let mut numbers = Items::new(alloc);
    for state in states {
        numbers.push(next)?;
        next = past_states(state, next)?;
    }
    Ok(numbers)
}

pub(crate) fn region_numbers(
    alloc: Global,
    regions: &[Region],
    from: usize,
) -> Result<Items<usize>, AllocError>
    ensures { IfOk result (λ numbers. numbers ≡ region_numbers (map subtree_of_region regions.now) from) }
{
    let mut next = from;
    let mut numbers = Items::new(alloc);
    for region in regions {
        numbers.push(next)?;
        next = past_region(region, next)?;
    }
    Ok(numbers)
}
