//! How many states a piece of a chart has.

ghost use Rattle.std.specs.Prelude.{◌≡◌, ◌+◌, IfOk, map};
ghost use Rattle.node_states.specs.Nodes.{piece_of_region, piece_of_state, states_in};

use core_charts::{Region, State};
use std::alloc::AllocError;

/// The number behind so many states. Err: no memory holds a chart with so many.
pub(crate) fn past(number: u32, states: u32) -> Result<u32, AllocError>
    ensures { IfOk result (λ next. next ≡ number + states) }
{
    match number.checked_add(states) {
        Some(next) => Ok(next),
        None => Err(AllocError),
    }
}

/// The states of these regions with all that is in them. Err: no memory holds a chart with so many.
pub fn state_count(regions: &[Region]) -> Result<u32, AllocError>
    ensures { IfOk result (λ states. states ≡ states_in (map piece_of_region regions.now)) }
{
    let mut states = 0;
    for region in regions {
        states = past(states, region_states(region)?)?;
    }
    Ok(states)
}

/// The states of a region with all that is in it. Err: no memory holds a chart with so many.
#[cycle(counting)]
pub(crate) fn region_states(region: &Region) -> Result<u32, AllocError>
    ensures { IfOk result (λ states. states ≡ (piece_of_region region.now).states) }
{
    let mut states = 0;
    for state in region.states.as_slice() {
        states = past(states, state_states(state)?)?;
    }
    Ok(states)
}

/// A state and those inside it. Err: no memory holds a chart with so many.
#[cycle(counting)]
pub(crate) fn state_states(state: &State) -> Result<u32, AllocError>
    ensures { IfOk result (λ states. states ≡ (piece_of_state state.now).states) }
{
    let mut states = 1;
    for region in state.regions.as_slice() {
        states = past(states, region_states(region)?)?;
    }
    Ok(states)
}
