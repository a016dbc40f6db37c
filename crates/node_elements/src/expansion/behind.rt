//! Which numbers come behind a piece of a chart.

ghost use Rattle.std.specs.Prelude.{◌≡◌, IfOk, map};
ghost use Rattle.node_elements.specs.ExpansionOrigins.{initial_number, piece_of_region, piece_of_state};

use core_charts::{ElementNumbers, Region, State};
use std::alloc::AllocError;

#[cycle(numbering)]
fn behind_region(region: &Region, at: ElementNumbers) -> Result<ElementNumbers, AllocError>
    ensures { IfOk result (λ behind. behind ≡ (piece_of_region region.now).behind at) }
{
    let mut here = at.within_region()?;
    for state in region.states.as_slice() {
        here = behind_state(state, here)?;
    }
    Ok(here)
}

#[cycle(numbering)]
fn behind_state(state: &State, at: ElementNumbers) -> Result<ElementNumbers, AllocError>
    ensures { IfOk result (λ behind. behind ≡ (piece_of_state state.now).behind at) }
{
    let mut here = at.within_state(state.transitions.as_slice())?;
    for region in state.regions.as_slice() {
        here = behind_region(region, here)?;
    }
    Ok(here)
}

/// The number of the initial state, where the first state is at these numbers. Err: no memory holds a chart with so
/// many.
pub(crate) fn initial_number(states: &[State], at: ElementNumbers) -> Result<u32, AllocError>
    ensures { IfOk result (λ number. number ≡ initial_number (map piece_of_state states.now) at) }
{
    let mut here = at;
    for state in states {
        if state.is_initial {
            return Ok(here.state);
        }
        here = behind_state(state, here)?;
    }
    Ok(here.state)
}
