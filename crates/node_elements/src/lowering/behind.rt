//! Which numbers come behind a piece of a chart.

ghost use Rattle.std.specs.Prelude.{◌≡◌, IfOk, map};
ghost use Rattle.core_charts.specs.Numbers.{first};
ghost use Rattle.node_elements.specs.LoweringOrigins.{behind_regions, piece_of_region, piece_of_state};

use core_charts::{ElementNumbers, Region, State};
use std::alloc::AllocError;

/// How many elements of each sort these regions have, with all that is in them. Err: no memory holds a chart with so
/// many.
pub fn counted(regions: &[Region]) -> Result<ElementNumbers, AllocError>
    ensures { IfOk result (λ numbers. numbers ≡ behind_regions (map piece_of_region regions.now) first) }
{
    let mut here = ElementNumbers::first();
    for region in regions {
        here = behind_region(region, here)?;
    }
    Ok(here)
}

#[cycle(numbering)]
fn behind_region(region: &Region, at: ElementNumbers) -> Result<ElementNumbers, AllocError>
    ensures { IfOk result (λ behind. behind ≡ (piece_of_region region.now).behind at) }
{
    let mut here = at.within_region()?;
    for state in region.states.as_slice() {
        here = behind_state(state, here)?;
    }
    Ok(here)
}

/// The numbers behind a state with all that is in it. Err: no memory holds a chart with so many.
#[cycle(numbering)]
pub(crate) fn behind_state(state: &State, at: ElementNumbers) -> Result<ElementNumbers, AllocError>
    ensures { IfOk result (λ behind. behind ≡ (piece_of_state state.now).behind at) }
{
    let mut here = at.within_state(state.transitions.as_slice())?;
    for region in state.regions.as_slice() {
        here = behind_region(region, here)?;
    }
    Ok(here)
}
