//! The origins of the points of regions, and of states with what is inside them.

ghost use Rattle.std.specs.Prelude.{◌≡◌, ◌++◌, IfOk, map};
ghost use Rattle.node_elements.specs.LoweringOrigins.{behind_regions, behind_states, body_of, branches};
ghost use Rattle.node_elements.specs.LoweringOrigins.{piece_of_region};
ghost use Rattle.node_elements.specs.LoweringOrigins.{piece_of_state, point_origins, texts};

use crate::lowering::behind::behind_state;
use crate::lowering::states::{put_behind_fork, put_final, put_simple};
use chart_lowering::is_wanted;
use core_charts::{CoreChart, Element, ElementNumbers, Region, State};
use sqlite_items::Items;
use std::alloc::{AllocError, Global};

/// For each point of the lowering of a core chart, in their order, the element of the chart from which it comes. Err:
/// memory was refused.
pub fn point_origins(alloc: Global, chart: &CoreChart) -> Result<Items<Element>, AllocError>
    ensures { IfOk result (λ origins. origins ≡ point_origins chart.now) }
{
    let mut origins = Items::new(alloc);
    origins.push(Element::Chart)?;
    put_regions(chart.regions(), ElementNumbers::first(), &mut origins)?;
    origins.push(Element::Chart)?;
    Ok(origins)
}

// Puts those of regions side by side behind the others: the answer is the numbers behind them.
#[cycle(text)]
fn put_regions(
    regions: &[Region],
    at: ElementNumbers,
    origins: &mut Items<Element>,
) -> Result<ElementNumbers, AllocError>
    ensures origins { IfOk result (λ _. origins.new ≡ origins.old ++ branches (map piece_of_region regions.now) at) }
    ensures behind { IfOk result (λ behind. behind ≡ behind_regions (map piece_of_region regions.now) at) }
{
    let mut here = at;
    for region in regions {
        here = put_region(region, here, origins)?;
    }
    Ok(here)
}

#[cycle(text)]
fn put_region(
    region: &Region,
    at: ElementNumbers,
    origins: &mut Items<Element>,
) -> Result<ElementNumbers, AllocError>
    ensures origins { IfOk result (λ _. origins.new ≡ origins.old ++ (piece_of_region region.now).body at) }
    ensures behind { IfOk result (λ behind. behind ≡ (piece_of_region region.now).behind at) }
{
    let states = region.states.as_slice();
    put_body(states, at.region, at.within_region()?, origins)
}

// Those of a region of these states, and of this number.
#[cycle(text)]
fn put_body(
    states: &[State],
    region: u32,
    at: ElementNumbers,
    origins: &mut Items<Element>,
) -> Result<ElementNumbers, AllocError>
    ensures origins { IfOk result (λ _. origins.new
        ≡ origins.old ++ body_of (map piece_of_state states.now) region at) }
    ensures behind { IfOk result (λ behind. behind ≡ behind_states (map piece_of_state states.now) at) }
{
    put_texts(true, states, at, origins)?;
    let behind = put_texts(false, states, at, origins)?;
    origins.push(Element::Region(region))?;
    origins.push(Element::Region(region))?;
    Ok(behind)
}

// Those of the initial states, or of the others.
#[cycle(text)]
fn put_texts(
    are_initial: bool,
    states: &[State],
    at: ElementNumbers,
    origins: &mut Items<Element>,
) -> Result<ElementNumbers, AllocError>
    ensures origins { IfOk result (λ _. origins.new
        ≡ origins.old ++ texts are_initial (map piece_of_state states.now) at) }
    ensures behind { IfOk result (λ behind. behind ≡ behind_states (map piece_of_state states.now) at) }
{
    let mut here = at;
    for state in states {
        if is_wanted(are_initial, state.is_initial) {
            put_state(state, here, origins)?;
        }
        here = behind_state(state, here)?;
    }
    Ok(here)
}

#[cycle(text)]
fn put_state(
    state: &State,
    at: ElementNumbers,
    origins: &mut Items<Element>,
) -> Result<(), AllocError>
    ensures { IfOk result (λ _. origins.new ≡ origins.old ++ (piece_of_state state.now).text at) }
{
    let own = state.transitions.as_slice();
    if state.is_final {
        return put_final(at, origins);
    }
    if !state.is_superstate() {
        return put_simple(own, at, origins);
    }
    put_final(at, origins)?;
    put_regions(state.regions.as_slice(), at.within_state(own)?, origins)?;
    put_behind_fork(own, at, origins)
}
