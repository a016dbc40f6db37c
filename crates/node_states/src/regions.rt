//! The nodes of regions, with all that is inside them.

ghost use Rattle.std.specs.Prelude.{◌≡◌, ◌++◌, IfOk, map};
ghost use Rattle.node_states.specs.Nodes.{below_among, beside, forked, own_among, piece_of_region, piece_of_state};
ghost use Rattle.node_states.specs.Nodes.{region_over, state_of_node, thread};

use crate::counting::{past, region_states, state_states};
use crate::states::lay_state;
use chart_lowering::is_wanted;
use core_charts::{CoreChart, Region, State};
use sqlite_items::Items;
use std::alloc::{AllocError, Global};

/// For each node of the graph of a core chart's lowering, in their order, the number of the state in which a
/// thread is that rests there. Err: memory was refused.
pub fn state_of_node(alloc: Global, chart: &CoreChart) -> Result<Items<Option<u32>>, AllocError>
    ensures { IfOk result (λ nodes. nodes ≡ state_of_node chart.now) }
{
    let mut nodes = Items::new(alloc);
    nodes.push(None)?;
    nodes.push(None)?;
    nodes.push(None)?;
    lay_regions(chart.regions(), 0, &mut nodes)?;
    Ok(nodes)
}

// The nodes of regions side by side, whose first state has this number.
#[cycle(nodes)]
fn lay_regions(
    regions: &[Region],
    number: u32,
    nodes: &mut Items<Option<u32>>,
) -> Result<(), AllocError>
    ensures { IfOk result (λ _. nodes.new ≡ nodes.old ++ beside (map piece_of_region regions.now) number) }
{
    let mut next = number;
    for region in regions {
        lay_region(region, next, nodes)?;
        next = past(next, region_states(region)?)?;
    }
    Ok(())
}

// The nodes of a region, whose first state has this number.
#[cycle(nodes)]
fn lay_region(
    region: &Region,
    number: u32,
    nodes: &mut Items<Option<u32>>,
) -> Result<(), AllocError>
    ensures { IfOk result (λ _. nodes.new ≡ nodes.old ++ (piece_of_region region.now).nodes number) }
{
    let states = region.states.as_slice();
    lay_states(states, number, nodes)
}

// The nodes of a region of these states: its thread, and behind it the threads below it.
#[cycle(nodes)]
fn lay_states(
    states: &[State],
    number: u32,
    nodes: &mut Items<Option<u32>>,
) -> Result<(), AllocError>
    ensures { IfOk result (λ _. nodes.new ≡ nodes.old ++ region_over (map piece_of_state states.now) number) }
{
    lay_thread(states, number, nodes)?;
    lay_forked(states, number, nodes)
}

// The nodes of the thread of a region of these states: the initial one, the others in order, and the end.
fn lay_thread(
    states: &[State],
    number: u32,
    nodes: &mut Items<Option<u32>>,
) -> Result<(), AllocError>
    ensures { IfOk result (λ _. nodes.new ≡ nodes.old ++ thread (map piece_of_state states.now) number) }
{
    lay_own(true, states, number, nodes)?;
    lay_own(false, states, number, nodes)?;
    nodes.push(None)
}

// The nodes of the threads below it.
#[cycle(nodes)]
fn lay_forked(
    states: &[State],
    number: u32,
    nodes: &mut Items<Option<u32>>,
) -> Result<(), AllocError>
    ensures { IfOk result (λ _. nodes.new ≡ nodes.old ++ forked (map piece_of_state states.now) number) }
{
    lay_below(true, states, number, nodes)?;
    lay_below(false, states, number, nodes)
}

// The nodes of the initial states, or of the others, in the thread of their region.
fn lay_own(
    are_initial: bool,
    states: &[State],
    number: u32,
    nodes: &mut Items<Option<u32>>,
) -> Result<(), AllocError>
    ensures { IfOk result (λ _. nodes.new ≡ nodes.old ++ own_among are_initial (map piece_of_state states.now) number) }
{
    let mut next = number;
    for state in states {
        if is_wanted(are_initial, state.is_initial) {
            lay_state(state, next, nodes)?;
        }
        next = past(next, state_states(state)?)?;
    }
    Ok(())
}

// The nodes of the threads that they fork.
#[cycle(nodes)]
fn lay_below(
    are_initial: bool,
    states: &[State],
    number: u32,
    nodes: &mut Items<Option<u32>>,
) -> Result<(), AllocError>
    ensures { IfOk result (λ _. nodes.new
        ≡ nodes.old ++ below_among are_initial (map piece_of_state states.now) number) }
{
    let mut next = number;
    for state in states {
        if is_wanted(are_initial, state.is_initial) {
            lay_inside(state, next, nodes)?;
        }
        next = past(next, state_states(state)?)?;
    }
    Ok(())
}

// The nodes of the threads that a state forks.
#[cycle(nodes)]
fn lay_inside(state: &State, number: u32, nodes: &mut Items<Option<u32>>) -> Result<(), AllocError>
    ensures { IfOk result (λ _. nodes.new ≡ nodes.old ++ (piece_of_state state.now).below number) }
{
    if state.is_final {
        return Ok(());
    }
    lay_regions(state.regions.as_slice(), past(number, 1)?, nodes)
}
