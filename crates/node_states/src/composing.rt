//! Past the core chart: for which state of a chart each node of its program stands.

ghost use Rattle.std.specs.Prelude.{◌≡◌, IfOk};
ghost use Rattle.node_states.specs.Nodes.{state_of_node};
ghost use Rattle.node_states.specs.StandsFor.{composed, past_core};

use crate::regions::state_of_node;
use abort_expansion::StateMap;
use core_charts::CoreChart;
use sqlite_items::Items;
use std::alloc::{AllocError, Global};

/// For each node of the graph of a core chart's lowering, in their order, the number of the chart's state in
/// which a thread is that rests there, where the states of the core chart stand for these. Err: memory was
/// refused.
pub fn stands_for(
    alloc: Global,
    core: &CoreChart,
    states: &StateMap,
) -> Result<Items<Option<u32>>, AllocError>
    ensures { IfOk result (λ nodes. nodes ≡ composed (state_of_node core.now) states.now.states) }
{
    let of_core = state_of_node(alloc, core)?;
    let mut nodes = Items::new(alloc);
    for node in of_core.as_slice() {
        nodes.push(past_core(states, *node))?;
    }
    Ok(nodes)
}

// The chart's state for which a core state stands, if there is one.
fn past_core(states: &StateMap, core: Option<u32>) -> Option<u32>
    ensures { result ≡ past_core states.now.states core }
{
    match core {
        Some(core) => states.chart_state(core),
        None => None,
    }
}
