//! From a chart to what runs it.

ghost use Rattle.std.specs.Prelude.{◌≡◌, IfErr, IfOk};
ghost use Rattle.core_charts.specs.declared.features.Features.TheVariants as features;
ghost use Rattle.core_charts.specs.Rules.{IsChart};
ghost use Rattle.abort_expansion.specs.Answers.{LacksCore};
ghost use Rattle.node_states.specs.Nodes.{state_count, state_of_node};
ghost use Rattle.node_states.specs.StandsFor.{composed, stands_for};
ghost use Rattle.compiler.specs.Charts.{ChartLacksImage};
ghost use Rattle.compiled_charts.specs.Compiled.{IsCompiledChart};

use crate::compiled::Compiled;
use abort_expansion::{ExpandFault, StateMap, expand};
use compiler::CompileFault;
use core_charts::{Chart, CoreChart};
use node_states::{stands_for, state_count};
use sqlite_items::Items;
use std::alloc::{AllocError, Global};

/// A chart, compiled for running. Err: it has no image (E07, E14, E11, E13, E12), for the first
/// reason in the order of the passes; or memory was refused.
pub fn compile_chart(alloc: Global, chart: &Chart) -> Result<Compiled, CompileFault>
    ensures compiled { IfOk result (IsCompiledChart chart.now) }
    ensures refused { IfErr result (ChartLacksImage chart.now) }
{
    let verified = compiler::compile_chart(alloc, chart)?;
    match states_of(alloc, chart) {
        Ok((states, nodes)) => Ok(Compiled::known(verified, states, nodes)),
        Err(fault) => {
            drop(verified);
            Err(CompileFault::Expansion(fault))
        }
    }
}

// How many states a chart has, and for which of them each node of its image stands.
fn states_of(alloc: Global, chart: &Chart) -> Result<(u32, Items<Option<u32>>), ExpandFault>
    ensures rules { IfOk result (λ _. IsChart features.Extended chart.now) }
    ensures states { IfOk result (λ found. found.0 ≡ state_count chart.now) }
    ensures nodes { IfOk result (λ found. found.1 ≡ stands_for chart.now) }
    ensures refused { IfErr result (LacksCore chart.now) }
{
    let (core, map) = expand(alloc, chart)?;
    Ok(states_past(alloc, chart, &core, &map)?)
}

// The same, where this is its core chart.
fn states_past(
    alloc: Global,
    chart: &Chart,
    core: &CoreChart,
    map: &StateMap,
) -> Result<(u32, Items<Option<u32>>), AllocError>
    ensures rules { IfOk result (λ _. IsChart features.Extended chart.now) }
    ensures states { IfOk result (λ found. found.0 ≡ state_count chart.now) }
    ensures nodes { IfOk result (λ found. found.1 ≡ composed (state_of_node core.now) map.now.states) }
{
    let states = state_count(chart.regions())?;
    let nodes = stands_for(alloc, core, map)?;
    Ok((states, nodes))
}
