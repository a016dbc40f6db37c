//! Charts, expanded.

ghost use Rattle.std.specs.Prelude.{◌≡◌, ◌+◌, ◌≤◌, ◌^◌, map, length, IfOk, MatchResult};
ghost use Rattle.abort_expansion.specs.Answers.{IsExpansion, LacksCore};
ghost use Rattle.abort_expansion.specs.Pieces.{superstates_in};
ghost use Rattle.abort_expansion.specs.Expansion.{IsExpandable, expanded, piece_of_region, whole};

use crate::counting::regions_size;
use crate::fault::ExpandFault;
use crate::pieces::NextNumbers;
use crate::regions::expanded_regions;
use crate::state_map::StateMap;
use core_charts::{Chart, CoreChart};
use sc_graph::{VARIABLE_LIMIT, Variable};
use sqlite_items::Items;
use std::alloc::{AllocError, Global};

/// The core chart of a chart, and for which states of the chart those of the core chart stand. `Limit`: with
/// the variables that expansion adds the chart has more than a program may; regions of a superstate are never too
/// many.
pub fn expand(alloc: Global, chart: &Chart) -> Result<(CoreChart, StateMap), ExpandFault>
    ensures { MatchResult result (λ made. IsExpansion chart.now made.0 made.1) (LacksCore chart.now) }
{
    if core_variables(chart)? > VARIABLE_LIMIT {
        return Err(ExpandFault::Limit);
    }
    Ok(expanded(alloc, chart)?)
}

// How many variables its core chart has. Err: no memory holds a chart with so many superstates.
#[tactic(auto, using(crate::proofs::Whole::as_many_variables))]
fn core_variables(chart: &Chart) -> Result<usize, AllocError>
    ensures count { IfOk result (λ n. n ≡ length (expanded chart.now).variables) }
    ensures few { IfOk result (λ _. 1 + superstates_in (map piece_of_region chart.now.regions) ≤ 2 ^ 64) }
{
    let size = regions_size(chart.regions())?;
    Ok(chart.variables().len() + size.variables as usize)
}

// The expansion of a chart that has one.
fn expanded(alloc: Global, chart: &Chart) -> Result<(CoreChart, StateMap), AllocError>
    requires few { 1 + superstates_in (map piece_of_region chart.now.regions) ≤ 2 ^ 64 }
    requires fits { IsExpandable chart.now }
    ensures { IfOk result (λ made. IsExpansion chart.now made.0 made.1) }
{
    let declared = chart.variables();
    let whole = whole(declared)?;
    let made = expanded_regions(alloc, chart.regions(), &[], None, whole)?;
    let mut variables = Items::from_slice(alloc, declared)?;
    variables.append(made.variables)?;
    let core = CoreChart::known(chart.name(), variables, made.regions);
    Ok((
        core,
        StateMap {
            states: made.stands_for,
        },
    ))
}

// Where nothing is expanded yet, behind the declared variables. Err: no memory holds so many.
fn whole(declared: &[Variable]) -> Result<NextNumbers, AllocError>
    ensures { IfOk result (λ at. at ≡ whole (length declared.now)) }
{
    match u32::try_from(declared.len()) {
        Ok(variable) => Ok(NextNumbers {
            superstate: 1,
            variable,
            state: 0,
        }),
        Err(_) => Err(AllocError),
    }
}
