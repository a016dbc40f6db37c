//! Extended charts reduced to charts.

ghost use Rattle.std.specs.Prelude.{◌≡◌, IfOk, MatchResult, SomeIff, map};
ghost use Rattle.core_charts.specs.declared.features.Features.TheVariants as features;
ghost use Rattle.core_charts.specs.Rules.{IsChart};
ghost use Rattle.chart_reduction.specs.Reduction.{with_variables, with_entry, chart_of, IsReduction, LacksChart};

use crate::entries::{with_exits, with_histories, without_entry};
use crate::fault::ReduceFault;
use crate::rows::{AuthorRows, rows_of};
use crate::values::{
    with_clocks, with_counts, with_endings, with_registers, with_settings, without_constants,
};
use core_charts::Chart;
use extended_charts::{Declared, ExtendedChart, with_durings, with_holds, with_signals};
use sc_graph::Variable;
use sqlite_items::Items;
use std::alloc::{AllocError, Global};

/// The chart to which an extended chart is reduced, and which of its parts are the author's. `Limit`: it would break a
/// rule or a limit of charts.
pub fn reduce(alloc: Global, chart: &ExtendedChart) -> Result<(Chart, AuthorRows), ReduceFault>
    ensures { MatchResult result (λ made. IsReduction chart.now made.0 made.1) (LacksChart chart.now) }
{
    let left = with_entry(alloc, chart)?;
    let rows = rows_of(alloc, left.regions.as_slice())?;
    match chart_of(alloc, &left)? {
        Some(chart) => Ok((chart, rows)),
        None => Err(ReduceFault::Limit),
    }
}

// The chart whose triggers and effects name nothing but variables, ticks and counts.
fn with_variables(alloc: Global, chart: &ExtendedChart) -> Result<ExtendedChart, AllocError>
    ensures { IfOk result (λ made. made ≡ with_variables chart.now) }
{
    let valued = without_constants(alloc, chart)?;
    let signalled = with_signals(alloc, valued)?;
    with_registers(alloc, signalled)
}

// The chart that has nothing but entry actions left.
fn with_entry(alloc: Global, chart: &ExtendedChart) -> Result<ExtendedChart, AllocError>
    ensures { IfOk result (λ made. made ≡ with_entry chart.now) }
{
    let named = with_variables(alloc, chart)?;
    let recalling = with_histories(alloc, named)?;
    let ending = with_endings(alloc, recalling)?;
    let acting = with_durings(alloc, ending)?;
    let counted = with_counts(alloc, acting)?;
    let clocked = with_clocks(alloc, counted)?;
    let left = with_exits(alloc, clocked)?;
    let held = with_holds(alloc, left)?;
    with_settings(alloc, held)
}

// The chart of one that has nothing but entry actions. None: it breaks a rule or a limit of charts.
fn chart_of(alloc: Global, chart: &ExtendedChart) -> Result<Option<Chart>, AllocError>
    ensures { IfOk result (λ made. SomeIff made (IsChart features.Extended (chart_of chart.now)) (chart_of chart.now)) }
{
    let regions = without_entry(alloc, chart.regions.as_slice())?;
    let variables = variables(alloc, chart.variables.as_slice())?;
    Chart::of(alloc, chart.name, variables, regions)
}

fn variables(alloc: Global, declared: &[Declared]) -> Result<Items<Variable>, AllocError>
    ensures { IfOk result (λ made. made ≡ map (λ d. d.variable) declared.now) }
{
    let mut made = Items::new(alloc);
    for one in declared {
        made.push(one.variable)?;
    }
    Ok(made)
}
