//! The SCL of a chart.

ghost use Rattle.std.specs.Prelude.{◌≡◌, not, is_some, IfOk, IfSome, map};
ghost use Rattle.core_charts.specs.Aborts.{chart_has_aborts};
ghost use Rattle.chart_lowering.specs.Inside.SomeChart.{IsSomeChart};
ghost use Rattle.chart_lowering.specs.Lowering.{piece_of_region, root, lowered};

use crate::regions::branches_of;
use core_charts::{Chart, CoreChart, Region, chart_has_aborts};
use sc_graph::Variable;
use sc_values::Name;
use scl::{Scl, Statement};
use sqlite_items::Items;
use std::alloc::{AllocError, Global};

/// The SCL program of a core chart. Err: memory was refused, or the text would have more labels than any
/// memory holds.
pub fn lower(alloc: Global, chart: &CoreChart) -> Result<Scl, AllocError>
    ensures name { IfOk result (λ text. text.name ≡ chart.now.name) }
    ensures variables { IfOk result (λ text. text.variables ≡ chart.now.variables) }
    ensures body { IfOk result (λ text. text.body ≡ lowered chart.now) }
{
    program(alloc, chart.name(), chart.variables(), chart.regions())
}

/// The SCL program of a chart without strong and weak aborts, which is a core chart as it stands. None: it
/// has some. Err: memory was refused, or the text would have more labels than any memory holds.
pub fn lower_without_aborts(alloc: Global, chart: &Chart) -> Result<Option<Scl>, AllocError>
    ensures variant { IfOk result (λ made. is_some made ≡ not (chart_has_aborts chart.now)) }
    ensures name { IfOk result (λ made. IfSome made (λ text. text.name ≡ chart.now.name)) }
    ensures variables { IfOk result (λ made. IfSome made (λ text. text.variables ≡ chart.now.variables)) }
    ensures body { IfOk result (λ made. IfSome made (λ text. text.body ≡ lowered chart.now)) }
{
    if chart_has_aborts(chart) {
        return Ok(None);
    }
    let text = program(alloc, chart.name(), chart.variables(), chart.regions())?;
    Ok(Some(text))
}

// The program of a chart of these parts.
fn program(
    alloc: Global,
    name: Name,
    variables: &[Variable],
    regions: &[Region],
) -> Result<Scl, AllocError>
    requires { IsSomeChart (record { name = name; variables = variables.now; regions = regions.now }) }
    ensures name { IfOk result (λ text. text.name ≡ name) }
    ensures variables { IfOk result (λ text. text.variables ≡ variables.now) }
    ensures body { IfOk result (λ text. text.body ≡ root (map piece_of_region regions.now)) }
{
    let forked = branches_of(alloc, regions, 1)?;
    let mut body = Items::new(alloc);
    body.push(Statement::Fork {
        branches: forked.bodies,
    })?;
    let declared = Items::from_slice(alloc, variables)?;
    Ok(Scl::known(name, declared, body))
}
