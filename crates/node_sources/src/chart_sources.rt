//! The origins of the nodes of the program of a chart's text.

ghost use Rattle.std.specs.Prelude.{◌≡◌, IfOk, Some, map};
ghost use Rattle.abort_expansion.specs.Expansion.{expanded};
ghost use Rattle.node_sources.specs.Read.{IsPlaced};
ghost use Rattle.compiler.specs.Charts.{IsSclOf};
ghost use Rattle.node_elements.specs.Origins.{node_elements};
ghost use Rattle.scl_graph.specs.Answers.{IsGraph};
ghost use Rattle.node_sources.specs.ChartOrigins.{chart_origins};
ghost use Rattle.node_sources.specs.Sources.{ChartSources};
ghost use Rattle.compiler.specs.Kept.{KeepsChart};

use crate::chart_origins::origins_of;
use crate::chart_places::{Places, places_of, places_tell_texts};
use crate::origin::Origin;
use compiler::ReadChart;
use core_charts::{Chart, CoreChart, Element};
use node_elements::elements_tell_nodes;
use sc_graph::Program;
use scl::Scl;
use sqlite_items::Items;
use std::alloc::{AllocError, Global};

/// The elements from which the nodes of the program of a chart come, which has this core chart and this SCL program.
/// Err: memory was refused.
#[tactic(auto, using(crate::proofs::ChartsTold::elements_are))]
pub fn elements_of(
    alloc: Global,
    chart: &Chart,
    core: &CoreChart,
    scl: &Scl,
) -> Result<Items<Option<Element>>, AllocError>
    requires same { core.now ≡ expanded chart.now }
    requires lowers { IsSclOf chart.now scl.now }
    ensures { IfOk result (λ elements. elements ≡ node_elements chart.now) }
{
    node_elements::node_elements(alloc, chart, core, scl.body.as_slice())
}

// The origins of the nodes of the program of the chart that a text spells, whose elements stand there.
#[tactic(auto, using(crate::proofs::ChartsTold::origins_are))]
fn origins_in(
    alloc: Global,
    text: &str,
    kept: &ReadChart,
    places: &Places,
    scl: &Scl,
    program: &Program,
) -> Result<Items<Origin>, AllocError>
    requires placed { IsPlaced text.now kept.now.chart places.now }
    requires kept { KeepsChart text.now scl.now kept.now }
    requires graph { IsGraph scl.now program.now }
    ensures { IfOk result (λ origins. map Some origins ≡ chart_origins kept.now.chart places.now program.now) }
{
    let elements = elements_of(alloc, &kept.chart, &kept.core, scl)?;
    elements_tell_nodes();
    places_tell_texts();
    origins_of(alloc, places, program, elements.as_slice())
}

/// The origins of the nodes of the program of a chart's text. Err: memory was refused.
#[tactic(auto, using(crate::proofs::ChartsTold::placed_in))]
pub(crate) fn origins_of_chart(
    alloc: Global,
    text: &str,
    kept: &ReadChart,
    scl: &Scl,
    program: &Program,
) -> Result<Items<Origin>, AllocError>
    requires kept { KeepsChart text.now scl.now kept.now }
    requires graph { IsGraph scl.now program.now }
    ensures { IfOk result (ChartSources text.now program.now) }
{
    let places = places_of(alloc, &kept.draft)?;
    let origins = origins_in(alloc, text, kept, &places, scl, program);
    drop(places);
    origins
}
