//! Reading a text of a chart, with places.

ghost use Rattle.std.specs.Prelude.{Err, IfErr, IfOk, Ok};
ghost use Rattle.chart_reader.specs.Checked.{IsSound, IsTextFault};
ghost use Rattle.chart_reader.specs.Laws.{IsExact};
ghost use Rattle.node_sources.specs.Read.{IsPlaced};

use crate::chart_places::places::Places;
use crate::chart_places::rows::places_of;
use chart_reader::{DraftChart, chart_of, read_checked};
use core_charts::Chart;
use sc_text::ReadFault;
use std::alloc::{AllocError, Global};

/// The chart that a text spells, and where its elements stand in the text.
#[derive(Drop)]
pub struct Placed {
    pub chart: Chart,
    pub places: Places,
}

/// The chart that a text spells, as `read_chart` reads it, and where its elements stand. Err: the fault of the text, as
/// `read_chart` tells it; or memory was refused.
pub fn read_placed(alloc: Global, text: &str) -> Result<Placed, ReadFault>
    ensures ok { IfOk result (λ placed. IsPlaced text.now placed.chart placed.places) }
    ensures fault { IfErr result (λ fault. IsTextFault text.now fault) }
{
    let draft = read_checked(alloc, text)?;
    let placed = placed_of(alloc, text, &draft);
    drop(draft);
    Ok(placed?)
}

// The chart of this draft of the text, and where its elements stand.
fn placed_of(alloc: Global, text: &str, draft: &DraftChart) -> Result<Placed, AllocError>
    requires { IsSound text.now draft.now }
    ensures { IfOk result (λ placed. IsPlaced text.now placed.chart placed.places) }
{
    let places = places_of(alloc, draft)?;
    match chart_of(alloc, draft) {
        Ok(chart) => Ok(Placed { chart, places }),
        Err(error) => {
            drop(places);
            Err(error)
        }
    }
}
