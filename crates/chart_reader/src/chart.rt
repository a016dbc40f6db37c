//! The chart of a draft.

ghost use Rattle.std.specs.Prelude.{◌≡◌, [], IfOk};
ghost use Rattle.sc_text.specs.Flaws.{variable_names};
ghost use Rattle.chart_reader.specs.Flaws.{chart_flaws};
ghost use Rattle.chart_reader.specs.Shape.{IsShaped};
ghost use Rattle.chart_reader.specs.Resolved.{chart_of, regions_of};

use crate::regions::regions;
use crate::text_drafts::DraftChart;
use core_charts::{Chart, DEPTH_LIMIT, Region};
use sc_text::{Scope, variables};
use sqlite_items::Items;
use std::alloc::{AllocError, Global};

/// The chart of a draft of the grammar, in which nothing is wrong. Err: memory was refused.
pub fn chart_of(alloc: Global, draft: &DraftChart) -> Result<Chart, AllocError>
    requires flawless { chart_flaws draft.now ≡ [] }
    requires shaped { IsShaped draft.now }
    ensures { IfOk result (λ chart. chart ≡ chart_of draft.now) }
{
    let regions = all_regions(alloc, draft)?;
    let variables = variables(alloc, draft.variables.as_slice())?;
    Ok(Chart::known(draft.named.name, variables, regions))
}

// The regions of a draft, over its variables.
#[tactic(auto, using(crate::proofs::Whole::few_declared))]
fn all_regions(alloc: Global, draft: &DraftChart) -> Result<Items<Region>, AllocError>
    requires flawless { chart_flaws draft.now ≡ [] }
    requires shaped { IsShaped draft.now }
    ensures { IfOk result (λ all. all ≡ regions_of (variable_names draft.now.variables) draft.now.regions) }
{
    let scope = Scope::of(alloc, draft.variables.as_slice())?;
    regions(alloc, &scope, DEPTH_LIMIT, draft.regions.as_slice())
}
