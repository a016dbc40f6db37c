//! The extended chart of a draft.

ghost use Rattle.std.specs.Prelude.{◌≡◌, ◌≤◌, [], ◌++◌, IfOk, OnOk, length, map};
ghost use Rattle.sc_graph.specs.Limits.{variable_limit};
ghost use Rattle.sc_text.specs.Flaws.{variable_names};
ghost use Rattle.core_charts.specs.Rules.{depth_limit};
ghost use Rattle.chart_reader.specs.Narrow.{AreNarrow};
ghost use Rattle.extended_reader.specs.Flaws.{extended_flaws};
ghost use Rattle.extended_reader.specs.Shape.{IsExtendedShaped};
ghost use Rattle.extended_reader.specs.Inside.{fill_chart};
ghost use Rattle.extended_reader.specs.Items.{names_of};
ghost use Rattle.extended_reader.specs.Resolved.{all_regions, extended_of, region_of};

use crate::counts::put_conditions;
use crate::items::{put_befores, put_constants, put_signals, put_variables};
use crate::regions::put_regions;
use crate::rows::RowsLeft;
use crate::sorts::sorted;
use crate::text_drafts::ExtendedDraft;
use core_charts::DEPTH_LIMIT;
use extended_charts::{ExtendedChart, ExtendedRegion};
use sc_text::Scope;
use sqlite_items::Items;
use std::alloc::{AllocError, Global};

/// The extended chart of a draft of the grammar, in which nothing is wrong. Err: memory was refused.
pub fn extended_of(alloc: Global, draft: &ExtendedDraft) -> Result<ExtendedChart, AllocError>
    requires flawless { extended_flaws draft.now ≡ [] }
    requires shaped { IsExtendedShaped draft.now }
    ensures { IfOk result (λ chart. chart ≡ extended_of draft.now) }
{
    let mut chart = ExtendedChart {
        name: draft.core.named.name,
        variables: Items::new(alloc),
        signals: Items::new(alloc),
        befores: Items::new(alloc),
        constants: Items::new(alloc),
        counts: Items::new(alloc),
        regions: Items::new(alloc),
    };
    match scope_chart(alloc, draft, &mut chart) {
        Ok(()) => Ok(chart),
        Err(error) => {
            drop(chart);
            Err(error)
        }
    }
}

// Puts what a draft holds into a chart, over the variables of its items.
#[tactic(auto, using(crate::proofs::Whole::few_declared))]
fn scope_chart(
    alloc: Global,
    draft: &ExtendedDraft,
    chart: &mut ExtendedChart,
) -> Result<(), AllocError>
    requires flawless { extended_flaws draft.now ≡ [] }
    requires shaped { IsExtendedShaped draft.now }
    ensures { OnOk result (chart.new ≡ fill_chart (names_of draft.now.items) draft.now chart.old) }
{
    let declared = sorted(alloc, draft.items.as_slice())?;
    let scope = Scope::of(alloc, declared.as_slice())?;
    fill_chart(alloc, &scope, draft, chart)
}

// The chart is behind a reference, so that no `?` has to drop its parts.
fn fill_chart(
    alloc: Global,
    scope: &Scope,
    draft: &ExtendedDraft,
    chart: &mut ExtendedChart,
) -> Result<(), AllocError>
    requires few_variables { length scope.now.variables.now ≤ variable_limit }
    requires narrow { AreNarrow depth_limit draft.now.core.regions }
    ensures { OnOk result (chart.new ≡ fill_chart (variable_names scope.now.variables.now) draft.now chart.old) }
{
    let items = draft.items.as_slice();
    put_variables(items, &mut chart.variables)?;
    put_signals(scope, items, &mut chart.signals)?;
    put_befores(scope, items, &mut chart.befores)?;
    put_constants(items, &mut chart.constants)?;
    put_conditions(alloc, scope, draft.rows.ways.as_slice(), &mut chart.counts)?;
    put_all_regions(alloc, scope, draft, &mut chart.regions)
}

// Puts the regions of a draft behind others.
fn put_all_regions(
    alloc: Global,
    scope: &Scope,
    draft: &ExtendedDraft,
    made: &mut Items<ExtendedRegion>,
) -> Result<(), AllocError>
    requires few_variables { length scope.now.variables.now ≤ variable_limit }
    requires narrow { AreNarrow depth_limit draft.now.core.regions }
    ensures { OnOk result (made.new ≡ made.old ++ all_regions draft.now.rows
        (map (region_of (variable_names scope.now.variables.now)) draft.now.core.regions)) }
{
    let ways = draft.rows.ways.as_slice();
    let mut rows = RowsLeft::of(draft.rows.entries.as_slice(), ways)?;
    let texts = draft.core.regions.as_slice();
    put_regions(alloc, scope, &mut rows, DEPTH_LIMIT, texts, made)
}
