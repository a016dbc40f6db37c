//! The chart to which the extended chart of a text is reduced, on its way to a program.

ghost use Rattle.std.specs.Prelude.{◌≡◌, IfOk, IfSome, None};
ghost use Rattle.core_charts.specs.declared.features.Features.TheVariants as features;
ghost use Rattle.core_charts.specs.Rules.{IsChart};
ghost use Rattle.abort_expansion.specs.Expansion.{expanded};
ghost use Rattle.compiler.specs.Charts.{IsSclOf};
ghost use Rattle.node_sources.specs.ExtendedRead.{IsAuthorPlaced};
ghost use Rattle.node_sources.specs.Inside.Lowered.{IsLowered};

use crate::extended::text_places::{AuthorPlaced, read_author_placed};
use abort_expansion::{ExpandFault, expand};
use chart_lowering::lower;
use core_charts::{Chart, CoreChart};
use scl::Scl;
use sqlite_items::Boxed;
use std::alloc::{AllocError, Global};

/// The chart to which an extended chart is reduced, with the places of the author's elements; its core chart, and its
/// SCL program.
#[derive(Drop)]
pub(crate) struct Lowered {
    pub(crate) placed: AuthorPlaced,
    pub(crate) core: CoreChart,
    pub(crate) scl: Scl,
}

// The core chart of a chart, and its SCL program. Err: it has none; or memory was refused.
#[tactic(auto, using(compiler::proofs::Charts::lowering_of))]
fn core_of(alloc: Global, chart: &Chart) -> Result<(CoreChart, Scl), ExpandFault>
    ensures { IfOk result (λ made. (made.0 ≡ expanded chart.now) × IsSclOf chart.now made.1) }
{
    let (core, states) = expand(alloc, chart)?;
    drop(states);
    // It keeps the rules of core charts.
    let _regions = core.regions();
    match lower(alloc, &core) {
        Ok(scl) => Ok((core, scl)),
        Err(AllocError) => {
            drop(core);
            Err(ExpandFault::Memory)
        }
    }
}

// The same of the chart that is placed. None: it has none.
fn lowered_from(
    alloc: Global,
    text: &str,
    placed: AuthorPlaced,
) -> Result<Option<Boxed<Lowered>>, AllocError>
    requires { IsAuthorPlaced text.now placed.chart placed.origins placed.places }
    ensures { IfOk result (λ found. IfSome found (IsLowered text.now)) }
{
    // It keeps the rules of charts.
    let _name = placed.chart.name();
    match core_of(alloc, &placed.chart) {
        Ok(made) => lowered_with(alloc, text, placed, made),
        Err(fault) => unlowered(placed, fault),
    }
}

// The chart that is placed, with its core chart and its SCL program.
#[tactic(auto, using(crate::proofs::Told::is_lowered))]
fn lowered_with(
    alloc: Global,
    text: &str,
    placed: AuthorPlaced,
    made: (CoreChart, Scl),
) -> Result<Option<Boxed<Lowered>>, AllocError>
    requires placed { IsAuthorPlaced text.now placed.chart placed.origins placed.places }
    requires rules { IsChart features.Extended placed.chart }
    requires core { made.0 ≡ expanded placed.chart }
    requires lowers { IsSclOf placed.chart made.1 }
    ensures { IfOk result (λ found. IfSome found (IsLowered text.now)) }
{
    let (core, scl) = made;
    match Boxed::new(alloc, Lowered { placed, core, scl }) {
        Ok(lowered) => Ok(Some(lowered)),
        Err(error) => Err(error),
    }
}

// What is answered of a chart that is placed, and has no core chart or none that memory was given for.
fn unlowered(placed: AuthorPlaced, fault: ExpandFault) -> Result<Option<Boxed<Lowered>>, AllocError>
    ensures { IfOk result (λ found. found ≡ None) }
{
    drop(placed);
    match fault {
        ExpandFault::Limit => Ok(None),
        ExpandFault::Memory => Err(AllocError),
    }
}

/// The chart to which the extended chart of a text is reduced, with its core chart and its SCL program. None: the text
/// has a fault, or what it spells is reduced to no chart, or to one that has no core chart. Err: memory was refused.
pub(crate) fn lowered_of(alloc: Global, text: &str) -> Result<Option<Boxed<Lowered>>, AllocError>
    ensures { IfOk result (λ found. IfSome found (IsLowered text.now)) }
{
    match read_author_placed(alloc, text)? {
        Some(placed) => lowered_from(alloc, text, placed),
        None => Ok(None),
    }
}
