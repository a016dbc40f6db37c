//! From a chart to its image.

ghost use Rattle.std.specs.Prelude.{IfErr, IfOk};
ghost use Rattle.compiler.specs.Charts.{LacksScl, ChartLacksImage, IsImageOfChart, IsSclOf};

use crate::fault::CompileFault;
use crate::from_scl::compile_scl;
use abort_expansion::{ExpandFault, expand};
use chart_lowering::lower;
use core_charts::Chart;
use scl::Scl;
use std::alloc::Global;
use verifier::Verified;

/// The SCL program of a chart: that to which its expansion is lowered. Err: the expansion passes a limit (E07);
/// or memory was refused.
#[tactic(auto, using(crate::proofs::Charts::lowering_of))]
pub fn scl_of_chart(alloc: Global, chart: &Chart) -> Result<Scl, CompileFault>
    ensures scl { IfOk result (IsSclOf chart.now) }
    ensures refused { IfErr result (LacksScl chart.now) }
{
    let (core, _) = match expand(alloc, chart) {
        Ok(expansion) => expansion,
        Err(fault) => return Err(CompileFault::Expansion(fault)),
    };
    // It keeps the rules of core charts.
    let _regions = core.regions();
    match lower(alloc, &core) {
        Ok(scl) => Ok(scl),
        Err(_) => Err(CompileFault::Expansion(ExpandFault::Memory)),
    }
}

/// The valid image of a chart: that of its SCL program. Err: the chart has no SCL program (E07), or else why
/// that has no image (E14, E07, E11, E13, E12); or memory was refused. It never says that a rule is broken.
#[tactic(auto, using(crate::proofs::Charts::no_scl, crate::proofs::Charts::no_image))]
pub fn compile_chart(alloc: Global, chart: &Chart) -> Result<Verified, CompileFault>
    ensures compiled { IfOk result (IsImageOfChart chart.now) }
    ensures refused { IfErr result (ChartLacksImage chart.now) }
{
    let scl = scl_of_chart(alloc, chart)?;
    compile_scl(alloc, &scl)
}
