//! The text of the core chart of a chart.

ghost use Rattle.std.specs.Prelude.{◌≡◌, ◌+◌, IfErr, IfOk, OnOk, string_bytes};
ghost use Rattle.command_files.specs.Counting as files_count;
ghost use Rattle.command_texts.specs.Cores.{BytesLackCore, ChartLacksCore, FileLacksCore, HasCore, IsCoreIn};
ghost use Rattle.chart_texts.specs.CoreText.{IsCoreText};

use abort_expansion::ExpandFault;
use chart_texts::core_text;
use command_files::{Files, LoadFault, source_of};
use compiler::CompileFault;
use core_charts::Chart;
use image_charts::chart_in;
use std::alloc::Global;

// The text of the core chart of a chart. Err: it has none.
#[tactic(auto, using(crate::proofs::Cores::not_expanded, crate::proofs::Cores::not_written))]
fn core_of(alloc: Global, chart: &Chart) -> Result<String, CompileFault>
    ensures text { IfOk result (λ text. IsCoreText chart.now (string_bytes text)) }
    ensures fault { IfErr result (ChartLacksCore chart.now) }
{
    match core_text(alloc, chart) {
        Ok(Some(text)) => Ok(text),
        Ok(None) => Err(CompileFault::Expansion(ExpandFault::Limit)),
        Err(fault) => Err(CompileFault::Expansion(fault)),
    }
}

// The text of the core chart of the chart that these bytes spell as text. Err: they spell none, or one that has none.
fn core_of_bytes(alloc: Global, bytes: &[u8]) -> Result<String, LoadFault>
    ensures text { IfOk result (λ text. HasCore bytes.now (string_bytes text)) }
    ensures fault { IfErr result (BytesLackCore bytes.now) }
    ensures missed { IfErr result (λ fault. files_count.files_failed fault ≡ 0) }
{
    let chart = match chart_in(alloc, bytes) {
        Ok(chart) => chart,
        Err(fault) => return Err(LoadFault::Text(fault)),
    };
    match core_of(alloc, &chart) {
        Ok(text) => Ok(text),
        Err(fault) => Err(LoadFault::Program(fault)),
    }
}

/// The text of the core chart of the chart in this file. Err: there is no chart in the file, or it has no such text.
pub(crate) fn core_in<F: Files>(
    alloc: Global,
    name: &str,
    files: &mut F,
) -> Result<Vec<u8>, LoadFault>
    ensures made { IfOk result (λ text. IsCoreIn (F.contents files.old) name.now text.items) }
    ensures lacks { IfErr result (FileLacksCore (F.contents files.old) name.now) }
    ensures same { F.contents files.new ≡ F.contents files.old }
    ensures none_failed { OnOk result (F.failures files.new ≡ F.failures files.old) }
    ensures failed { IfErr result (λ fault. F.failures files.new
        ≡ F.failures files.old + files_count.files_failed fault) }
{
    let bytes = source_of(alloc, files, name)?;
    let text = core_of_bytes(alloc, &bytes)?;
    Ok(text.into_bytes())
}
