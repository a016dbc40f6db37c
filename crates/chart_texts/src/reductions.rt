//! The text of the chart to which an extended chart is reduced.

ghost use Rattle.std.specs.Prelude.{IfOk, option_map, string_bytes};
ghost use Rattle.chart_texts.specs.ReducedText.{Answers};

use crate::cores::text_that_spells;
use chart_reduction::{ReduceFault, reduce};
use extended_charts::ExtendedChart;
use std::alloc::{AllocError, Global};

/// The text of the chart to which an extended chart is reduced. It is read again before it is given, and spells that
/// chart. None: what it is reduced to breaks a rule or a limit of charts, or its text laid out does not spell it. Err:
/// memory was refused.
#[tactic(auto, using(crate::proofs::ReducedSpelling::is_answer))]
pub fn reduced_text(alloc: Global, chart: &ExtendedChart) -> Result<Option<String>, AllocError>
    ensures { IfOk result (λ text. Answers chart.now (option_map string_bytes text)) }
{
    match reduce(alloc, chart) {
        Ok((made, _)) => text_that_spells(alloc, &made),
        Err(ReduceFault::Limit) => Ok(None),
        Err(ReduceFault::Memory) => Err(AllocError),
    }
}
