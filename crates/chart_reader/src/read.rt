//! Reading a text of a chart.

ghost use Rattle.std.specs.Prelude.{IfErr, IfOk};
ghost use Rattle.chart_reader.specs.Checked.{IsTextFault};
ghost use Rattle.chart_reader.specs.Laws.{IsExact};
ghost use Rattle.chart_reader.specs.Read.{IsRead};

use crate::chart::chart_of;
use crate::text_drafts::read_checked;
use core_charts::Chart;
use sc_text::ReadFault;
use std::alloc::Global;

/// The chart that a text spells by the grammar of charts and its rules, exactly where it spells one. Err: exactly where
/// it has it, the first place where no token stands; else the fault of its grammar; else the first of what is wrong
/// with its draft; or memory was refused, which says nothing of the text.
#[tactic(auto, using(crate::proofs::Reading::unflawed, crate::proofs::Reading::shaped, crate::proofs::Reading::is_read, crate::proofs::Exactly::read_exactly, crate::proofs::Exactly::faulty_exactly))]
pub fn read_chart(alloc: Global, text: &str) -> Result<Chart, ReadFault>
    ensures ok { IfOk result (λ chart. IsRead text.now chart) }
    ensures fault { IfErr result (λ fault. IsTextFault text.now fault) }
    ensures exact { IsExact text.now result }
{
    let draft = read_checked(alloc, text)?;
    let made = chart_of(alloc, &draft);
    drop(draft);
    let chart = made?;
    Ok(chart)
}
