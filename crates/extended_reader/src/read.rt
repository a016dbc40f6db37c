//! Reading a text of an extended chart.

ghost use Rattle.std.specs.Prelude.{IfErr, IfOk};
ghost use Rattle.extended_reader.specs.Checked.{IsTextFault};
ghost use Rattle.extended_reader.specs.Read.{IsRead, IsExact};

use crate::chart::extended_of;
use crate::text_drafts::read_checked_extended;
use extended_charts::ExtendedChart;
use sc_text::ReadFault;
use std::alloc::Global;

/// The extended chart that a text spells by the grammar of extended charts and its rules, exactly where it spells one.
/// Err: exactly where it has it, the first place where no token stands; else the fault of its grammar; else the first
/// of what is wrong with its draft; or memory was refused, which says nothing of the text.
#[tactic(auto, using(crate::proofs::Reading::unflawed, crate::proofs::Reading::shaped, crate::proofs::Reading::is_read, crate::proofs::Exactly::read_exactly, crate::proofs::Exactly::faulty_exactly))]
pub fn read_extended(alloc: Global, text: &str) -> Result<ExtendedChart, ReadFault>
    ensures ok { IfOk result (λ chart. IsRead text.now chart) }
    ensures fault { IfErr result (λ fault. IsTextFault text.now fault) }
    ensures exact { IsExact text.now result }
{
    let draft = read_checked_extended(alloc, text)?;
    let made = extended_of(alloc, &draft);
    drop(draft);
    let chart = made?;
    Ok(chart)
}
