//! The text of the chart to which the extended chart is reduced that bytes spell.

ghost use Rattle.std.specs.Prelude.{◌≡◌, IfErr, IfOk, string_bytes};
ghost use Rattle.std.specs.Str.{IsUtf8};
ghost use Rattle.extended_reader.specs.Read.{IsRead};
ghost use Rattle.chart_texts.specs.Sources.{HasReduced, LacksReduced, SpellsNoExtended};
ghost use Rattle.chart_texts.specs.declared.sources.Unreduced.TheVariants.{Memory};

use crate::reductions::reduced_text;
use extended_charts::ExtendedChart;
use extended_reader::read_extended;
use sc_text::{FaultKind, ReadFault};
use std::alloc::{AllocError, Global};
use std::str;

/// Why bytes have no text of a reduced chart.
#[derive(Clone, Copy, Debug, PartialEq, Eq)]
pub enum Unreduced {
    /// They are no text that spells an extended chart, or memory was refused.
    Text(ReadFault),
    /// What the extended chart is reduced to passes a limit of charts.
    Limit,
    /// Memory was refused.
    Memory,
}

impl From<AllocError> for Unreduced {
    ghost from_gives = { λ _ e. e ≡ Memory };

    fn from(_error: AllocError) -> Unreduced {
        Unreduced::Memory
    }
}

/// The extended chart that these bytes spell as text. Err: they spell none, or memory was refused.
pub fn extended_in(alloc: Global, bytes: &[u8]) -> Result<ExtendedChart, ReadFault>
    ensures text { IfOk result (λ _. IsUtf8 bytes.now) }
    ensures read { IfOk result (IsRead bytes.now) }
    ensures fault { IfErr result (SpellsNoExtended bytes.now) }
{
    match str::from_utf8(bytes) {
        Ok(text) => read_extended(alloc, text),
        Err(_) => Err(ReadFault::Text(FaultKind::Token, 0)),
    }
}

/// The text of the chart to which the extended chart is reduced that these bytes spell as text. Err: they spell none,
/// or one that has no such text; or memory was refused.
pub fn reduced_of(alloc: Global, bytes: &[u8]) -> Result<String, Unreduced>
    ensures text { IfOk result (λ text. HasReduced bytes.now (string_bytes text)) }
    ensures fault { IfErr result (LacksReduced bytes.now) }
{
    let chart = match extended_in(alloc, bytes) {
        Ok(chart) => chart,
        Err(fault) => return Err(Unreduced::Text(fault)),
    };
    match reduced_text(alloc, &chart)? {
        Some(text) => Ok(text),
        None => Err(Unreduced::Limit),
    }
}
