//! The one fault of a text.

ghost use Rattle.std.specs.Prelude.{IfOk};
ghost use Rattle.diagnostics.specs.Inside.CouldFollow.{TellsFault};
ghost use Rattle.diagnostics.specs.declared.could_follow.grammars.Grammar.TheVariants as grammars;

use crate::could_follow::grammars::Grammar;
use chart_reader::read_chart;
use extended_reader::read_extended;
use sc_text::{FaultKind, ReadFault};
use scl_reader::read_scl;
use std::alloc::{AllocError, Global};

// The fault of a text as a chart, and its place.
#[tactic(auto, using(crate::proofs::Answered::chart_none, crate::proofs::Answered::chart_some))]
fn of_chart(alloc: Global, text: &str) -> Result<Option<(FaultKind, usize)>, AllocError>
    ensures { IfOk result (TellsFault grammars.Chart text.now) }
{
    match read_chart(alloc, text) {
        Ok(_) => Ok(None),
        Err(ReadFault::Text(broken, at)) => Ok(Some((broken, at))),
        Err(ReadFault::Memory) => Err(AllocError),
    }
}

// The fault of a text as an extended chart, and its place.
#[tactic(auto, using(crate::proofs::Answered::extended_none, crate::proofs::Answered::extended_some))]
fn of_extended_chart(alloc: Global, text: &str) -> Result<Option<(FaultKind, usize)>, AllocError>
    ensures { IfOk result (TellsFault grammars.ExtendedChart text.now) }
{
    match read_extended(alloc, text) {
        Ok(_) => Ok(None),
        Err(ReadFault::Text(broken, at)) => Ok(Some((broken, at))),
        Err(ReadFault::Memory) => Err(AllocError),
    }
}

// The fault of a text as an SCL program, and its place.
#[tactic(auto, using(crate::proofs::Answered::scl_none, crate::proofs::Answered::scl_some))]
fn of_scl(alloc: Global, text: &str) -> Result<Option<(FaultKind, usize)>, AllocError>
    ensures { IfOk result (TellsFault grammars.Scl text.now) }
{
    match read_scl(alloc, text) {
        Ok(_) => Ok(None),
        Err(ReadFault::Text(broken, at)) => Ok(Some((broken, at))),
        Err(ReadFault::Memory) => Err(AllocError),
    }
}

/// The fault of a text of this grammar, and its place. None: it has none. Err: memory was refused.
pub(crate) fn fault_of(
    alloc: Global,
    grammar: Grammar,
    text: &str,
) -> Result<Option<(FaultKind, usize)>, AllocError>
    ensures { IfOk result (TellsFault grammar text.now) }
{
    match grammar {
        Grammar::Chart => of_chart(alloc, text),
        Grammar::ExtendedChart => of_extended_chart(alloc, text),
        Grammar::Scl => of_scl(alloc, text),
    }
}
