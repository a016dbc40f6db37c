//! The text of a reduced chart, and the states of the author of the extended one.

ghost use Rattle.std.specs.Prelude.{◌≡◌, IfErr, IfNone, IfOk, IfSome, string_bytes};
ghost use Rattle.author_states.specs.Author.{author_states};
ghost use Rattle.author_states.specs.Authored.{HasAuthored, IsAuthored};
ghost use Rattle.author_states.specs.Inside.Texts.{IsUnreduced};
ghost use Rattle.command_files.specs.Counting.{files_failed};
ghost use Rattle.command_files.specs.Standing.{AreAsWritten, BytesLackReduced, BytesLackSource};
ghost use Rattle.chart_texts.specs.ReducedText.{IsReducedText};

use crate::{AuthorStates, author_states};
use abort_expansion::ExpandFault;
use chart_reduction::ReduceFault;
use chart_texts::{begins_extended, extended_in, reduced_text};
use command_files::LoadFault;
use compiler::CompileFault;
use extended_charts::ExtendedChart;
use std::alloc::Global;

/// The text of the chart to which an extended chart is reduced, and the states of its author.
#[derive(Drop)]
pub struct Authored {
    pub source: String,
    pub states: AuthorStates,
}

// The text of the chart to which an extended chart is reduced, and the states of its author. Err: it is reduced to no
// chart, or to one that has no text.
fn authored_of(alloc: Global, chart: &ExtendedChart) -> Result<Authored, LoadFault>
    ensures source { IfOk result (λ made. IsReducedText chart.now (string_bytes made.source)) }
    ensures states { IfOk result (λ made. made.states ≡ author_states chart.now) }
    ensures fault { IfErr result (IsUnreduced chart.now) }
{
    let source = match reduced_text(alloc, chart)? {
        Some(text) => text,
        None => {
            return Err(LoadFault::Program(CompileFault::Expansion(ExpandFault::Limit)));
        }
    };
    match author_states(alloc, chart) {
        Ok(states) => Ok(Authored { source, states }),
        Err(ReduceFault::Limit) => {
            Err(LoadFault::Program(CompileFault::Expansion(ExpandFault::Limit)))
        }
        Err(ReduceFault::Memory) => Err(LoadFault::Memory),
    }
}

// What the extended chart that these bytes spell as text comes to.
#[tactic(auto, using(crate::proofs::Reduced::has_authored, crate::proofs::Reduced::lacks_reduced))]
fn authored_in(alloc: Global, bytes: &[u8]) -> Result<Authored, LoadFault>
    ensures authored { IfOk result (λ made. HasAuthored bytes.now (string_bytes made.source) made.states) }
    ensures fault { IfErr result (BytesLackReduced bytes.now) }
{
    let chart = match extended_in(alloc, bytes) {
        Ok(chart) => chart,
        Err(fault) => return Err(LoadFault::Text(fault)),
    };
    authored_of(alloc, &chart)
}

/// What is written as the text of an extended chart: the text of the chart to which that is reduced, and the states of
/// its author. None: these bytes do not begin so, and are a source themselves. Err: they have no such text.
#[tactic(auto, using(crate::proofs::Reduced::quiet))]
pub fn authored_source(alloc: Global, written: &[u8]) -> Result<Option<Authored>, LoadFault>
    ensures same { IfOk result (λ made. IfNone made (AreAsWritten written.now written.now)) }
    ensures authored { IfOk result (λ made. IfSome made
        (λ some. IsAuthored written.now (string_bytes some.source) some.states)) }
    ensures fault { IfErr result (BytesLackSource written.now) }
    ensures missed { IfErr result (λ fault. files_failed fault ≡ 0) }
{
    if !begins_extended(written) {
        return Ok(None);
    }
    let made = authored_in(alloc, written)?;
    Ok(Some(made))
}
