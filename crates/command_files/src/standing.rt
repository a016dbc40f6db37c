//! The source in a file: what is written there, or the text of the chart to which that is reduced.

ghost use Rattle.std.specs.Prelude.{◌≡◌, ◌+◌, IfErr, IfNone, IfOk, IfSome, OnOk, string_bytes};
ghost use Rattle.command_files.specs.Counting.{files_failed};
ghost use Rattle.command_files.specs.Standing.{AreAsWritten, AreReduced, BytesLackReduced, BytesLackSource};
ghost use Rattle.command_files.specs.Standing.{FileLacksSource, HasSource};
ghost use Rattle.chart_texts.specs.Sources.{HasReduced};

use crate::fault::LoadFault;
use crate::files::Files;
use crate::load::bytes_of;
use abort_expansion::ExpandFault;
use chart_texts::{Unreduced, begins_extended, reduced_of};
use compiler::CompileFault;
use std::alloc::Global;

/// The text of the chart to which the extended chart is reduced that these bytes spell as text. Err: they spell none,
/// or one that has none.
pub fn reduction_of(alloc: Global, bytes: &[u8]) -> Result<String, LoadFault>
    ensures text { IfOk result (λ text. HasReduced bytes.now (string_bytes text)) }
    ensures fault { IfErr result (BytesLackReduced bytes.now) }
    ensures missed { IfErr result (λ fault. files_failed fault ≡ 0) }
{
    match reduced_of(alloc, bytes) {
        Ok(text) => Ok(text),
        Err(Unreduced::Text(fault)) => Err(LoadFault::Text(fault)),
        Err(Unreduced::Limit) => {
            Err(LoadFault::Program(CompileFault::Expansion(ExpandFault::Limit)))
        }
        Err(Unreduced::Memory) => Err(LoadFault::Memory),
    }
}

/// The source for which these bytes stand, where they begin as the text of an extended chart: the text of the chart to
/// which that is reduced. None: they do not begin so, and are a source themselves. Err: they have no such text.
pub fn reduced_source(alloc: Global, bytes: &[u8]) -> Result<Option<String>, LoadFault>
    ensures same { IfOk result (λ source. IfNone source (AreAsWritten bytes.now bytes.now)) }
    ensures reduced { IfOk result (λ source. IfSome source (λ text. AreReduced bytes.now (string_bytes text))) }
    ensures fault { IfErr result (BytesLackSource bytes.now) }
    ensures missed { IfErr result (λ fault. files_failed fault ≡ 0) }
{
    if !begins_extended(bytes) {
        return Ok(None);
    }
    let text = reduction_of(alloc, bytes)?;
    Ok(Some(text))
}

/// The source in the file of this name: its bytes, or, where they begin as the text of an extended chart, the text of
/// the chart to which that is reduced. Err: the file could not be read, or has no such text.
#[tactic(auto, using(crate::proofs::Sourced::as_written, crate::proofs::Sourced::as_reduced, crate::proofs::Sourced::no_source_in))]
pub fn source_of<F: Files>(alloc: Global, files: &mut F, name: &str) -> Result<Vec<u8>, LoadFault>
    ensures source { IfOk result (λ bytes. HasSource (F.contents files.old) name.now bytes.items) }
    ensures fault { IfErr result (FileLacksSource (F.contents files.old) name.now) }
    ensures same { F.contents files.new ≡ F.contents files.old }
    ensures none_failed { OnOk result (F.failures files.new ≡ F.failures files.old) }
    ensures failed { IfErr result (λ fault. F.failures files.new ≡ F.failures files.old + files_failed fault) }
{
    let bytes = bytes_of(alloc, files, name)?;
    match reduced_source(alloc, &bytes)? {
        Some(text) => Ok(text.into_bytes()),
        None => Ok(bytes),
    }
}
