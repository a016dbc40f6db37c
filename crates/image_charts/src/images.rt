//! The image of what is written as a text.

ghost use Rattle.std.specs.Prelude.{◌≡◌, IfErr, IfOk};
ghost use Rattle.command_files.specs.Counting.{files_failed};
ghost use Rattle.image_charts.specs.Written.{MakesImage, MakesNoImage};

use command_files::{LoadFault, compile_bytes, reduced_source};
use std::alloc::Global;
use verifier::Verified;

/// The image of the program, or of the chart, for which this text stands: it is its own source, or, where it begins as
/// the text of an extended chart, stands for the chart to which that is reduced. Err: it stands for no source, or why
/// that has no image.
#[tactic(auto, using(crate::proofs::TextImages::own_image, crate::proofs::TextImages::reduced_image, crate::proofs::TextImages::no_own_image, crate::proofs::TextImages::no_reduced_image, crate::proofs::TextImages::quiet))]
pub fn compile_written(alloc: Global, written: &[u8]) -> Result<Verified, LoadFault>
    ensures image { IfOk result (MakesImage written.now) }
    ensures fault { IfErr result (MakesNoImage written.now) }
    ensures missed { IfErr result (λ fault. files_failed fault ≡ 0) }
{
    match reduced_source(alloc, written)? {
        Some(source) => compile_bytes(alloc, source.as_bytes()),
        None => compile_bytes(alloc, written),
    }
}
