//! The text of the chart to which an extended chart is reduced.

ghost use Rattle.std.specs.Prelude.{◌≡◌, ◌+◌, IfErr, IfOk, OnOk};
ghost use Rattle.command_files.specs.Counting as files_count;
ghost use Rattle.command_texts.specs.Reductions.{FileLacksReduced, IsReducedIn};

use command_files::{Files, LoadFault, bytes_of, reduction_of};
use std::alloc::Global;

/// The text of the chart to which the extended chart in this file is reduced. Err: there is no extended chart in the
/// file, or it has no such text.
#[tactic(auto, using(crate::proofs::Lacking::no_file, crate::proofs::Lacking::no_text))]
pub(crate) fn reduced_in<F: Files>(
    alloc: Global,
    name: &str,
    files: &mut F,
) -> Result<Vec<u8>, LoadFault>
    ensures made { IfOk result (λ text. IsReducedIn (F.contents files.old) name.now text.items) }
    ensures lacks { IfErr result (FileLacksReduced (F.contents files.old) name.now) }
    ensures same { F.contents files.new ≡ F.contents files.old }
    ensures none_failed { OnOk result (F.failures files.new ≡ F.failures files.old) }
    ensures failed { IfErr result (λ fault. F.failures files.new
        ≡ F.failures files.old + files_count.files_failed fault) }
{
    let bytes = bytes_of(alloc, files, name)?;
    let text = reduction_of(alloc, &bytes)?;
    Ok(text.into_bytes())
}
