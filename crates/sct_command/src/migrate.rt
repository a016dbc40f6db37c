//! The verb `migrate`.

ghost use Rattle.std.specs.Prelude.{◌≡◌, ◌+◌, IfErr, OnOk};
ghost use Rattle.sct_command.specs.Answer.{Migrates, RefusesMigration};
ghost use Rattle.sct_command.specs.Failing.{files_failed, reads_failed, writes_failed};

use crate::fault::Fault;
use crate::keep::keep_image;
use command_files::{Files, load_verified};
use sc_values::Sink;
use std::alloc::Global;

/// Writes the image in one file to another, in version 2 of the layout, once it is verified, and then
/// its summary to the output. Err: there is no valid image in the first file or the second cannot be
/// written, and then no file changed; or the output failed, after the file was written.
pub(crate) fn migrate<F: Files, W: Sink>(
    alloc: Global,
    from: &str,
    to: &str,
    files: &mut F,
    output: &mut W,
) -> Result<(), Fault>
    ensures done { OnOk result (Migrates (F.contents files.old) (F.contents files.new) from.now to.now
        (W.taken output.old) (W.taken output.new)) }
    ensures refused { IfErr result (RefusesMigration (F.contents files.old) (F.contents files.new) from.now to.now
        (W.taken output.old) (W.taken output.new)) }
    ensures none_failed { OnOk result (W.failures output.new ≡ W.failures output.old) }
    ensures failed { IfErr result (λ fault. W.failures output.new ≡ W.failures output.old + writes_failed fault) }
    ensures unread { IfErr result (λ fault. reads_failed fault ≡ 0) }
    ensures none_missed { OnOk result (F.failures files.new ≡ F.failures files.old) }
    ensures missed { IfErr result (λ fault. F.failures files.new ≡ F.failures files.old + files_failed fault) }
{
    let image = load_verified(alloc, files, from)?;
    keep_image(alloc, image.get(), to, files, output)
}
