//! Writing an image to a file.

ghost use Rattle.std.specs.Prelude.{◌≡◌, ◌+◌, IfErr, OnOk};
ghost use Rattle.sct_command.specs.Failing.{files_failed, reads_failed, writes_failed};
ghost use Rattle.sct_command.specs.Inside.StoredImage.{KeepsImage, RefusesKeeping};

use crate::fault::Fault;
use crate::writing::write_bytes;
use bytecode::encode;
use command_files::{Files, store};
use command_texts::summary_of;
use sc_values::Sink;
use std::alloc::Global;
use verifier::Verified;

/// Makes an image the file of this name, in version 2 of the layout, and then writes its summary to the output. Err:
/// the file cannot be written, and then no file changed; or the output failed, after the file was written.
pub(crate) fn keep_image<F: Files, W: Sink>(
    alloc: Global,
    image: &Verified,
    to: &str,
    files: &mut F,
    output: &mut W,
) -> Result<(), Fault>
    ensures done { OnOk result (KeepsImage image.now (F.contents files.old) (F.contents files.new) to.now
        (W.taken output.old) (W.taken output.new)) }
    ensures refused { IfErr result (RefusesKeeping image.now (F.contents files.old) (F.contents files.new) to.now
        (W.taken output.old) (W.taken output.new)) }
    ensures none_failed { OnOk result (W.failures output.new ≡ W.failures output.old) }
    ensures failed { IfErr result (λ fault. W.failures output.new ≡ W.failures output.old + writes_failed fault) }
    ensures unread { IfErr result (λ fault. reads_failed fault ≡ 0) }
    ensures none_missed { OnOk result (F.failures files.new ≡ F.failures files.old) }
    ensures missed { IfErr result (λ fault. F.failures files.new ≡ F.failures files.old + files_failed fault) }
{
    let line = summary_of(alloc, image.image())?;
    let bytes = encode(alloc, image.image())?;
    store(alloc, files, to, &bytes)?;
    write_bytes(output, line.as_bytes())
}
