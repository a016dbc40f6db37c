//! The verb `scl`.

ghost use Rattle.std.specs.Prelude.{◌≡◌, ◌+◌, IfErr, OnOk};
ghost use Rattle.sct_command.specs.Failing.{files_failed, reads_failed, writes_failed};
ghost use Rattle.sct_command.specs.Sources.{PrintsText, RefusesPrinting};

use crate::fault::Fault;
use command_files::{Files, load_scl};
use sc_values::Sink;
use scl_printer::print;
use std::alloc::Global;

/// Writes the text of the program in this file, in its layout. Err: there is no program in the file; or the
/// output failed.
pub(crate) fn print_text<F: Files, W: Sink>(
    alloc: Global,
    name: &str,
    files: &mut F,
    output: &mut W,
) -> Result<(), Fault>
    ensures done { OnOk result (PrintsText (F.contents files.old) name.now (W.taken output.old) (W.taken output.new)) }
    ensures refused { IfErr result
        (RefusesPrinting (F.contents files.old) name.now (W.taken output.old) (W.taken output.new)) }
    ensures none_failed { OnOk result (W.failures output.new ≡ W.failures output.old) }
    ensures failed { IfErr result (λ fault. W.failures output.new ≡ W.failures output.old + writes_failed fault) }
    ensures files { F.contents files.new ≡ F.contents files.old }
    ensures unread { IfErr result (λ fault. reads_failed fault ≡ 0) }
    ensures none_missed { OnOk result (F.failures files.new ≡ F.failures files.old) }
    ensures missed { IfErr result (λ fault. F.failures files.new ≡ F.failures files.old + files_failed fault) }
{
    let scl = load_scl(alloc, files, name)?;
    match print(&scl, output) {
        Ok(()) => Ok(()),
        Err(_) => Err(Fault::Write),
    }
}
