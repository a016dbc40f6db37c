//! Writing what is wanted of files.

ghost use Rattle.command_texts.specs.Wanted.{IsMadeFor, LacksWanted};
ghost use Rattle.command_words.specs.Request.{wanted_seen};
ghost use Rattle.sc_values.specs.Streams.{GrowsInto};
ghost use Rattle.std.specs.Io.KnownBytes.{Appends};
ghost use Rattle.std.specs.Prelude.{◌≡◌, ◌+◌, IfErr, OnOk};
ghost use Rattle.sct_command.specs.declared.fault.Fault.TheVariants as told;
ghost use Rattle.sct_command.specs.Failing.{files_failed, reads_failed, writes_failed};
ghost use Rattle.sct_command.specs.Writing.{RefusesMade, RefusesToWrite, Writes, WritesMade};

use crate::fault::Fault;
use command_files::{Files, LoadFault};
use command_texts::made_for;
use command_words::Wanted;
use sc_values::{Sink, write_all};
use std::alloc::Global;

/// Writes these bytes to the output. Err: the output failed, which took a beginning of them.
pub(crate) fn write_bytes<W: Sink>(output: &mut W, bytes: &[u8]) -> Result<(), Fault>
    ensures done { OnOk result (Appends (W.taken output.old) (W.taken output.new) bytes.now) }
    ensures part { GrowsInto (W.taken output.old) (W.taken output.new) bytes.now }
    ensures fault { IfErr result (λ fault. fault ≡ told.Write) }
    ensures none_failed { OnOk result (W.failures output.new ≡ W.failures output.old) }
    ensures failed { IfErr result (λ fault. W.failures output.new ≡ W.failures output.old + writes_failed fault) }
    ensures unread { IfErr result (λ fault. reads_failed fault ≡ 0) }
    ensures missed { IfErr result (λ fault. files_failed fault ≡ 0) }
{
    match write_all(output, bytes) {
        Ok(()) => Ok(()),
        Err(_) => Err(Fault::Write),
    }
}

// Writes what was made to the output. Err: why it was not made, and then nothing is written; or the output failed.
fn write_made<W: Sink>(made: Result<Vec<u8>, LoadFault>, output: &mut W) -> Result<(), Fault>
    ensures done { OnOk result (WritesMade (λ bytes. bytes.items) made (W.taken output.old) (W.taken output.new)) }
    ensures refused { IfErr result
        (RefusesMade (λ bytes. bytes.items) made (W.taken output.old) (W.taken output.new)) }
    ensures none_failed { OnOk result (W.failures output.new ≡ W.failures output.old) }
    ensures failed { IfErr result (λ fault. W.failures output.new ≡ W.failures output.old + writes_failed fault) }
    ensures unread { IfErr result (λ fault. reads_failed fault ≡ 0) }
{
    match made {
        Ok(bytes) => write_bytes(output, &bytes),
        Err(fault) => Err(Fault::Files(fault)),
    }
}

/// Writes what is wanted of files to the output. Err: why there is none, and then nothing is written; or the output
/// failed.
pub(crate) fn write_wanted<F: Files, W: Sink>(
    alloc: Global,
    wanted: Wanted<'_>,
    files: &mut F,
    output: &mut W,
) -> Result<(), Fault>
    ensures done { OnOk result (Writes (IsMadeFor (F.contents files.old) (wanted_seen wanted.entry))
        (W.taken output.old) (W.taken output.new)) }
    ensures refused { IfErr result (RefusesToWrite (IsMadeFor (F.contents files.old) (wanted_seen wanted.entry))
        (LacksWanted (F.contents files.old) (wanted_seen wanted.entry)) (W.taken output.old) (W.taken output.new)) }
    ensures none_failed { OnOk result (W.failures output.new ≡ W.failures output.old) }
    ensures failed { IfErr result (λ fault. W.failures output.new ≡ W.failures output.old + writes_failed fault) }
    ensures files { F.contents files.new ≡ F.contents files.old }
    ensures unread { IfErr result (λ fault. reads_failed fault ≡ 0) }
    ensures none_missed { OnOk result (F.failures files.new ≡ F.failures files.old) }
    ensures missed { IfErr result (λ fault. F.failures files.new ≡ F.failures files.old + files_failed fault) }
{
    let made = made_for(alloc, wanted, files);
    write_made(made, output)
}
