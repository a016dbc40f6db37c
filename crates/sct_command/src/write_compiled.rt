//! The verb `compile`, where the image goes to the output.

ghost use Rattle.std.specs.Prelude.{◌≡◌, ◌+◌, [], IfErr, OnErr, OnOk, string_bytes};
ghost use Rattle.std.specs.Str.{IsUtf8};
ghost use Rattle.bytecode.specs.Spells.{Spells};
ghost use Rattle.command_files.specs.Sources.{BytesLackImage};
ghost use Rattle.command_files.specs.Standing.{StandsFor};
ghost use Rattle.sct_command.specs.Beside.{AreWarnings, AreWarningsOf, SaysOfFault};
ghost use Rattle.sct_command.specs.Failing.{files_failed, reads_failed, writes_failed};
ghost use Rattle.sct_command.specs.Inside.Held.{IsMemory, IsSpelt, SaysOfBytes};
ghost use Rattle.sct_command.specs.Sources.{AreOfProgram, RefusesWriting};
ghost use Rattle.sct_command.specs.Writing.{RefusesToWrite, Writes};

use crate::fault::Fault;
use crate::source_image::{image_told, source_told};
use crate::warnings::warnings_wanted;
use crate::writing::write_bytes;
use bytecode::{Image, encode};
use command_files::Files;
use sc_values::Sink;
use std::alloc::Global;

// Writes the bytes of an image.
fn write_image<W: Sink>(alloc: Global, image: &Image, output: &mut W) -> Result<(), Fault>
    ensures done { OnOk result (Writes (λ b. Spells 2 b image.now) (W.taken output.old) (W.taken output.new)) }
    ensures refused { IfErr result
        (RefusesToWrite (λ b. Spells 2 b image.now) IsMemory (W.taken output.old) (W.taken output.new)) }
    ensures none_failed { OnOk result (W.failures output.new ≡ W.failures output.old) }
    ensures failed { IfErr result (λ fault. W.failures output.new ≡ W.failures output.old + writes_failed fault) }
    ensures unread { IfErr result (λ fault. reads_failed fault ≡ 0) }
    ensures missed { IfErr result (λ fault. files_failed fault ≡ 0) }
{
    let bytes = encode(alloc, image)?;
    write_bytes(output, &bytes)
}

// Writes an image of the program in the file of this name, in which these bytes are, and says the warnings of them
// where they are wanted.
fn write_warned<W: Sink>(
    alloc: Global,
    from: &str,
    bytes: &[u8],
    image: &Image,
    warns: bool,
    output: &mut W,
    said: &mut String,
) -> Result<(), Fault>
    requires text { IsUtf8 bytes.now }
    requires none { string_bytes said.now ≡ [] }
    ensures done { OnOk result (Writes (λ b. Spells 2 b image.now) (W.taken output.old) (W.taken output.new)) }
    ensures refused { IfErr result
        (RefusesToWrite (λ b. Spells 2 b image.now) IsMemory (W.taken output.old) (W.taken output.new)) }
    ensures none_failed { OnOk result (W.failures output.new ≡ W.failures output.old) }
    ensures failed { IfErr result (λ fault. W.failures output.new ≡ W.failures output.old + writes_failed fault) }
    ensures unread { IfErr result (λ fault. reads_failed fault ≡ 0) }
    ensures missed { IfErr result (λ fault. files_failed fault ≡ 0) }
    ensures warned { OnOk result (AreWarnings from.now bytes.now warns (string_bytes said.new)) }
    ensures quiet { OnErr result (string_bytes said.new ≡ []) }
{
    let warnings = warnings_wanted(alloc, from, bytes, warns)?;
    write_image(alloc, image, output)?;
    *said = warnings;
    Ok(())
}

// Compiles the source that these bytes are, for which other ones stand in the file of this name.
#[tactic(auto, using(crate::proofs::Stands::written_text))]
fn write_held<W: Sink>(
    alloc: Global,
    from: &str,
    bytes: &[u8],
    written: &[u8],
    warns: bool,
    wanted: bool,
    output: &mut W,
    said: &mut String,
) -> Result<(), Fault>
    requires stands { StandsFor written.now bytes.now }
    requires none { string_bytes said.now ≡ [] }
    ensures done { OnOk result (Writes (IsSpelt bytes.now) (W.taken output.old) (W.taken output.new)) }
    ensures refused { IfErr result
        (RefusesToWrite (IsSpelt bytes.now) (BytesLackImage bytes.now) (W.taken output.old) (W.taken output.new)) }
    ensures none_failed { OnOk result (W.failures output.new ≡ W.failures output.old) }
    ensures failed { IfErr result (λ fault. W.failures output.new ≡ W.failures output.old + writes_failed fault) }
    ensures unread { IfErr result (λ fault. reads_failed fault ≡ 0) }
    ensures missed { IfErr result (λ fault. files_failed fault ≡ 0) }
    ensures warned { OnOk result (AreWarnings from.now written.now warns (string_bytes said.new)) }
    ensures reported { IfErr result (λ fault. SaysOfBytes from.now bytes.now wanted fault (string_bytes said.new)) }
{
    let image = image_told(alloc, from, bytes, written, wanted, said)?;
    write_warned(
        alloc,
        from,
        written,
        image.get().image(),
        warns,
        output,
        said,
    )
}

/// Writes the image of the program in this file to the output, once it is verified, and says the warnings of the text
/// where they are wanted. Err: there is no program in the file, or it has no image, of which a report is `said` where
/// words are wanted, and then nothing is written; or the output failed.
#[tactic(auto, using(crate::proofs::Stands::stands_seen))]
pub(crate) fn write_compiled<F: Files, W: Sink>(
    alloc: Global,
    from: &str,
    warns: bool,
    wanted: bool,
    files: &mut F,
    output: &mut W,
    said: &mut String,
) -> Result<(), Fault>
    requires none { string_bytes said.now ≡ [] }
    ensures done { OnOk result
        (Writes (AreOfProgram (F.contents files.old) from.now) (W.taken output.old) (W.taken output.new)) }
    ensures refused { IfErr result
        (RefusesWriting (F.contents files.old) from.now (W.taken output.old) (W.taken output.new)) }
    ensures none_failed { OnOk result (W.failures output.new ≡ W.failures output.old) }
    ensures failed { IfErr result (λ fault. W.failures output.new ≡ W.failures output.old + writes_failed fault) }
    ensures unread { IfErr result (λ fault. reads_failed fault ≡ 0) }
    ensures files { F.contents files.new ≡ F.contents files.old }
    ensures none_missed { OnOk result (F.failures files.new ≡ F.failures files.old) }
    ensures missed { IfErr result (λ fault. F.failures files.new ≡ F.failures files.old + files_failed fault) }
    ensures warned { OnOk result (AreWarningsOf (F.contents files.old) from.now warns (string_bytes said.new)) }
    ensures reported { IfErr result (λ fault.
        SaysOfFault (F.contents files.old) from.now wanted fault (string_bytes said.new)) }
{
    let source = source_told(alloc, from, wanted, files, said)?;
    write_held(
        alloc,
        from,
        &source.bytes,
        source.written(),
        warns,
        wanted,
        output,
        said,
    )
}
