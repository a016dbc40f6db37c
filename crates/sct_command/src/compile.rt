//! The verb `compile`, where the image goes to a file.

ghost use Rattle.std.specs.Prelude.{◌≡◌, ◌+◌, [], IfErr, OnErr, OnOk, string_bytes};
ghost use Rattle.std.specs.Str.{IsUtf8};
ghost use Rattle.command_files.specs.Standing.{StandsFor};
ghost use Rattle.sct_command.specs.Beside.{AreWarnings, AreWarningsOf, SaysOfFault};
ghost use Rattle.sct_command.specs.Failing.{files_failed, reads_failed, writes_failed};
ghost use Rattle.sct_command.specs.Inside.Held.{KeepsProgram, RefusesProgram, SaysOfBytes};
ghost use Rattle.sct_command.specs.Inside.StoredImage.{KeepsImage, RefusesKeeping};
ghost use Rattle.sct_command.specs.Sources.{Compiles, RefusesCompile};

use crate::fault::Fault;
use crate::keep::keep_image;
use crate::source_image::{image_told, source_told};
use crate::warnings::warnings_wanted;
use command_files::Files;
use sc_values::Sink;
use std::alloc::Global;
use verifier::Verified;

// Keeps an image of the program in the file of one name, in which these bytes are, and says the warnings of them where
// they are wanted.
fn keep_warned<F: Files, W: Sink>(
    alloc: Global,
    from: &str,
    bytes: &[u8],
    image: &Verified,
    to: &str,
    warns: bool,
    files: &mut F,
    output: &mut W,
    said: &mut String,
) -> Result<(), Fault>
    requires text { IsUtf8 bytes.now }
    requires none { string_bytes said.now ≡ [] }
    ensures done { OnOk result (KeepsImage image.now (F.contents files.old) (F.contents files.new) to.now
        (W.taken output.old) (W.taken output.new)) }
    ensures refused { IfErr result (RefusesKeeping image.now (F.contents files.old) (F.contents files.new) to.now
        (W.taken output.old) (W.taken output.new)) }
    ensures none_failed { OnOk result (W.failures output.new ≡ W.failures output.old) }
    ensures failed { IfErr result (λ fault. W.failures output.new ≡ W.failures output.old + writes_failed fault) }
    ensures unread { IfErr result (λ fault. reads_failed fault ≡ 0) }
    ensures none_missed { OnOk result (F.failures files.new ≡ F.failures files.old) }
    ensures missed { IfErr result (λ fault. F.failures files.new ≡ F.failures files.old + files_failed fault) }
    ensures warned { OnOk result (AreWarnings from.now bytes.now warns (string_bytes said.new)) }
    ensures quiet { OnErr result (string_bytes said.new ≡ []) }
{
    let warnings = warnings_wanted(alloc, from, bytes, warns)?;
    keep_image(alloc, image, to, files, output)?;
    *said = warnings;
    Ok(())
}

// Compiles the source that these bytes are, for which other ones stand in the file of one name, to the file of another.
#[tactic(auto, using(crate::proofs::Stands::written_text))]
fn compile_held<F: Files, W: Sink>(
    alloc: Global,
    from: &str,
    bytes: &[u8],
    written: &[u8],
    to: &str,
    warns: bool,
    wanted: bool,
    files: &mut F,
    output: &mut W,
    said: &mut String,
) -> Result<(), Fault>
    requires stands { StandsFor written.now bytes.now }
    requires none { string_bytes said.now ≡ [] }
    ensures done { OnOk result (KeepsProgram bytes.now (F.contents files.old) (F.contents files.new) to.now
        (W.taken output.old) (W.taken output.new)) }
    ensures refused { IfErr result (RefusesProgram bytes.now (F.contents files.old) (F.contents files.new) to.now
        (W.taken output.old) (W.taken output.new)) }
    ensures none_failed { OnOk result (W.failures output.new ≡ W.failures output.old) }
    ensures failed { IfErr result (λ fault. W.failures output.new ≡ W.failures output.old + writes_failed fault) }
    ensures unread { IfErr result (λ fault. reads_failed fault ≡ 0) }
    ensures none_missed { OnOk result (F.failures files.new ≡ F.failures files.old) }
    ensures missed { IfErr result (λ fault. F.failures files.new ≡ F.failures files.old + files_failed fault) }
    ensures warned { OnOk result (AreWarnings from.now written.now warns (string_bytes said.new)) }
    ensures reported { IfErr result (λ fault. SaysOfBytes from.now bytes.now wanted fault (string_bytes said.new)) }
{
    let image = image_told(alloc, from, bytes, written, wanted, said)?;
    keep_warned(
        alloc,
        from,
        written,
        image.get(),
        to,
        warns,
        files,
        output,
        said,
    )
}

/// Writes the image of the program in one file to another, once it is verified, and then its summary to the
/// output, and says the warnings of the text where they are wanted. Err: there is no program in the first file, it has
/// no image, of which a report is `said` where words are wanted, or the second file cannot be written, and then no file
/// changed; or the output failed, after the file was written.
#[tactic(auto, using(crate::proofs::Stands::stands_seen))]
pub(crate) fn compile<F: Files, W: Sink>(
    alloc: Global,
    from: &str,
    to: &str,
    warns: bool,
    wanted: bool,
    files: &mut F,
    output: &mut W,
    said: &mut String,
) -> Result<(), Fault>
    requires none { string_bytes said.now ≡ [] }
    ensures done { OnOk result (Compiles (F.contents files.old) (F.contents files.new) from.now to.now
        (W.taken output.old) (W.taken output.new)) }
    ensures refused { IfErr result (RefusesCompile (F.contents files.old) (F.contents files.new) from.now to.now
        (W.taken output.old) (W.taken output.new)) }
    ensures none_failed { OnOk result (W.failures output.new ≡ W.failures output.old) }
    ensures failed { IfErr result (λ fault. W.failures output.new ≡ W.failures output.old + writes_failed fault) }
    ensures unread { IfErr result (λ fault. reads_failed fault ≡ 0) }
    ensures none_missed { OnOk result (F.failures files.new ≡ F.failures files.old) }
    ensures missed { IfErr result (λ fault. F.failures files.new ≡ F.failures files.old + files_failed fault) }
    ensures warned { OnOk result (AreWarningsOf (F.contents files.old) from.now warns (string_bytes said.new)) }
    ensures reported { IfErr result (λ fault.
        SaysOfFault (F.contents files.old) from.now wanted fault (string_bytes said.new)) }
{
    let source = source_told(alloc, from, wanted, files, said)?;
    compile_held(
        alloc,
        from,
        &source.bytes,
        source.written(),
        to,
        warns,
        wanted,
        files,
        output,
        said,
    )
}
