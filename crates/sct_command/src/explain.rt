//! The verb `explain`.

ghost use Rattle.std.specs.Prelude.{◌≡◌, ◌+◌, ◌≤◌, Option, IfErr, IfOk, OnOk, string_bytes};
ghost use Rattle.std.specs.Str.{IsUtf8};
ghost use Rattle.command_files.specs.Counting as files_count;
ghost use Rattle.command_files.specs.Files.{Contents, HasBytes};
ghost use Rattle.command_files.specs.Standing.{StandsFor};
ghost use Rattle.sct_command.specs.Explaining.{FindsImage, RefusesExplaining, RefusesTelling};
ghost use Rattle.sct_command.specs.Explaining.{IsFound, IsReport, RefusesFound, WritesFound};
ghost use Rattle.sct_command.specs.Inside.Telling.{IsTold};
ghost use Rattle.sct_command.specs.Writing.{Writes};
ghost use Rattle.sct_command.specs.Failing.{files_failed, reads_failed, writes_failed};

use crate::fault::Fault;
use crate::report::report_of;
use crate::warnings::warnings_in;
use crate::writing::write_bytes;
use bytecode::Image;
use command_files::{Files, Unmade, bytes_of, compile_read, reduced_source};
use command_texts::summary_of;
use sc_values::Sink;
use sqlite_items::Boxed;
use std::alloc::{AllocError, Global};

// Writes what is to be said of the fault of these bytes, which are those of the file of this name.
fn tell<W: Sink>(
    alloc: Global,
    name: &str,
    bytes: &[u8],
    written: &[u8],
    unmade: &Unmade<'_>,
    output: &mut W,
) -> Result<(), Fault>
    ensures told { OnOk result
        (Writes (IsReport name.now bytes.now unmade.now.fault) (W.taken output.old) (W.taken output.new)) }
    ensures refused { IfErr result (RefusesTelling (W.taken output.old) (W.taken output.new)) }
    ensures missed { IfErr result (λ fault. files_failed fault ≡ 0) }
    ensures none_failed { OnOk result (W.failures output.new ≡ W.failures output.old) }
    ensures failed { IfErr result (λ fault. W.failures output.new ≡ W.failures output.old + writes_failed fault) }
    ensures unread { IfErr result (λ fault. reads_failed fault ≡ 0) }
{
    let text = report_of(alloc, name, bytes, written, &unmade.fault, unmade.source())?;
    write_bytes(output, text.as_bytes())
}

// Tells of a fault. Gives it, or why it could not be told.
fn refused<W: Sink>(
    alloc: Global,
    name: &str,
    bytes: &[u8],
    written: &[u8],
    unmade: Unmade<'_>,
    output: &mut W,
) -> Fault
    ensures told { IsTold name.now bytes.now unmade.entry.fault (W.taken output.old) (W.taken output.new) result }
    ensures failed { W.failures output.new ≡ W.failures output.old + writes_failed result }
    ensures unread { reads_failed result ≡ 0 }
    ensures missed { files_failed result ≤ files_count.files_failed unmade.entry.fault }
{
    match tell(alloc, name, bytes, written, &unmade, output) {
        Ok(()) => Fault::Files(unmade.fault),
        Err(other) => other,
    }
}

// What is said of an image of the program in the file of this name, in which these bytes are.
fn found_said(alloc: Global, name: &str, bytes: &[u8], image: &Image) -> Result<String, AllocError>
    requires { IsUtf8 bytes.now }
    ensures { IfOk result (λ text. IsFound name.now bytes.now image.now (string_bytes text)) }
{
    let warnings = warnings_in(alloc, name, bytes)?;
    let mut text = summary_of(alloc, image)?;
    text.push_str(warnings.as_str())?;
    Ok(text)
}

// Writes it. Err: memory was refused; or the output failed.
fn tell_found<W: Sink>(
    alloc: Global,
    name: &str,
    bytes: &[u8],
    image: &Image,
    output: &mut W,
) -> Result<(), Fault>
    requires { IsUtf8 bytes.now }
    ensures done { OnOk result (WritesFound name.now bytes.now image.now (W.taken output.old) (W.taken output.new)) }
    ensures refused { IfErr result
        (RefusesFound name.now bytes.now image.now (W.taken output.old) (W.taken output.new)) }
    ensures none_failed { OnOk result (W.failures output.new ≡ W.failures output.old) }
    ensures failed { IfErr result (λ fault. W.failures output.new ≡ W.failures output.old + writes_failed fault) }
    ensures unread { IfErr result (λ fault. reads_failed fault ≡ 0) }
    ensures missed { IfErr result (λ fault. files_failed fault ≡ 0) }
{
    let text = found_said(alloc, name, bytes, image)?;
    write_bytes(output, text.as_bytes())
}

// Compiles the source that these bytes are, and tells of its image, or of why it has none: in the text of its author,
// where they are that of the chart to which an extended chart is reduced, which is written in the file.
#[tactic(auto, using(image_charts::proofs::TextImages::quiet))]
fn explain_source<W: Sink>(
    alloc: Global,
    name: &str,
    bytes: &[u8],
    written: &[u8],
    output: &mut W,
) -> Result<(), Fault>
    requires stands { StandsFor written.now bytes.now }
    ensures done { (files : Option Contents) → HasBytes files name.now written.now
        → OnOk result (FindsImage files name.now (W.taken output.old) (W.taken output.new)) }
    ensures refused { (files : Option Contents) → HasBytes files name.now written.now
        → IfErr result (RefusesExplaining files name.now (W.taken output.old) (W.taken output.new)) }
    ensures none_failed { OnOk result (W.failures output.new ≡ W.failures output.old) }
    ensures failed { IfErr result (λ fault. W.failures output.new ≡ W.failures output.old + writes_failed fault) }
    ensures unread { IfErr result (λ fault. reads_failed fault ≡ 0) }
    ensures missed { IfErr result (λ fault. files_failed fault ≡ 0) }
{
    match compile_read(alloc, bytes) {
        Ok(image) => {
            let image = Boxed::new(alloc, image)?;
            tell_found(alloc, name, written, image.get().image(), output)
        }
        Err(unmade) => Err(refused(alloc, name, bytes, written, unmade, output)),
    }
}

/// Compiles the program in this file, and writes the summary of its image with the warnings of what is written there,
/// or else why it has none: the place of the fault, what is wrong, and what helps. Err: there is no program in the
/// file, or it has no image, and this was told; or the output failed.
#[tactic(auto, using(crate::proofs::Told::told_source, crate::proofs::Told::told_faulty, crate::proofs::Stands::stands_written, crate::proofs::Stands::stands_reduced, crate::proofs::Stands::held_seen))]
pub(crate) fn explain<F: Files, W: Sink>(
    alloc: Global,
    name: &str,
    files: &mut F,
    output: &mut W,
) -> Result<(), Fault>
    ensures done { OnOk result (FindsImage (F.contents files.old) name.now (W.taken output.old) (W.taken output.new)) }
    ensures refused { IfErr result
        (RefusesExplaining (F.contents files.old) name.now (W.taken output.old) (W.taken output.new)) }
    ensures none_failed { OnOk result (W.failures output.new ≡ W.failures output.old) }
    ensures failed { IfErr result (λ fault. W.failures output.new ≡ W.failures output.old + writes_failed fault) }
    ensures files { F.contents files.new ≡ F.contents files.old }
    ensures unread { IfErr result (λ fault. reads_failed fault ≡ 0) }
    ensures none_missed { OnOk result (F.failures files.new ≡ F.failures files.old) }
    ensures missed { IfErr result (λ fault. F.failures files.old + files_failed fault ≤ F.failures files.new) }
{
    let bytes = match bytes_of(alloc, files, name) {
        Ok(bytes) => bytes,
        Err(fault) => {
            let unmade = Unmade::unread(fault);
            return Err(refused(alloc, name, b"", b"", unmade, output));
        }
    };
    match reduced_source(alloc, &bytes) {
        Ok(Some(text)) => explain_source(alloc, name, text.as_bytes(), &bytes, output),
        Ok(None) => explain_source(alloc, name, &bytes, &bytes, output),
        Err(fault) => {
            let unmade = Unmade::unread(fault);
            Err(refused(alloc, name, &bytes, b"", unmade, output))
        }
    }
}
