//! The source in a file, and the image of a text, or a report of why there is none.

ghost use Rattle.std.specs.Prelude.{◌≡◌, ◌+◌, [], IfErr, IfOk, OnOk, string_bytes};
ghost use Rattle.command_files.specs.Counting.{files_failed};
ghost use Rattle.command_files.specs.Sources.{BytesLackImage, SpellsImage};
ghost use Rattle.command_files.specs.Files.{HasBytes};
ghost use Rattle.command_files.specs.Standing.{FileLacksSource, HasSource, StandsFor};
ghost use Rattle.sct_command.specs.Beside.{IsReported};
ghost use Rattle.sct_command.specs.Inside.Held.{IsHeldReport, written_in};

use crate::report::report_of;
use command_files::{Files, LoadFault, bytes_of, compile_read, reduced_source};
use compiler::ReadSource;
use sqlite_items::Boxed;
use std::alloc::Global;
use verifier::Verified;

/// The source in a file; and what is written there, where that is the text of an extended chart that is reduced to the
/// source.
#[derive(Drop)]
pub(crate) struct HeldSource {
    pub(crate) bytes: Vec<u8>,
    pub(crate) written: Option<Vec<u8>>,
}

impl HeldSource {
    /// What is written in the file.
    pub(crate) fn written(&self) -> &[u8]
        ensures { result.now ≡ written_in self.now }
    {
        match &self.written {
            Some(written) => written,
            None => &self.bytes,
        }
    }
}

// Says a report of the fault of these bytes, where words are wanted and memory is there for them.
fn say_report(
    alloc: Global,
    name: &str,
    bytes: &[u8],
    written: &[u8],
    fault: &LoadFault,
    source: Option<&ReadSource<'_>>,
    wanted: bool,
    said: &mut String,
)
    requires none { string_bytes said.now ≡ [] }
    ensures { IsHeldReport name.now bytes.now wanted fault.now (string_bytes said.new) }
{
    if wanted {
        if let Ok(report) = report_of(alloc, name, bytes, written, fault, source) {
            *said = report;
        }
    }
}

/// The image of the text that these bytes are, which are those of the source in the file of this name. Err: why there
/// is none, of which a report is `said` where words are wanted and memory is there for them; in the text of the
/// extended chart of its author, where that is written in the file.
#[tactic(auto, using(command_files::proofs::Lacking::lacks_image))]
pub(crate) fn image_told(
    alloc: Global,
    name: &str,
    bytes: &[u8],
    written: &[u8],
    wanted: bool,
    said: &mut String,
) -> Result<Boxed<Verified>, LoadFault>
    requires none { string_bytes said.now ≡ [] }
    ensures spelt { IfOk result (SpellsImage bytes.now) }
    ensures lacks { IfErr result (BytesLackImage bytes.now) }
    ensures quiet { OnOk result (string_bytes said.new ≡ []) }
    ensures reported { IfErr result (λ fault. IsHeldReport name.now bytes.now wanted fault (string_bytes said.new)) }
{
    match compile_read(alloc, bytes) {
        Ok(image) => Ok(Boxed::new(alloc, image)?),
        Err(unmade) => {
            say_report(
                alloc,
                name,
                bytes,
                written,
                &unmade.fault,
                unmade.source(),
                wanted,
                said,
            );
            Err(unmade.fault)
        }
    }
}

/// The source in the file of this name. Err: there is none, of which a report is `said` where words are wanted and
/// memory is there for them.
#[tactic(auto, using(command_files::proofs::Sourced::as_written, command_files::proofs::Sourced::as_reduced, command_files::proofs::Sourced::no_source_in, crate::proofs::Compiled::faulty_reported, crate::proofs::Stands::stands_written, crate::proofs::Stands::stands_reduced))]
pub(crate) fn source_told<F: Files>(
    alloc: Global,
    name: &str,
    wanted: bool,
    files: &mut F,
    said: &mut String,
) -> Result<HeldSource, LoadFault>
    requires none { string_bytes said.now ≡ [] }
    ensures source { IfOk result (λ source. HasSource (F.contents files.old) name.now source.bytes.items) }
    ensures held { IfOk result (λ source. HasBytes (F.contents files.old) name.now (written_in source)) }
    ensures stands { IfOk result (λ source. StandsFor (written_in source) source.bytes.items) }
    ensures fault { IfErr result (FileLacksSource (F.contents files.old) name.now) }
    ensures same { F.contents files.new ≡ F.contents files.old }
    ensures none_failed { OnOk result (F.failures files.new ≡ F.failures files.old) }
    ensures failed { IfErr result (λ fault. F.failures files.new ≡ F.failures files.old + files_failed fault) }
    ensures quiet { OnOk result (string_bytes said.new ≡ []) }
    ensures reported { IfErr result (λ fault.
        IsReported (F.contents files.old) name.now wanted fault (string_bytes said.new)) }
{
    let bytes = bytes_of(alloc, files, name)?;
    match reduced_source(alloc, &bytes) {
        Ok(Some(text)) => Ok(HeldSource {
            bytes: text.into_bytes(),
            written: Some(bytes),
        }),
        Ok(None) => Ok(HeldSource {
            bytes,
            written: None,
        }),
        Err(fault) => {
            say_report(alloc, name, &bytes, b"", &fault, None, wanted, said);
            Err(fault)
        }
    }
}
