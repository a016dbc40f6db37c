//! The program in a file.

ghost use Rattle.std.specs.Prelude.{◌≡◌, ◌+◌, IfErr, IfOk, OnOk};
ghost use Rattle.command_files.specs.Counting.{files_failed};
ghost use Rattle.command_files.specs.Sources.{FileLacksProgram, BytesLackProgram, IsSource};
ghost use Rattle.compiler.specs.Programs.{SpellsProgram};
ghost use Rattle.std.specs.Str.{IsUtf8};

use crate::fault::LoadFault;
use crate::files::Files;
use crate::standing::source_of;
use compiler::{ReadSource, read_source};
use sc_text::{FaultKind, ReadFault};
use scl::Scl;
use sqlite_items::Boxed;
use std::alloc::Global;
use std::str;

/// These bytes as text. Err: they are no text, which is told of their first place.
pub fn text_of(bytes: &[u8]) -> Result<&str, LoadFault>
    ensures same { IfOk result (λ text. text.now ≡ bytes.now) }
    ensures text { IfOk result (λ _. IsUtf8 bytes.now) }
    ensures fault { IfErr result (BytesLackProgram bytes.now) }
{
    match str::from_utf8(bytes) {
        Ok(text) => Ok(text),
        Err(_) => Err(LoadFault::Text(ReadFault::Text(FaultKind::Token, 0))),
    }
}

/// The text that these bytes are, as it is read for its SCL program. Err: they are no text (E01 at its first place), or
/// the text spells no program: the first fault of the text, or E07 where the expansion of its chart passes a limit.
#[tactic(auto, using(crate::proofs::Held::spelt, crate::proofs::Held::unspelt))]
pub(crate) fn read_bytes<'a>(
    alloc: Global,
    bytes: &'a [u8],
) -> Result<Boxed<ReadSource<'a>>, LoadFault>
    ensures text { IfOk result (λ _. IsUtf8 bytes.now) }
    ensures read { IfOk result (λ source. SpellsProgram bytes.now source.scl) }
    ensures fault { IfErr result (BytesLackProgram bytes.now) }
{
    let text = text_of(bytes)?;
    Ok(read_source(alloc, text)?)
}

// The SCL program that these bytes spell, or that of the chart that they spell.
fn program_in(alloc: Global, bytes: &[u8]) -> Result<Scl, LoadFault>
    ensures text { IfOk result (λ _. IsUtf8 bytes.now) }
    ensures read { IfOk result (SpellsProgram bytes.now) }
    ensures fault { IfErr result (BytesLackProgram bytes.now) }
{
    let source = read_bytes(alloc, bytes)?;
    Ok(source.into_inner().into_scl())
}

/// The SCL program of the source in the file of this name, or of the chart which that spells. Err: there is no source
/// in the file, or it is no text (E01 at its first place), or spells no program: the first fault of the text, or E07
/// where the expansion of its chart passes a limit.
#[tactic(auto, using(crate::proofs::Held::source_in, crate::proofs::Held::no_source))]
pub fn load_scl<F: Files>(alloc: Global, files: &mut F, name: &str) -> Result<Scl, LoadFault>
    ensures loaded { IfOk result (IsSource (F.contents files.old) name.now) }
    ensures fault { IfErr result (FileLacksProgram (F.contents files.old) name.now) }
    ensures same { F.contents files.new ≡ F.contents files.old }
    ensures none_failed { OnOk result (F.failures files.new ≡ F.failures files.old) }
    ensures failed { IfErr result (λ fault. F.failures files.new ≡ F.failures files.old + files_failed fault) }
{
    let bytes = source_of(alloc, files, name)?;
    program_in(alloc, &bytes)
}
