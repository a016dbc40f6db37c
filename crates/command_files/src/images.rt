//! The image in a file.

ghost use Rattle.std.specs.Prelude.{◌≡◌, ◌+◌, IfErr, IfOk, OnOk};
ghost use Rattle.command_files.specs.Counting.{files_failed};
ghost use Rattle.sc_graph.specs.Valid.{IsValid};
ghost use Rattle.bytecode.specs.Reading.Image.{version_of};
ghost use Rattle.bytecode.specs.Spells.{Spells};
ghost use Rattle.command_files.specs.Images.{IsLoaded, BytesLackImage, FileLacksImage};

use crate::fault::LoadFault;
use crate::files::Files;
use crate::load::bytes_of;
use bytecode::decode_either;
use sqlite_items::Boxed;
use std::alloc::Global;
use verifier::{Verified, verify};

// The valid image that these bytes spell.
fn verified(alloc: Global, bytes: &[u8]) -> Result<Verified, LoadFault>
    ensures spelt { IfOk result (λ image. Spells (version_of bytes.now) bytes.now image) }
    ensures valid { IfOk result (λ image. IsValid image.program image.tables) }
    ensures fault { IfErr result (BytesLackImage bytes.now) }
{
    match decode_either(alloc, bytes) {
        Ok(image) => match verify(alloc, image) {
            Ok(image) => Ok(image),
            Err(refusal) => Err(LoadFault::Rule(refusal)),
        },
        Err(fault) => Err(LoadFault::Image(fault)),
    }
}

/// The image in the file of this name, once it is verified, in a box, which is dropped in one step. Err: the file could
/// not be read, or why it has no valid image.
pub fn load_verified<F: Files>(
    alloc: Global,
    files: &mut F,
    name: &str,
) -> Result<Boxed<Verified>, LoadFault>
    ensures loaded { IfOk result (IsLoaded (F.contents files.old) name.now) }
    ensures fault { IfErr result (FileLacksImage (F.contents files.old) name.now) }
    ensures same { F.contents files.new ≡ F.contents files.old }
    ensures none_failed { OnOk result (F.failures files.new ≡ F.failures files.old) }
    ensures failed { IfErr result (λ fault. F.failures files.new ≡ F.failures files.old + files_failed fault) }
{
    let bytes = bytes_of(alloc, files, name)?;
    let image = verified(alloc, &bytes)?;
    Ok(Boxed::new(alloc, image)?)
}
