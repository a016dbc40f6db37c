//! The bytes of images.

ghost use Rattle.command_files.specs.Counting.{files_failed};
ghost use Rattle.command_files.specs.Images.{FileLacksImage};
ghost use Rattle.command_texts.specs.Images.{AreOfImage};
ghost use Rattle.std.specs.Prelude.{◌≡◌, ◌+◌, IfErr, IfOk, OnOk};

use bytecode::encode;
use command_files::{Files, LoadFault, load_verified};
use std::alloc::Global;

/// The image in this file, in version 2 of the layout. Err: there is no valid image in the file.
pub(crate) fn migrated_in<F: Files>(
    alloc: Global,
    name: &str,
    files: &mut F,
) -> Result<Vec<u8>, LoadFault>
    ensures made { IfOk result (λ bytes. AreOfImage (F.contents files.old) name.now bytes.items) }
    ensures lacks { IfErr result (FileLacksImage (F.contents files.old) name.now) }
    ensures same { F.contents files.new ≡ F.contents files.old }
    ensures none_failed { OnOk result (F.failures files.new ≡ F.failures files.old) }
    ensures failed { IfErr result (λ fault. F.failures files.new ≡ F.failures files.old + files_failed fault) }
{
    let image = load_verified(alloc, files, name)?;
    let bytes = encode(alloc, image.get().image())?;
    Ok(bytes)
}
