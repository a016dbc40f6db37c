//! The bytes of a file.

ghost use Rattle.std.specs.Prelude.{◌≡◌, ◌+◌, IfErr, IfOk, OnOk};
ghost use Rattle.command_files.specs.Counting.{files_failed};
ghost use Rattle.command_files.specs.Files.{HasBytes};
ghost use Rattle.command_files.specs.Images.{FileLacksImage};
ghost use Rattle.command_files.specs.Standing.{FileLacksSource};

use crate::fault::LoadFault;
use crate::fault_text::shown_name;
use crate::files::{FileFault, Files};
use std::alloc::Global;

/// The bytes of the file of this name. Err: it could not be read; or memory was refused.
pub fn bytes_of<F: Files>(alloc: Global, files: &mut F, name: &str) -> Result<Vec<u8>, LoadFault>
    ensures bytes { IfOk result (λ bytes. HasBytes (F.contents files.old) name.now bytes.items) }
    ensures fault { IfErr result (FileLacksImage (F.contents files.old) name.now) }
    ensures source { IfErr result (FileLacksSource (F.contents files.old) name.now) }
    ensures same { F.contents files.new ≡ F.contents files.old }
    ensures none_failed { OnOk result (F.failures files.new ≡ F.failures files.old) }
    ensures failed { IfErr result (λ fault. F.failures files.new ≡ F.failures files.old + files_failed fault) }
{
    let shown = shown_name(alloc, name)?;
    match files.load(alloc, name) {
        Ok(bytes) => Ok(bytes),
        Err(FileFault::Memory) => Err(LoadFault::Memory),
        Err(FileFault::Named) => Err(LoadFault::File(shown)),
    }
}
