//! Writing a file, and a new one.

ghost use Rattle.std.specs.Prelude.{◌≡◌, ◌+◌, IfErr, OnErr, OnOk};
ghost use Rattle.command_files.specs.Counting.{files_failed};
ghost use Rattle.command_files.specs.Files.{IsFree, Stores};
ghost use Rattle.command_files.specs.Storing.{IsNotStored};

use crate::fault::LoadFault;
use crate::fault_text::shown_name;
use crate::files::{FileFault, Files};
use std::alloc::Global;

/// Makes these bytes the file of this name. Err: it could not be written, and then no file changed.
pub fn store<F: Files>(
    alloc: Global,
    files: &mut F,
    name: &str,
    bytes: &[u8],
) -> Result<(), LoadFault>
    ensures stored { OnOk result (Stores (F.contents files.old) (F.contents files.new) name.now bytes.now) }
    ensures fault { IfErr result (IsNotStored name.now) }
    ensures same { OnErr result (F.contents files.new ≡ F.contents files.old) }
    ensures none_failed { OnOk result (F.failures files.new ≡ F.failures files.old) }
    ensures failed { IfErr result (λ fault. F.failures files.new ≡ F.failures files.old + files_failed fault) }
{
    let shown = shown_name(alloc, name)?;
    match files.store(alloc, name, bytes) {
        Ok(()) => Ok(()),
        Err(FileFault::Memory) => Err(LoadFault::Memory),
        Err(FileFault::Named) => Err(LoadFault::File(shown)),
    }
}

/// Makes these bytes a new file of this name. Err: something stands there, or it could not be written, and no file
/// changed.
pub fn store_new<F: Files>(
    alloc: Global,
    files: &mut F,
    name: &str,
    bytes: &[u8],
) -> Result<(), LoadFault>
    ensures stored { OnOk result (Stores (F.contents files.old) (F.contents files.new) name.now bytes.now) }
    ensures was_free { OnOk result (IsFree (F.contents files.old) name.now) }
    ensures fault { IfErr result (IsNotStored name.now) }
    ensures same { OnErr result (F.contents files.new ≡ F.contents files.old) }
    ensures none_failed { OnOk result (F.failures files.new ≡ F.failures files.old) }
    ensures failed { IfErr result (λ fault. F.failures files.new ≡ F.failures files.old + files_failed fault) }
{
    let shown = shown_name(alloc, name)?;
    match files.create(alloc, name, bytes) {
        Ok(()) => Ok(()),
        Err(FileFault::Memory) => Err(LoadFault::Memory),
        Err(FileFault::Named) => Err(LoadFault::File(shown)),
    }
}
