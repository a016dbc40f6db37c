//! The names in a folder of the system.

ghost use Rattle.std.specs.Prelude.{IfOk, IfSome, string_cmp};
ghost use Rattle.std.specs.List.Sorted.{IsSorted};

use std::alloc::{AllocError, Global};
use std::rt::Files as SystemFiles;
use std::{fs, io};

// Whether this name leads to a folder.
fn is_folder<R: SystemFiles>(rt: &R, name: &str) -> bool {
    match fs::metadata(rt, name) {
        Ok(found) => found.is_dir(),
        Err(_) => false,
    }
}

// The names in a folder, those that are text.
fn read_names<R: SystemFiles + AllocGlobal + Clone + Drop>(
    alloc: Global,
    rt: &R,
    folder: &str,
) -> io::Result<Vec<String>> {
    let mut names = Vec::new(alloc);
    for entry in fs::read_dir(rt, folder)? {
        match entry {
            Ok(entry) => names.push(String::from_str(alloc, entry.file_name())?)?,
            Err(error) if error.kind() == io::ErrorKind::InvalidFilename => {}
            Err(error) => return Err(error),
        }
    }
    Ok(names)
}

/// The names in the folder to which a name leads, those that are text, in their order. None: it leads to no folder, or
/// to one that cannot be read.
pub(crate) fn names_in<R: SystemFiles + AllocGlobal + Clone + Drop>(
    alloc: Global,
    rt: &R,
    folder: &str,
) -> Result<Option<Vec<String>>, AllocError>
    ensures { IfOk result (λ names. IfSome names (λ names. IsSorted string_cmp names.items)) }
{
    if !is_folder(rt, folder) {
        return Ok(None);
    }
    match read_names(alloc, rt, folder) {
        Ok(mut names) => {
            names.sort()?;
            Ok(Some(names))
        }
        Err(error) if error.kind() == io::ErrorKind::OutOfMemory => Err(AllocError),
        Err(_) => Ok(None),
    }
}
