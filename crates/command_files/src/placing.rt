//! How bytes become a file of the system: a new file takes the name, or what stands there is written into.

use crate::files::{FileFault, file_fault};
use std::alloc::{AllocError, Global};
use std::fs::{Metadata, OpenFile, OpenOptions, Permissions};
use std::io::Write;
use std::os::unix::fs::{FileTypeExt, MetadataExt, OpenOptionsExt, PermissionsExt};
use std::rt::Files as SystemFiles;
use std::{fs, io};

// How many names beside that of a file are tried for its new bytes.
const NAMES_BESIDE: u8 = 100;

// How many symbolic links are followed, one after the other.
const LINKS: u8 = 40;

// How many bytes a name in a folder may have, so that one beside it that is longer by `.new99` is none too long.
const LONG_NAME: usize = 249;

// The file to which standard output goes.
const STANDARD_OUTPUT: &str = "/proc/self/fd/1";

// The rights of a file that only its owner reads and writes, and those of everybody, without what an owner lends.
const OWNERS: u32 = 0o600;

const EVERYBODYS: u32 = 0o777;

/// Where a file lies: on which device, and as which file of it.
#[derive(Clone, Copy, PartialEq, Eq)]
pub(crate) struct Place {
    device: u64,
    file: u64,
}

/// Where the file lies to which a name leads. A terminal and the like lies nowhere: what is written there is not read.
pub(crate) fn place_of<R: SystemFiles>(rt: &R, name: &str) -> Option<Place> {
    match fs::metadata(rt, name) {
        Ok(found) if !found.file_type().is_char_device() => Some(Place {
            device: found.dev(),
            file: found.ino(),
        }),
        _ => None,
    }
}

// Whether standard output goes to the file of this name.
fn is_output<R: SystemFiles>(rt: &R, name: &str) -> bool {
    match place_of(rt, name) {
        Some(place) => place_of(rt, STANDARD_OUTPUT) == Some(place),
        None => false,
    }
}

// A name and what a symbolic link there says, as one name.
fn joined(alloc: Global, name: &str, link: &str) -> Result<String, AllocError> {
    if link.starts_with('/') {
        return String::from_str(alloc, link);
    }
    match name.rsplit_once('/') {
        Some((folder, _)) => format!(in alloc; "{folder}/{link}"),
        None => String::from_str(alloc, link),
    }
}

// The name to which symbolic links lead from this one. There need be no file of it.
fn followed<R: SystemFiles>(alloc: Global, rt: &R, name: &str) -> Result<String, FileFault> {
    let mut name = String::from_str(alloc, name)?;
    for _ in 0..LINKS {
        match fs::symlink_metadata(rt, name.as_str()) {
            Ok(found) if found.is_symlink() => {
                let link = rt.read_link(alloc, name.as_str()).map_err(file_fault)?;
                name = joined(alloc, name.as_str(), link.as_str())?;
            }
            Ok(_) => return Ok(name),
            Err(error) if error.kind() == io::ErrorKind::NotFound => return Ok(name),
            Err(error) => return Err(file_fault(error)),
        }
    }
    Err(FileFault::Named)
}

// A name beside this one, which is no longer than a folder takes.
fn name_beside(alloc: Global, name: &str, number: u8) -> Result<String, AllocError> {
    match name.rsplit_once('/') {
        Some((folder, own)) if own.len() > LONG_NAME => {
            format!(in alloc; "{folder}/sct.new{number}")
        }
        None if name.len() > LONG_NAME => format!(in alloc; "sct.new{number}"),
        _ => format!(in alloc; "{name}.new{number}"),
    }
}

// A new file beside the one of this name, with its own name. Where there is an old one, others see nothing of it yet.
fn file_beside<R: SystemFiles>(
    alloc: Global,
    rt: &R,
    name: &str,
    is_old: bool,
) -> Result<(R::File, String), FileFault> {
    let mut options = OpenOptions::new();
    options.write(true).create_new(true);
    if is_old {
        options.mode(OWNERS);
    }
    for number in 0..NAMES_BESIDE {
        let beside = name_beside(alloc, name, number)?;
        match options.open(rt, beside.as_str()) {
            Ok(file) => return Ok((file, beside)),
            Err(error) if error.kind() == io::ErrorKind::AlreadyExists => {}
            Err(error) => return Err(file_fault(error)),
        }
    }
    Err(FileFault::Named)
}

// Gives a new file the owner and the permissions of an old one. Where the owner cannot be had, which only the system's
// administrator may give, the group is, where that can be had; and then it lends nothing of its owner.
fn keep_rights<R: SystemFiles>(
    rt: &R,
    file: &R::File,
    beside: &str,
    old: &Metadata,
) -> io::Result<()> {
    let new = file.metadata()?;
    let is_owned = new.uid() == old.uid() && new.gid() == old.gid();
    if is_owned || rt.chown(beside, Some(old.uid()), Some(old.gid())).is_ok() {
        return file.set_permissions(old.permissions());
    }
    let _ = rt.chown(beside, None, Some(old.gid()));
    file.set_permissions(Permissions::from_mode(old.mode() & EVERYBODYS))
}

// Writes the new file, and brings it to the disk.
fn fill<R: SystemFiles>(
    rt: &R,
    file: &mut R::File,
    beside: &str,
    old: Option<&Metadata>,
    bytes: &[u8],
) -> io::Result<()> {
    file.write_all(bytes)?;
    if let Some(old) = old {
        keep_rights(rt, file, beside, old)?;
    }
    file.sync_all()
}

// Brings to the disk which file has this name. It has it already, so nothing is refused where that fails.
fn sync_folder<R: SystemFiles>(rt: &R, name: &str) {
    let folder = match name.rsplit_once('/') {
        Some(("", _)) => "/",
        Some((folder, _)) => folder,
        None => ".",
    };
    if let Ok(folder) = fs::File::open(rt, folder) {
        let _ = folder.sync_all();
    }
}

// Fills a new file, which then takes this name.
fn take_name<R: SystemFiles>(
    rt: &R,
    file: R::File,
    beside: &str,
    name: &str,
    old: Option<&Metadata>,
    bytes: &[u8],
) -> io::Result<()> {
    let mut file = file;
    fill(rt, &mut file, beside, old, bytes)?;
    drop(file);
    fs::rename(rt, beside, name)
}

// Makes these bytes the file of this name. They go to a new file beside it, which then takes the name: a reader finds
// the old bytes or the new ones, whole.
fn replace<R: SystemFiles>(
    alloc: Global,
    rt: &R,
    name: &str,
    old: Option<&Metadata>,
    bytes: &[u8],
) -> Result<(), FileFault> {
    let (file, beside) = file_beside(alloc, rt, name, old.is_some())?;
    match take_name(rt, file, beside.as_str(), name, old, bytes) {
        Ok(()) => {
            sync_folder(rt, name);
            Ok(())
        }
        Err(error) => {
            let _ = fs::remove_file(rt, beside.as_str());
            Err(file_fault(error))
        }
    }
}

// Writes these bytes into what stands at this name and is no regular file. A folder cannot be opened so.
fn write_into<R: SystemFiles>(
    rt: &R,
    name: &str,
    there: &Metadata,
    bytes: &[u8],
) -> io::Result<()> {
    let mut file = OpenOptions::new().write(true).open(rt, name)?;
    file.write_all(bytes)?;
    if there.file_type().is_block_device() {
        file.sync_all()
    } else {
        Ok(())
    }
}

/// Whether nothing stands at this name, no symbolic link either.
pub(crate) fn is_free<R: SystemFiles>(rt: &R, name: &str) -> bool {
    match fs::symlink_metadata(rt, name) {
        Ok(_) => false,
        Err(error) => error.kind() == io::ErrorKind::NotFound,
    }
}

/// Makes these bytes a new file of this name. Where something stands there, it is left as it is; where they cannot be
/// written, no file is left.
pub(crate) fn put_new<R: SystemFiles>(rt: &R, name: &str, bytes: &[u8]) -> io::Result<()> {
    let mut options = OpenOptions::new();
    options.write(true).create_new(true);
    let mut file = options.open(rt, name)?;
    let filled = fill(rt, &mut file, name, None, bytes);
    drop(file);
    match &filled {
        Ok(()) => sync_folder(rt, name),
        Err(_) => {
            let _ = fs::remove_file(rt, name);
        }
    }
    filled
}

/// Makes these bytes what is at this name. A regular file, also one to which symbolic links lead, is replaced by a new
/// one with its owner and its permissions, and is refused where standard output goes to it; what else stands there is
/// written into.
pub(crate) fn put<R: SystemFiles>(
    alloc: Global,
    rt: &R,
    name: &str,
    bytes: &[u8],
) -> Result<(), FileFault> {
    match fs::metadata(rt, name) {
        Ok(old) if old.is_file() => {
            if is_output(rt, name) {
                return Err(FileFault::Named);
            }
            let name = followed(alloc, rt, name)?;
            replace(alloc, rt, name.as_str(), Some(&old), bytes)
        }
        Ok(there) => write_into(rt, name, &there, bytes).map_err(file_fault),
        Err(error) if error.kind() == io::ErrorKind::NotFound => {
            let name = followed(alloc, rt, name)?;
            replace(alloc, rt, name.as_str(), None, bytes)
        }
        Err(error) => Err(file_fault(error)),
    }
}
