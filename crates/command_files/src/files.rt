//! Files by name: what is read from them, and how they are written.

ghost use Rattle.std.specs.Prelude.{◌≡◌, ◌+◌, ℕ, Option, None, IfOk, IfErr, IfSome, MatchBool, OnOk, OnErr, IsErrOf};
ghost use Rattle.std.specs.Prelude.{map, option_map, string_bytes, string_cmp};
ghost use Rattle.std.specs.List.Sorted.{IsSorted};
ghost use Rattle.command_files.specs.Counting.{named_failures};
ghost use Rattle.command_files.specs.Files.{Contents, HasBytes, IsFree, IsTaken, LacksFile, Lists, Stores};

use crate::listing::names_in;
use crate::placing::{Place, is_free, place_of, put, put_new};
use sc_values::Failures;
use std::alloc::{AllocError, Global};
use std::rt::Files as SystemFiles;
use std::sync::ledger::Ledger;
use std::{fs, io};

/// Why a file was not read or written.
#[derive(Clone, Copy, Debug, PartialEq, Eq)]
pub enum FileFault {
    /// Memory was refused.
    Memory,
    /// The file of this name cannot be read or written.
    Named,
}

impl From<AllocError> for FileFault {
    ghost use Rattle.command_files.specs.declared.files.FileFault.TheVariants.{Memory};

    ghost from_gives = { λ _ e. e ≡ Memory };

    fn from(_error: AllocError) -> FileFault {
        FileFault::Memory
    }
}

/// The files that the program reads and writes, by name, and the folders that hold them. Contracts may see what they
/// hold, and see how often a name failed.
pub trait Files {
    ghost contents: { Self → Option Contents } = { λ _. None };

    ghost failures: { Self → ℕ };

    /// The bytes of the file of this name.
    fn load(&mut self, alloc: Global, name: &str) -> Result<Vec<u8>, FileFault>
        ensures bytes { IfOk result (λ bytes. HasBytes (contents self.old) name.now bytes.items) }
        ensures none { IsErrOf result FileFault.Named → LacksFile (contents self.old) name.now }
        ensures same { contents self.new ≡ contents self.old }
        ensures none_failed { OnOk result (failures self.new ≡ failures self.old) }
        ensures failed { IfErr result (λ fault. failures self.new ≡ failures self.old + named_failures fault) };

    /// Makes these bytes the whole of the file of this name, which need not be there. At an `Err`
    /// each file is as it was.
    fn store(&mut self, alloc: Global, name: &str, bytes: &[u8]) -> Result<(), FileFault>
        ensures stored { OnOk result (Stores (contents self.old) (contents self.new) name.now bytes.now) }
        ensures same { OnErr result (contents self.new ≡ contents self.old) }
        ensures none_failed { OnOk result (failures self.new ≡ failures self.old) }
        ensures failed { IfErr result (λ fault. failures self.new ≡ failures self.old + named_failures fault) };

    /// Whether nothing stands at this name, so that a new file can have it.
    fn is_free(&self, name: &str) -> bool
        ensures { MatchBool result (IsFree (contents self.now) name.now) (IsTaken (contents self.now) name.now) };

    /// Makes these bytes a new file of this name. Err: something stands there, or it cannot be written; each file is as
    /// it was.
    fn create(&mut self, alloc: Global, name: &str, bytes: &[u8]) -> Result<(), FileFault>
        ensures stored { OnOk result (Stores (contents self.old) (contents self.new) name.now bytes.now) }
        ensures was_free { OnOk result (IsFree (contents self.old) name.now) }
        ensures same { OnErr result (contents self.new ≡ contents self.old) }
        ensures none_failed { OnOk result (failures self.new ≡ failures self.old) }
        ensures failed { IfErr result (λ fault. failures self.new ≡ failures self.old + named_failures fault) };

    /// The names in the folder of this name that are text, in their order. None: there is no folder of the name that
    /// can be read. Err: memory was refused.
    fn names_in(&mut self, alloc: Global, folder: &str) -> Result<Option<Vec<String>>, AllocError>
        ensures names { IfOk result (λ names. Lists (contents self.old) folder.now
            (option_map (λ names. map string_bytes names.items) names)) }
        ensures sorted { IfOk result (λ names. IfSome names (λ names. IsSorted string_cmp names.items)) }
        ensures same { contents self.new ≡ contents self.old }
        ensures none_failed { failures self.new ≡ failures self.old };
}

// The name that stands for standard input, and the file from which that comes.
const INPUT_NAME: &str = "-";

const STANDARD_INPUT: &str = "/proc/self/fd/0";

// The file of the system of a name that is read.
fn read_path(name: &str) -> &str {
    if name == INPUT_NAME {
        STANDARD_INPUT
    } else {
        name
    }
}

/// The files of the system, of which `-` is standard input where a file is read; and where the one lies that was loaded
/// last.
#[derive(Drop)]
pub struct HostFiles<'a, R: SystemFiles + AllocGlobal + Clone + Drop, L: Ledger> {
    rt: &'a R,
    loaded: Option<Place>,
    failed: Failures<L>,
}

impl<'a, R: SystemFiles + AllocGlobal + Clone + Drop, L: Ledger> HostFiles<'a, R, L> {
    /// The files that this runtime reaches, with the count of their failures so far.
    pub fn new(rt: &'a R, failed: Failures<L>) -> HostFiles<'a, R, L>
        ensures { result.failed ≡ failed }
    {
        HostFiles {
            rt,
            loaded: None,
            failed,
        }
    }

    // A fault, once it is counted.
    fn counted(&mut self, fault: FileFault) -> FileFault
        ensures same { result ≡ fault }
        ensures count { self.new.failed ≡ self.old.failed + named_failures fault }
    {
        if fault == FileFault::Named {
            self.failed.add();
        }
        fault
    }
}

/// Why a file was not read or written, of the fault of the system.
pub(crate) fn file_fault(error: io::Error) -> FileFault {
    match error.kind() {
        io::ErrorKind::OutOfMemory => FileFault::Memory,
        _ => FileFault::Named,
    }
}

impl<'a, R: SystemFiles + AllocGlobal + Clone + Drop, L: Ledger> Files for HostFiles<'a, R, L> {
    ghost failures = { λ f. f.failed };

    fn load(&mut self, _alloc: Global, name: &str) -> Result<Vec<u8>, FileFault> {
        let path = read_path(name);
        self.loaded = place_of(self.rt, path);
        match fs::read(self.rt, path) {
            Ok(bytes) => Ok(bytes),
            Err(error) => Err(self.counted(file_fault(error))),
        }
    }

    // The file that was loaded is not written, by whatever name: it is the one of which the bytes were made. Nor is one
    // written of the name that stands for standard input.
    fn store(&mut self, alloc: Global, name: &str, bytes: &[u8]) -> Result<(), FileFault> {
        let is_read = self.loaded.is_some() && self.loaded == place_of(self.rt, name);
        if name == INPUT_NAME || is_read {
            return Err(self.counted(FileFault::Named));
        }
        match put(alloc, self.rt, name, bytes) {
            Ok(()) => Ok(()),
            Err(fault) => Err(self.counted(fault)),
        }
    }

    fn is_free(&self, name: &str) -> bool {
        name != INPUT_NAME && is_free(self.rt, name)
    }

    fn create(&mut self, _alloc: Global, name: &str, bytes: &[u8]) -> Result<(), FileFault> {
        if name == INPUT_NAME {
            return Err(self.counted(FileFault::Named));
        }
        match put_new(self.rt, name, bytes) {
            Ok(()) => Ok(()),
            Err(error) => Err(self.counted(file_fault(error))),
        }
    }

    fn names_in(&mut self, alloc: Global, folder: &str) -> Result<Option<Vec<String>>, AllocError> {
        names_in(alloc, self.rt, folder)
    }
}
