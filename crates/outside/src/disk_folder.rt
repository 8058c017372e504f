ghost use Rattle.std.specs.Prelude.{◌≡◌, ◌≤◌, ◌^◌, IfOk, OnOk, OnErr, IsErrOf, length, option_map};
ghost use Rattle.outside.specs.Folder.{Holds, written, called};
ghost use Rattle.outside.specs.Cause.{HasCause, StandsUnless};

use crate::folder::{Folder, FolderFault};
use std::io::{ErrorKind, Read};
use std::rt::Files;
use std::{fs, io};

/// The most bytes that a file may give: 1 GiB.
const MOST_BYTES: usize = 1_073_741_824;

/// The current folder of the process. It tells no content and no calls. Own.
///
/// A name is a path in the current folder. A file that gives more than 1,073,741,824 bytes is a failure. A write that
/// fails may leave the file missing, empty, or with a front of the bytes.
#[derive(Drop)]
pub struct DiskFolder<'a, R> {
    runtime: &'a R,
    faults: u64,
}

impl<'a, R: Files + AllocGlobal> DiskFolder<'a, R> {
    ghost use Rattle.outside.specs.DiskFolder.{failed_calls};

    /// The current folder, with no fault so far.
    pub fn new(runtime: &'a R) -> DiskFolder<'a, R>
        ensures { failed_calls result ≡ 0 }
    {
        DiskFolder { runtime, faults: 0 }
    }

    /// What a folder answers to this error, which it counts where it is a failure.
    fn fault_of(&mut self, kind: ErrorKind) -> FolderFault
        ensures cause { HasCause (failed_calls self.old) (failed_calls self.new) (result ≡ FolderFault.Failed) }
        ensures stands { StandsUnless (result ≡ FolderFault.Failed) (failed_calls self.old) (failed_calls self.new) }
    {
        if kind == ErrorKind::OutOfMemory {
            return FolderFault::Memory;
        }
        self.faults = self.faults.saturating_add(1);
        FolderFault::Failed
    }
}

impl<'a, R: Files + AllocGlobal> Folder for DiskFolder<'a, R> {
    ghost use Rattle.outside.specs.DiskFolder.{calls_told, failed_calls, files_told};

    ghost files = { files_told };

    ghost calls = { calls_told };

    ghost faults = { failed_calls };

    fn read(&mut self, name: &str) -> Result<Vec<u8>, FolderFault>
        ensures bytes { IfOk result (λ bytes. Holds (files_told self.old) name.now bytes.items) }
        ensures same { files_told self.new ≡ files_told self.old }
        ensures calls { calls_told self.new ≡ called name.now result (calls_told self.old) }
        ensures cause { HasCause (failed_calls self.old) (failed_calls self.new) (IsErrOf result FolderFault.Failed) }
        ensures stands { StandsUnless (IsErrOf result FolderFault.Failed) (failed_calls self.old) (failed_calls self.new) }
        ensures at_most { IfOk result (λ bytes. length bytes.items ≤ 2 ^ 30) }
    {
        match read_file(self.runtime, name) {
            Ok(bytes) => Ok(bytes),
            Err(error) => Err(self.fault_of(error.kind())),
        }
    }

    fn write(&mut self, name: &str, bytes: &[u8]) -> Result<(), FolderFault> {
        match fs::write(self.runtime, name, bytes) {
            Ok(()) => Ok(()),
            Err(error) => Err(self.fault_of(error.kind())),
        }
    }
}

fn read_file<R: Files + AllocGlobal>(runtime: &R, name: &str) -> io::Result<Vec<u8>>
    ensures { IfOk result (λ bytes. length bytes.items ≤ 2 ^ 30) }
{
    let file = fs::open(runtime, name)?;
    let mut bytes = Vec::new(runtime.alloc());
    file.take(MOST_BYTES as u64 + 1).read_to_end(&mut bytes)?;
    if bytes.len() > MOST_BYTES {
        return Err(io::Error::from(ErrorKind::FileTooLarge));
    }
    Ok(bytes)
}
