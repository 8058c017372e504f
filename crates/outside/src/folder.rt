ghost use Rattle.std.specs.Prelude.{◌≡◌, ℕ, List, Option, IfOk, OnOk, OnErr, IsErrOf, option_map};
ghost use Rattle.outside.specs.Folder.{Files, Holds, written, called};
ghost use Rattle.outside.specs.Cause.{HasCause, StandsUnless};

use std::alloc::{AllocError, AllocFailed};
use thiserror::Error;

/// Why a folder gave no answer.
#[derive(Clone, Copy, Debug, PartialEq, Eq, Error)]
pub enum FolderFault {
    /// The folder failed, and its count of faults rose.
    #[error("the folder failed")]
    Failed,
    /// No memory was left.
    #[error("out of memory")]
    Memory,
}

impl From<AllocError> for FolderFault {
    ghost use Rattle.std.specs.Prelude.{◌≡◌};
    ghost use Rattle.outside.specs.declared.folder.FolderFault.TheVariants.{Memory};

    ghost from_gives = { λ _ fault. fault ≡ Memory };

    fn from(_fault: AllocError) -> FolderFault {
        FolderFault::Memory
    }
}

impl<T: Drop> From<AllocFailed<T>> for FolderFault {
    ghost use Rattle.std.specs.Prelude.{◌≡◌};
    ghost use Rattle.outside.specs.declared.folder.FolderFault.TheVariants.{Memory};

    ghost from_gives = { λ _ fault. fault ≡ Memory };

    fn from(_fault: AllocFailed<T>) -> FolderFault {
        FolderFault::Memory
    }
}

/// Files by their names, as bytes. Own.
///
/// `files` and `calls` are told by folders in memory and by no adapter of a real disk; `faults` counts the failures so
/// far and stands still at 2^64 - 1. A call that answers `Memory` isn't noted.
pub trait Folder {
    ghost files: { Self → Option Files };

    ghost calls: { Self → Option (List (List ℕ)) };

    ghost faults: { Self → ℕ };

    /// Gives all bytes of the file of this name. `Failed` where the folder fails, `Memory` where memory does.
    fn read(&mut self, name: &str) -> Result<Vec<u8>, FolderFault>
        ensures bytes { IfOk result (λ bytes. Holds (files self.old) name.now bytes.items) }
        ensures same { files self.new ≡ files self.old }
        ensures calls { calls self.new ≡ called name.now result (calls self.old) }
        ensures cause { HasCause (faults self.old) (faults self.new) (IsErrOf result FolderFault.Failed) }
        ensures stands { StandsUnless (IsErrOf result FolderFault.Failed) (faults self.old) (faults self.new) };

    /// Sets the file of this name to these bytes and leaves all others. After a fault all files are as they were.
    fn write(&mut self, name: &str, bytes: &[u8]) -> Result<(), FolderFault>
        ensures written { OnOk result (files self.new ≡ option_map (written name.now bytes.now) (files self.old)) }
        ensures err { OnErr result (files self.new ≡ files self.old) }
        ensures calls { calls self.new ≡ called name.now result (calls self.old) }
        ensures cause { HasCause (faults self.old) (faults self.new) (IsErrOf result FolderFault.Failed) }
        ensures stands { StandsUnless (IsErrOf result FolderFault.Failed) (faults self.old) (faults self.new) };
}
