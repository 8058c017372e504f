ghost use Rattle.std.specs.Prelude.{◌≡◌, ℕ, List, Option, OnOk, OnErr, IsErrOf, option_map, ◌++◌};
ghost use Rattle.outside.specs.Cause.{HasCause, StandsUnless};

use std::alloc::{AllocError, AllocFailed};
use thiserror::Error;

/// Why bytes weren't taken.
#[derive(Clone, Copy, Debug, PartialEq, Eq, Error)]
pub enum OutFault {
    /// The stream failed, and its count of faults rose.
    #[error("the stream failed")]
    Failed,
    /// No memory was left.
    #[error("out of memory")]
    Memory,
}

impl From<AllocError> for OutFault {
    ghost use Rattle.std.specs.Prelude.{◌≡◌};
    ghost use Rattle.outside.specs.declared.sink.OutFault.TheVariants.{Memory};

    ghost from_gives = { λ _ fault. fault ≡ Memory };

    fn from(_fault: AllocError) -> OutFault {
        OutFault::Memory
    }
}

impl<T: Drop> From<AllocFailed<T>> for OutFault {
    ghost use Rattle.std.specs.Prelude.{◌≡◌};
    ghost use Rattle.outside.specs.declared.sink.OutFault.TheVariants.{Memory};

    ghost from_gives = { λ _ fault. fault ≡ Memory };

    fn from(_fault: AllocFailed<T>) -> OutFault {
        OutFault::Memory
    }
}

/// A stream of bytes that can be written to. Own.
///
/// `taken` is what it took so far, told by sinks in memory alone; `faults` counts the failures so far and stands still
/// at 2^64 - 1.
pub trait Sink {
    ghost taken: { Self → Option (List ℕ) };

    ghost faults: { Self → ℕ };

    /// Appends all bytes, or none where it answers a fault and the bytes are told.
    fn write(&mut self, bytes: &[u8]) -> Result<(), OutFault>
        ensures written { OnOk result (taken self.new ≡ option_map (λ before. before ++ bytes.now) (taken self.old)) }
        ensures err { OnErr result (taken self.new ≡ taken self.old) }
        ensures cause { HasCause (faults self.old) (faults self.new) (IsErrOf result OutFault.Failed) }
        ensures stands { StandsUnless (IsErrOf result OutFault.Failed) (faults self.old) (faults self.new) };
}
