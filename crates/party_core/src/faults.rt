//! Why a core isn't made, and why it doesn't take words.
#![tactic(auto)]

ghost use Rattle.std.specs.Prelude.{◌≡◌};
ghost use Rattle.party_core.specs.declared.faults.CoreFault.TheVariants.{Memory};
ghost use Rattle.party_core.specs.declared.faults.TakeFault.TheVariants as take_faults;

use std::alloc::AllocError;
use thiserror::Error;

/// Why a core isn't made.
#[derive(Clone, Copy, Debug, PartialEq, Eq, Error)]
pub enum CoreFault {
    /// The first draw of the lower one of its two tapes that doesn't match the schedule. It is the number of draws where
    /// they are too few, and the number of needs where they are too many.
    #[error("draw {draw} of tape {tape} is not what the list needs")]
    Unfit { tape: u8, draw: u64 },
    /// The first slot that has another length than the list's first slot of the party, or is missing, or is one too many.
    #[error("slot {slot} has not the length of the list's")]
    SlotLength { slot: u32 },
    /// There is not enough memory.
    #[error("out of memory")]
    Memory,
}

impl From<AllocError> for CoreFault {
    ghost from_gives = { λ _ e. e ≡ Memory };

    fn from(_: AllocError) -> CoreFault {
        CoreFault::Memory
    }
}

/// Why words aren't taken.
#[derive(Clone, Copy, Debug, PartialEq, Eq, Error)]
pub enum TakeFault {
    /// They complete a private order that isn't one.
    #[error("not an order")]
    NotOrder,
    /// There is not enough memory.
    #[error("out of memory")]
    Memory,
}

impl From<AllocError> for TakeFault {
    ghost from_gives = { λ _ e. e ≡ take_faults.Memory };

    fn from(_: AllocError) -> TakeFault {
        TakeFault::Memory
    }
}
