//! Where a node is worked, and why a query is refused for it.
#![tactic(auto)]

ghost use Rattle.std.specs.Prelude.{◌≡◌};

use std::alloc::{AllocError, AllocFailed};
use thiserror::Error;

/// Where a node is worked: in the clear at one party; on shares with one party that sees its keys; on shares alone; by its
/// recipient, after the opening; or each of its parts in its place.
#[derive(Clone, Copy, Debug, PartialEq, Eq)]
pub enum Place {
    Clear(u8),
    Hybrid(u8),
    Shared,
    Up,
    Split,
}

/// Why no places are given: the first node with a bound that no party counts, on its line; or else the sum of all AND
/// words, which is above the most.
#[derive(Clone, Copy, Debug, PartialEq, Eq, Error)]
pub enum PlaceFault {
    #[error("line {line}: no party counts a bound")]
    AtMost { line: u32, node: u32 },
    #[error("{words} AND words")]
    Cost { words: u128 },
    #[error("out of memory")]
    Memory,
}

impl From<AllocError> for PlaceFault {
    ghost use Rattle.places.specs.declared.place.PlaceFault.TheVariants.{Memory};

    ghost from_gives = { λ _ fault. fault ≡ Memory };

    fn from(_error: AllocError) -> PlaceFault {
        PlaceFault::Memory
    }
}

impl<T: Drop> From<AllocFailed<T>> for PlaceFault {
    ghost use Rattle.places.specs.declared.place.PlaceFault.TheVariants.{Memory};

    ghost from_gives = { λ _ fault. fault ≡ Memory };

    fn from(_error: AllocFailed<T>) -> PlaceFault {
        PlaceFault::Memory
    }
}
