//! Where a node's rows are.

use shared_ops::Joint;

/// A padded table that a list of steps stores.
#[derive(Debug, Drop)]
pub(crate) enum Stored {
    /// In slots of a party, from this one on: one for each column, and then that of the valid words.
    Clear { party: u8, first: u32 },
    /// In registers.
    Shared(Joint),
}
