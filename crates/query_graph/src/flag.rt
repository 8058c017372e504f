//! What counts a bound.

/// The count of a bound at one party. `of_parts` tells `parts at most` from `at most`, which one node may
/// both have at the same party.
#[derive(Clone, Copy, Debug, PartialEq, Eq)]
pub struct Flag {
    /// The number of the node whose bound it is.
    pub node: u32,
    /// The party that counts.
    pub party: u8,
    /// Whether the bound is that of `parts at most`.
    pub of_parts: bool,
}
