//! The name of a wire.
#![tactic(auto)]

/// The number of a wire: wires are numbered from 0 in the order in which they are made.
#[derive(Clone, Copy, Debug, PartialEq, Eq)]
pub struct Wire(pub u32);
