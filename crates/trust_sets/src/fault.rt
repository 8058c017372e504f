//! Why a query's sets of trust and of release refuse it.

use thiserror::Error;

/// What the first statement that asks for too much asks for. Nodes count from 0 in the order of the text, columns
/// from 0 within a node.
#[derive(Clone, Copy, Debug, PartialEq, Eq, Error)]
pub enum TrustFault {
    /// On this line `via` or `clear at` names a party for this node that isn't trusted with this column of its
    /// source, the node `origin`.
    #[error("line {line}: party {party} isn't trusted with a column of a source")]
    Trust {
        line: u32,
        node: u32,
        origin: u32,
        party: u8,
        column: u32,
    },
    /// On this line the node `output` goes to a party to which this relation under it isn't released.
    #[error("line {line}: party {party} isn't in the release set of a relation")]
    Release {
        line: u32,
        output: u32,
        party: u8,
        relation: u32,
    },
}
