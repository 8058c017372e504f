//! Why a query has no graph.

ghost use Rattle.std.specs.Prelude.{◌≡◌};

use std::alloc::{AllocError, AllocFailed};
use thiserror::Error;
use words::Label;

/// Why `build` gave no graph: the first rule that fails, at its line, which counts from 1.
#[derive(Debug, Drop, Error)]
pub enum GraphFault {
    /// A used node that no earlier statement defines, a used column that the source doesn't have, or a
    /// key of a join that isn't a column of both sources.
    #[error("line {line}: a name is unknown")]
    Unknown { line: u32, name: Label },
    /// The name of a node, of a column within a node, or the node of an output, a second time.
    #[error("line {line}: a name is taken")]
    Taken { line: u32, name: Label },
    /// Operands, keys or an aggregate's column of kinds that don't fit.
    #[error("line {line}: kind")]
    Kind { line: u32 },
    /// Sources of a concat with different columns, or parts of a group that don't stand together.
    #[error("line {line}: shape")]
    Shape { line: u32 },
    /// A number of rows, a bound, a node, the sum of cells so far or a text constant over its limit.
    #[error("line {line}: size")]
    Size { line: u32 },
    /// There is no output.
    #[error("no output")]
    NoOutput,
    /// Memory ran out.
    #[error("out of memory")]
    Memory,
}

impl From<AllocError> for GraphFault {
    ghost use Rattle.query_graph.specs.declared.fault.GraphFault.TheVariants.{Memory};

    ghost from_gives = { λ _ fault. fault ≡ Memory };

    fn from(_error: AllocError) -> GraphFault {
        GraphFault::Memory
    }
}

impl<T: Drop> From<AllocFailed<T>> for GraphFault {
    ghost use Rattle.query_graph.specs.declared.fault.GraphFault.TheVariants.{Memory};

    ghost from_gives = { λ _ fault. fault ≡ Memory };

    fn from(_error: AllocFailed<T>) -> GraphFault {
        GraphFault::Memory
    }
}
