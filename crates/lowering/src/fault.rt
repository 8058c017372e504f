//! Why a text has no plan.

use query_graph::GraphFault;
use query_text::ReadFault;
use std::alloc::{AllocError, AllocFailed};
use thiserror::Error;
use trust_sets::TrustFault;

/// The first rule that a text breaks. It is never want of memory.
#[derive(Debug, Drop, Error)]
pub enum Refusal {
    /// The text stops being a query.
    #[error("{0}")]
    Text(ReadFault),
    /// A statement breaks a rule of graphs.
    #[error("{0}")]
    Graph(GraphFault),
    /// A statement asks for more than trust or release allows.
    #[error("{0}")]
    Trust(TrustFault),
}

/// Why `compile` gave no plan.
#[derive(Debug, Drop, Error)]
pub enum CompileFault {
    /// The text is refused.
    #[error("{0}")]
    Refused(Refusal),
    /// The query asks for what isn't carried out yet: on this line a bound or a party is written; on line 0 all nodes and
    /// outputs on shares would take too many AND words.
    #[error("not built line {line}")]
    NotBuilt { line: u32 },
    /// There is not enough memory.
    #[error("out of memory")]
    Memory,
}

impl From<AllocError> for CompileFault {
    ghost use Rattle.std.specs.Prelude.{◌≡◌};
    ghost use Rattle.lowering.specs.declared.fault.CompileFault.TheVariants.{Memory};

    ghost from_gives = { λ _ fault. fault ≡ Memory };

    fn from(_error: AllocError) -> CompileFault {
        CompileFault::Memory
    }
}

impl<T: Drop> From<AllocFailed<T>> for CompileFault {
    ghost use Rattle.std.specs.Prelude.{◌≡◌};
    ghost use Rattle.lowering.specs.declared.fault.CompileFault.TheVariants.{Memory};

    ghost from_gives = { λ _ fault. fault ≡ Memory };

    fn from(_error: AllocFailed<T>) -> CompileFault {
        CompileFault::Memory
    }
}
