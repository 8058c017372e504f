use crate::statement::Statement;
use listed::Listed;
use std::alloc::{AllocError, AllocFailed};
use std::marker::Model;
use thiserror::Error;

/// The statements of a query's text, in their order. Contracts see their list: at most 64, each of
/// which a text can hold.
#[derive(Debug, Drop)]
pub struct Query {
    pub statements: Listed<Statement>,
}

impl Model for Query {
    ghost use Rattle.std.specs.Prelude.{List};
    ghost use Rattle.query_text.specs.declared.statement.Statement.{Statement};

    ghost Value = { List Statement };

    ghost use Rattle.query_text.specs.Grammar.{AreStatements};

    ghost view = { λ q. q.statements };

    ghost invariant = { λ q. AreStatements q.statements };
}

/// Why a text gave no query.
#[derive(Clone, Copy, Debug, PartialEq, Eq, Error)]
pub enum ReadFault {
    /// The text is no query from this place on. Line and column count from 1, columns in bytes; a text
    /// that is too long has line 0 and column 0.
    #[error("line {line} column {column}: text")]
    Text { line: u32, column: u32 },
    /// Memory ran out.
    #[error("out of memory")]
    Memory,
}

impl From<AllocError> for ReadFault {
    ghost use Rattle.std.specs.Prelude.{◌≡◌};
    ghost use Rattle.query_text.specs.declared.query.ReadFault.TheVariants.{Memory};

    ghost from_gives = { λ _ e. e ≡ Memory };

    fn from(_e: AllocError) -> ReadFault {
        ReadFault::Memory
    }
}

impl<T: Drop> From<AllocFailed<T>> for ReadFault {
    ghost use Rattle.std.specs.Prelude.{◌≡◌};
    ghost use Rattle.query_text.specs.declared.query.ReadFault.TheVariants.{Memory};

    ghost from_gives = { λ _ e. e ≡ Memory };

    fn from(_e: AllocFailed<T>) -> ReadFault {
        ReadFault::Memory
    }
}
