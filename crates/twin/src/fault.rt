//! Why a tape has no twin.

ghost use Rattle.std.specs.Prelude.{◌≡◌};
ghost use Rattle.step_lists.specs.Shapes.{word_lists};
ghost use Rattle.twin.specs.declared.fault.TwinFault.TheVariants.{Memory};

use std::alloc::{AllocError, AllocFailed};
use std::marker::Model;
use thiserror::Error;

/// Rows, seen as a list of lists of words.
#[derive(Debug, Drop)]
pub struct Rows {
    rows: Vec<Vec<u64>>,
}

impl Model for Rows {
    ghost use Rattle.std.specs.Prelude.{List, ℕ};
    ghost use Rattle.step_lists.specs.Shapes.{word_lists};

    ghost Value = { List (List ℕ) };

    ghost view = { λ r. word_lists r.rows };
}

impl Rows {
    /// These rows.
    pub fn new(rows: Vec<Vec<u64>>) -> Rows
        ensures { result ≡ word_lists rows }
    {
        Rows { rows }
    }

    /// The rows in a vector.
    pub fn rows(&self) -> &Vec<Vec<u64>>
        ensures { word_lists result.now ≡ self.now }
    {
        &self.rows
    }

    /// The rows in a vector, with no copy.
    pub fn into_rows(self) -> Vec<Vec<u64>>
        ensures { word_lists result ≡ self }
    {
        let Rows { rows } = self;
        rows
    }
}

/// Why a tape has no twin.
#[derive(Debug, Drop, Error)]
pub enum TwinFault {
    /// What this step opens to the viewer isn't alike in both worlds; words that are told or flagged are rows of one
    /// word each.
    #[error("step {step} opens other words to the viewer in the second world")]
    NotAligned {
        step: u64,
        first: Rows,
        second: Rows,
    },
    /// There is not enough memory.
    #[error("out of memory")]
    Memory,
}

impl From<AllocError> for TwinFault {
    ghost from_gives = { λ _ e. e ≡ Memory };

    fn from(_: AllocError) -> TwinFault {
        TwinFault::Memory
    }
}
