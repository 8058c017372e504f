//! The tasks that a party does on its own words.

use crate::sorted::{fits_sorted, sorted};
use std::alloc::{AllocError, Global};
use step_lists::{Shape, Task};

/// A computation of one party on words that it knows.
#[derive(Debug, Drop)]
pub enum ClearTask {
    /// Takes a padded table, its columns and then its valid words, and gives its valid rows in the order of rows, rows of
    /// zeros behind them, and the valid words 1 up to their number and then 0.
    Sorted { columns: u32 },
}

impl Task for ClearTask {
    ghost use Rattle.clear_tasks.specs.ClearTask.{accepts, answer};
    ghost use Rattle.clear_tasks.specs.ClearTaskLaws.{shaped};

    ghost accepts = { accepts };

    ghost answer = { answer };

    ghost shaped = { shaped };

    fn fits(&self, takes: &[Shape], gives: &[Shape]) -> bool {
        match self {
            ClearTask::Sorted { columns } => fits_sorted(*columns, takes, gives),
        }
    }

    fn work(&self, alloc: Global, takes: &Vec<Vec<u64>>) -> Result<Vec<Vec<u64>>, AllocError> {
        match self {
            ClearTask::Sorted { columns } => sorted(alloc, *columns, takes),
        }
    }
}
