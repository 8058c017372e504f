//! Valid rows in order.

ghost use Rattle.std.specs.Prelude.{◌≡◌, ◌+◌, length, IfOk};
ghost use Rattle.step_lists.specs.Shapes.{word_lists};
ghost use Rattle.clear_tasks.specs.Sorted.{sorted_accepts, sorted_answer};

use crate::shapes::{is_table, rows_of_shapes};
use padded::sorted_rows;
use std::alloc::{AllocError, Global};
use step_lists::Shape;

// Whether a table of these shapes becomes one of those.
pub(crate) fn fits_sorted(columns: u32, takes: &[Shape], gives: &[Shape]) -> bool
    ensures { result ≡ sorted_accepts columns takes.now gives.now }
{
    let rows = rows_of_shapes(takes);
    is_table(columns, rows, takes) && is_table(columns, rows, gives)
}

// The valid rows in the order of rows, and zeros behind them.
pub(crate) fn sorted(
    alloc: Global,
    columns: u32,
    takes: &Vec<Vec<u64>>,
) -> Result<Vec<Vec<u64>>, AllocError>
    requires { length (word_lists takes.now) ≡ columns + 1 }
    ensures { IfOk result (λ gives. word_lists gives ≡ sorted_answer columns (word_lists takes.now)) }
{
    let columns = columns as usize;
    sorted_rows(alloc, &takes[..columns], &takes[columns])
}
