//! The numbers of the columns of joined rows.

ghost use Rattle.std.specs.Prelude.{◌≡◌, IfOk};
ghost use Rattle.plain_operators.specs.Columns.{other_columns};
ghost use Rattle.shared_ops.specs.Pairs as pairs;

use plain_operators::{is_key, left_keys, right_keys};
use std::alloc::{AllocError, Global};

// The left's keys and its other columns.
pub(crate) fn left_numbers(
    alloc: Global,
    keys: &[(u32, u32)],
    width: usize,
) -> Result<Vec<u32>, AllocError>
    ensures { IfOk result (λ numbers. numbers.items ≡ pairs.left_numbers keys.now width) }
{
    let mut numbers = left_keys(alloc, keys)?;
    let others = other_numbers(alloc, numbers.as_slice(), width)?;
    numbers.extend_from_slice(others.as_slice())?;
    Ok(numbers)
}

// The right's other columns.
pub(crate) fn right_numbers(
    alloc: Global,
    keys: &[(u32, u32)],
    width: usize,
) -> Result<Vec<u32>, AllocError>
    ensures { IfOk result (λ numbers. numbers.items ≡ pairs.right_numbers keys.now width) }
{
    let keys = right_keys(alloc, keys)?;
    other_numbers(alloc, keys.as_slice(), width)
}

// The columns of a row of this width that aren't among the keys.
fn other_numbers(alloc: Global, keys: &[u32], width: usize) -> Result<Vec<u32>, AllocError>
    ensures { IfOk result (λ numbers. numbers.items ≡ other_columns keys.now width) }
{
    let Ok(width) = u32::try_from(width) else {
        return Err(AllocError);
    };
    (0..width)
        .filter(|column| !is_key(keys, *column as usize))
        .collect(alloc)
}
