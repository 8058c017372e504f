//! Tables of two columns, written as rows of three words: the two, and the valid word.

ghost use Rattle.std.specs.Prelude.{◌≡◌, ◌^◌, ◌<◌, length, IfOk};
ghost use Rattle.wires.specs.Growth.{Grows};
ghost use Rattle.wires.specs.Held.{held_shape};
ghost use Rattle.shared_ops.specs.Joint.{IsJoint};

use padded::valid_rows;
use shared_ops::Joint;
use std::alloc::{AllocError, Global};
use wires::{Clear, Wires};

// The words of these rows at one of the three places.
fn words_at(alloc: Global, rows: &[[u64; 3]], place: usize) -> Result<Vec<u64>, AllocError>
    requires { place < 3 }
    ensures { IfOk result (λ words. length words.items ≡ length rows.now) }
{
    rows.iter().map(|row| row[place]).collect(alloc)
}

/// The table of these rows over any words.
pub(crate) fn table_of<W: Wires>(
    wires: &mut W,
    alloc: Global,
    rows: &[[u64; 3]],
) -> Result<Joint, AllocError>
    requires { length rows.now < 2 ^ 32 }
    ensures grows { Grows W.grown W.possible W.shape wires.old wires.new }
    ensures joint { IfOk result (λ t. IsJoint (W.shape wires.new) t) }
    ensures width { IfOk result (λ t. length t.columns.items ≡ 2) }
    ensures rows { IfOk result (λ t. t.rows ≡ length rows.now) }
{
    let first = wires.constant(words_at(alloc, rows, 0)?.as_slice())?;
    let second = wires.constant(words_at(alloc, rows, 1)?.as_slice())?;
    let valid = wires.constant(words_at(alloc, rows, 2)?.as_slice())?;
    let columns = Vec::from_slice(alloc, &[first, second])?;
    Ok(Joint {
        columns,
        valid,
        rows: rows.len() as u32,
    })
}

/// The valid rows of a table in the clear.
pub(crate) fn rows_of(
    alloc: Global,
    wires: &Clear,
    table: &Joint,
) -> Result<Vec<Vec<u64>>, AllocError>
    requires { IsJoint (held_shape wires.now) table.now }
{
    let mut columns = Vec::new(alloc);
    for column in &table.columns {
        columns.push(wires.value(*column).clone()?)?;
    }
    valid_rows(
        alloc,
        columns.as_slice(),
        wires.value(table.valid).as_slice(),
    )
}

/// Whether rows are these.
pub(crate) fn are(rows: &[Vec<u64>], want: &[&[u64]]) -> bool {
    rows.len() == want.len()
        && rows
            .iter()
            .zip(want)
            .all(|(row, words)| row.as_slice() == *words)
}
