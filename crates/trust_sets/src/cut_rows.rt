//! Rows cut to columns, and bags of rows.
#![tactic(auto)]

ghost use Rattle.std.specs.Prelude.{◌≡◌, ◌↔◌, map, slice_index, IsTrue, IfOk};
ghost use Rattle.bags.specs.Bag.{SameBag};
ghost use Rattle.plain_operators.specs.Columns.{cut};
ghost use Rattle.plain_operators.specs.Cuts.{CutsAgree};
ghost use Rattle.listed.specs.Lists.{lent, owned};
ghost use Rattle.trust_sets.specs.Agreement as agreement;
ghost use Rattle.trust_sets.specs.Known.{known_at};

use crate::known::Known;
use crate::trust::Trust;
use bags::laws::sorted_tells_bags;
use bags::sort_rows;
use listed::lend;
use std::alloc::{AllocError, Global};
use tables::Table;

// The columns that a party may know, in order.
fn columns_known_to(alloc: Global, known: &Known, party: u8) -> Result<Vec<usize>, AllocError>
    ensures { IfOk result (λ columns. columns.items ≡ agreement.known_columns party known.now) }
{
    let mut columns = Vec::new(alloc);
    for (column, set) in known.columns.as_slice().iter().enumerate() {
        if set.contains(party) {
            columns.push(column)?;
        }
    }
    Ok(columns)
}

// The columns of a node that a party may know, in order.
pub(crate) fn known_columns(
    alloc: Global,
    trust: &Trust,
    node: u32,
    party: u8,
) -> Result<Vec<usize>, AllocError>
    ensures { IfOk result (λ columns. columns.items
        ≡ agreement.known_columns party (known_at trust.now.known node)) }
{
    match trust.known().get(node as usize) {
        Some(known) => columns_known_to(alloc, known, party),
        None => Ok(Vec::new(alloc)),
    }
}

// The word of a row in a column, 0 behind its end.
fn word_at(row: &[u64], column: usize) -> u64
    ensures { result ≡ slice_index row.now column }
{
    row.get(column).copied().unwrap_or(0)
}

fn cut_row(alloc: Global, columns: &[usize], row: &[u64]) -> Result<Vec<u64>, AllocError>
    ensures { IfOk result (λ words. words.items ≡ cut columns.now row.now) }
{
    columns
        .iter()
        .map(|column| word_at(row, *column))
        .collect(alloc)
}

// Each row of a table cut to these columns.
fn cut_rows(alloc: Global, columns: &[usize], table: &Table) -> Result<Vec<Vec<u64>>, AllocError>
    ensures { IfOk result (λ rows. owned rows.items ≡ map (cut columns.now) table.now.rows) }
{
    let mut rows = Vec::new(alloc);
    for index in 0..table.rows() {
        rows.push(cut_row(alloc, columns, table.row(index))?)?;
    }
    Ok(rows)
}

// Whether both are the same bag of rows.
pub(crate) fn same_bag(mut left: Vec<&[u64]>, mut right: Vec<&[u64]>) -> bool
    ensures { IsTrue result ↔ SameBag (lent left.entry.items) (lent right.entry.items) }
{
    sorted_tells_bags();
    sort_rows(&mut left);
    sort_rows(&mut right);
    left.as_slice() == right.as_slice()
}

// Whether both tables have the same bag of rows when these are cut to some columns.
pub(crate) fn cuts_agree(
    alloc: Global,
    columns: &[usize],
    left: &Table,
    right: &Table,
) -> Result<bool, AllocError>
    ensures { IfOk result (λ same. IsTrue same
        ↔ CutsAgree columns.now left.now.rows right.now.rows) }
{
    let lefts = cut_rows(alloc, columns, left)?;
    let rights = cut_rows(alloc, columns, right)?;
    Ok(same_bag(lend(alloc, &lefts)?, lend(alloc, &rights)?))
}
