//! The table that is told.

ghost use Rattle.std.specs.Prelude.{◌≡◌, ◌<◌, length, map, slice_index, IfOk};
ghost use Rattle.bags.specs.Sorted.{row_cmp, sorted};
ghost use Rattle.tapes.specs.Align.{row_at};
ghost use Rattle.tapes.specs.RowLaws.{row_across};
ghost use Rattle.listed.specs.Lists.{owned};
ghost use Rattle.padded.specs.Table.{live, padded_column, padded_columns, rows_in, told};

use crate::table::{valid_words, word_in};
use std::alloc::{AllocError, Global};
use std::cmp::Ordering;

/// The table that is told: the valid rows of a padded table in the order of rows, at the first of its places, and zeros
/// behind them. It depends on the bag of the rows and on the table's size alone.
///
/// The places of the valid rows are sorted, in n log n comparisons of rows; no row is copied.
pub fn sorted_rows(
    alloc: Global,
    columns: &[Vec<u64>],
    valid: &[u64],
) -> Result<Vec<Vec<u64>>, AllocError>
    ensures { IfOk result (λ table. owned table.items ≡ told (length columns.now) (length valid.now) (rows_in (owned columns.now) valid.now)) }
{
    let mut places = live_places(alloc, valid)?;
    sort_places(columns, &mut places);
    let mut table = columns_at_places(alloc, columns, places.as_slice(), valid.len())?;
    table.push(valid_words(alloc, places.len(), valid.len())?)?;
    Ok(table)
}

// The places at which a row stands, in order.
fn live_places(alloc: Global, valid: &[u64]) -> Result<Vec<usize>, AllocError>
    ensures { IfOk result (λ places. places.items ≡ live valid.now) }
{
    (0..valid.len())
        .filter(|place| word_in(valid, *place) == 1)
        .collect(alloc)
}

// Sorts places by the rows that stand there.
fn sort_places(columns: &[Vec<u64>], places: &mut Vec<usize>)
    ensures { map (row_across (owned columns.now)) places.new.items ≡ sorted (map (row_across (owned columns.now)) places.old.items) }
{
    // A law: what sorting leaves is the sorted list.
    bags::laws::sorted_is_unique();
    places.sort_unstable_by(|place, other| compare_rows(columns, *place, *other));
}

// How the rows at two places compare.
fn compare_rows(columns: &[Vec<u64>], place: usize, other: usize) -> Ordering
    ensures { result ≡ row_cmp (row_across (owned columns.now) place) (row_across (owned columns.now) other) }
{
    let row = columns.iter().map(|column| word_in(column, place));
    row.cmp(columns.iter().map(|column| word_in(column, other)))
}

// The columns of the rows at these places, with 0 behind them up to so many words.
fn columns_at_places(
    alloc: Global,
    columns: &[Vec<u64>],
    places: &[usize],
    count: usize,
) -> Result<Vec<Vec<u64>>, AllocError>
    ensures { IfOk result (λ table. owned table.items ≡ padded_columns (length columns.now) count (map (row_across (owned columns.now)) places.now)) }
{
    let mut table = Vec::new(alloc);
    for column in 0..columns.len() {
        table.push(column_at_places(alloc, columns, column, places, count)?)?;
    }
    Ok(table)
}

// One column of them.
fn column_at_places(
    alloc: Global,
    columns: &[Vec<u64>],
    column: usize,
    places: &[usize],
    count: usize,
) -> Result<Vec<u64>, AllocError>
    requires { column < length columns.now }
    ensures { IfOk result (λ words. words.items ≡ padded_column count (map (row_across (owned columns.now)) places.now) column) }
{
    (0..count)
        .map(|number| word_at_place(columns, column, places, number))
        .collect(alloc)
}

// The word of a column in the row at the place of this number, 0 where there is none.
fn word_at_place(columns: &[Vec<u64>], column: usize, places: &[usize], number: usize) -> u64
    requires { column < length columns.now }
    ensures { result ≡ slice_index (row_at (map (row_across (owned columns.now)) places.now) number) column }
{
    match places.get(number) {
        Some(place) => word_in(columns[column].as_slice(), *place),
        None => 0,
    }
}
