//! The rows of a padded table, and the padded table of rows.

ghost use Rattle.std.specs.Prelude.{◌≡◌, slice_index, nat_lt, if◌then◌else◌, IfOk};
ghost use Rattle.tapes.specs.Align.{row_at};
ghost use Rattle.tapes.specs.RowLaws.{row_across};
ghost use Rattle.listed.specs.Lists.{lent, owned};
ghost use Rattle.padded.specs.Table.{pad, padded_column, rows_in, valid_up_to};

use std::alloc::{AllocError, Global};

/// The valid rows of a padded table, in the order of their places. A row is valid where its valid word is 1; a word that
/// a column hasn't is 0.
pub fn valid_rows(
    alloc: Global,
    columns: &[Vec<u64>],
    valid: &[u64],
) -> Result<Vec<Vec<u64>>, AllocError>
    ensures { IfOk result (λ rows. owned rows.items ≡ rows_in (owned columns.now) valid.now) }
{
    let mut rows = Vec::new(alloc);
    for place in 0..valid.len() {
        if valid[place] == 1 {
            rows.push(row_of(alloc, columns, place)?)?;
        }
    }
    Ok(rows)
}

// The words of all columns at a place.
fn row_of(alloc: Global, columns: &[Vec<u64>], place: usize) -> Result<Vec<u64>, AllocError>
    ensures { IfOk result (λ row. row.items ≡ row_across (owned columns.now) place) }
{
    let mut row = Vec::with_capacity(alloc, columns.len())?;
    for column in columns {
        row.push(word_in(column.as_slice(), place))?;
    }
    Ok(row)
}

/// The padded table of rows of `width` words: a column for each word and then the valid words, each of `count` words.
///
/// The rows stand at the first places, with the valid word 1; behind them all words are 0. Rows beyond `count` are left
/// out, and a word that a row hasn't is 0.
pub fn pad_rows(
    alloc: Global,
    rows: &[&[u64]],
    width: usize,
    count: usize,
) -> Result<Vec<Vec<u64>>, AllocError>
    ensures { IfOk result (λ table. owned table.items ≡ pad width count (lent rows.now)) }
{
    let mut table = Vec::new(alloc);
    for column in 0..width {
        table.push(column_of(alloc, rows, column, count)?)?;
    }
    table.push(valid_words(alloc, rows.len(), count)?)?;
    Ok(table)
}

// A column of rows, with 0 behind it up to so many words.
fn column_of(
    alloc: Global,
    rows: &[&[u64]],
    column: usize,
    count: usize,
) -> Result<Vec<u64>, AllocError>
    ensures { IfOk result (λ words. words.items ≡ padded_column count (lent rows.now) column) }
{
    let mut words = Vec::with_capacity(alloc, count)?;
    for place in 0..count {
        words.push(word_of(rows, place, column))?;
    }
    Ok(words)
}

// The word of a row in a column, 0 where there is none.
fn word_of(rows: &[&[u64]], place: usize, column: usize) -> u64
    ensures { result ≡ slice_index (row_at (lent rows.now) place) column }
{
    match rows.get(place) {
        Some(row) => word_in(row, column),
        None => 0,
    }
}

// The word of this number, 0 where there is none.
pub(crate) fn word_in(words: &[u64], number: usize) -> u64
    ensures { result ≡ slice_index words.now number }
{
    match words.get(number) {
        Some(word) => *word,
        None => 0,
    }
}

// 1 for each of so many rows, and 0 behind them.
pub(crate) fn valid_words(alloc: Global, rows: usize, count: usize) -> Result<Vec<u64>, AllocError>
    ensures { IfOk result (λ words. words.items ≡ valid_up_to rows count) }
{
    let mut words = Vec::with_capacity(alloc, count)?;
    for place in 0..count {
        words.push(valid_word(place, rows))?;
    }
    Ok(words)
}

fn valid_word(place: usize, rows: usize) -> u64
    ensures { result ≡ (if nat_lt place rows then 1 else 0) }
{
    if place < rows { 1 } else { 0 }
}
