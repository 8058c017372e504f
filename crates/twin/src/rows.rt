//! Rows as lists of words.

ghost use Rattle.std.specs.Prelude.{◌≡◌, [], ◌∷◌, IfOk, map, slice_index};
ghost use Rattle.step_lists.specs.Shapes.{word_lists};
ghost use Rattle.tapes.specs.RowLaws.{row_across, rows_across};

use std::alloc::{AllocError, Global};

/// Words as rows of one word each.
pub(crate) fn rows_of_words(alloc: Global, words: &[u64]) -> Result<Vec<Vec<u64>>, AllocError>
    ensures { IfOk result (λ rows. word_lists rows ≡ map (λ word. word ∷ []) words.now) }
{
    let mut rows = Vec::with_capacity(alloc, words.len())?;
    for word in words {
        rows.push(Vec::from_slice(alloc, &[*word])?)?;
    }
    Ok(rows)
}

// The word of this number, 0 where there is none.
fn word_in(words: &[u64], number: usize) -> u64
    ensures { result ≡ slice_index words.now number }
{
    match words.get(number) {
        Some(word) => *word,
        None => 0,
    }
}

// The words of all columns at a place.
fn row_of(alloc: Global, columns: &[Vec<u64>], place: usize) -> Result<Vec<u64>, AllocError>
    ensures { IfOk result (λ row. row.items ≡ row_across (map (λ column. column.items) columns.now) place) }
{
    let mut row = Vec::with_capacity(alloc, columns.len())?;
    for column in columns {
        row.push(word_in(column.as_slice(), place))?;
    }
    Ok(row)
}

/// The first rows across columns, so many.
pub(crate) fn rows_of_columns(
    alloc: Global,
    columns: &[Vec<u64>],
    count: usize,
) -> Result<Vec<Vec<u64>>, AllocError>
    ensures { IfOk result (λ rows. word_lists rows ≡ rows_across count (map (λ column. column.items) columns.now)) }
{
    let mut rows = Vec::with_capacity(alloc, count)?;
    for place in 0..count {
        rows.push(row_of(alloc, columns, place)?)?;
    }
    Ok(rows)
}
