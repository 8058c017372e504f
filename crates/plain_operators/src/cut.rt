//! Rows cut to columns.

ghost use Rattle.std.specs.Prelude.{◌≡◌, ◌++◌, length, map, IfOk, OnOk};
ghost use Rattle.std.specs.List.{flat_map};
ghost use Rattle.plain_operators.specs.Columns as plain;
ghost use Rattle.listed.specs.Lists.{lent};
ghost use Rattle.plain_operators.specs.Within.{EachFits, HasColumns};

use std::alloc::{AllocError, Global};

// Adds the words of a row in these columns.
pub(crate) fn add_cut(columns: &[u32], row: &[u64], words: &mut Vec<u64>) -> Result<(), AllocError>
    requires { HasColumns columns.now (length row.now) }
    ensures { OnOk result (words.new.items ≡ words.old.items ++ plain.cut columns.now row.now) }
{
    for column in columns {
        words.push(row[*column as usize])?;
    }
    Ok(())
}

// Adds the words of a row in its other columns.
pub(crate) fn add_others(keys: &[u32], row: &[u64], words: &mut Vec<u64>) -> Result<(), AllocError>
    ensures { OnOk result (words.new.items ≡ words.old.items ++ plain.others keys.now row.now) }
{
    for (column, word) in row.iter().enumerate() {
        if !is_key(keys, column) {
            words.push(*word)?;
        }
    }
    Ok(())
}

/// Whether a column is among these.
pub fn is_key(keys: &[u32], column: usize) -> bool
    ensures { result ≡ plain.is_key keys.now column }
{
    keys.iter().any(|key| *key as usize == column)
}

// The words of each row in these columns, row behind row.
pub(crate) fn cut_rows(
    alloc: Global,
    columns: &[u32],
    rows: &[&[u64]],
) -> Result<Vec<u64>, AllocError>
    requires { EachFits (HasColumns columns.now) rows.now }
    ensures { IfOk result (λ words. words.items ≡ flat_map (plain.cut columns.now) (lent rows.now)) }
{
    let mut words = Vec::new(alloc);
    for row in rows {
        add_cut(columns, row, &mut words)?;
    }
    Ok(words)
}

// Each row cut to these columns, lent from their words.
pub(crate) fn lend<'a>(
    alloc: Global,
    columns: &[u32],
    rows: &[&[u64]],
    words: &'a [u64],
) -> Result<Vec<&'a [u64]>, AllocError>
    requires { words.now ≡ flat_map (plain.cut columns.now) (lent rows.now) }
    ensures { IfOk result (λ cut. lent cut.items ≡ map (plain.cut columns.now) (lent rows.now)) }
{
    let mut cut = Vec::with_capacity(alloc, rows.len())?;
    let mut rest = words;
    for _row in rows {
        let (first, others) = rest.split_at(columns.len());
        cut.push(first)?;
        rest = others;
    }
    Ok(cut)
}
