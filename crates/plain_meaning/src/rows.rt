//! The rows of tables, and tables of rows.
#![tactic(auto)]

ghost use Rattle.std.specs.Prelude.{◌≡◌, ◌<◌, ◌++◌, length, IfOk, OnOk};
ghost use Rattle.std.specs.List.{All};
ghost use Rattle.tables.specs.Content.{IsRectangular};
ghost use Rattle.listed.specs.Lists.{lent, owned};
ghost use Rattle.plain_operators.specs.Sizes.{AllWide};
ghost use Rattle.plain_meaning.specs.Fits.{widths_of, width_in};
ghost use Rattle.plain_meaning.specs.Plain.{rows_in, table_of};

use std::alloc::{AllocError, Global};
use tables::Table;
use words::Column;

// Adds the rows of the table with this number, lent.
pub(crate) fn add_source<'a>(
    earlier: &'a [Table],
    number: u32,
    rows: &mut Vec<&'a [u64]>,
) -> Result<(), AllocError>
    requires { number < length (widths_of earlier.now) }
    ensures rows { OnOk result (lent rows.new.items
        ≡ lent rows.old.items ++ rows_in earlier.now number) }
    ensures wide { AllWide (width_in earlier.now number) (rows_in earlier.now number) }
{
    add_rows(&earlier[number as usize], rows)
}

// The rows of the table with this number, lent.
pub(crate) fn source_rows(
    alloc: Global,
    earlier: &[Table],
    number: u32,
) -> Result<Vec<&[u64]>, AllocError>
    requires { number < length (widths_of earlier.now) }
    ensures rows { IfOk result (λ rows. lent rows.items ≡ rows_in earlier.now number) }
    ensures wide { AllWide (width_in earlier.now number) (rows_in earlier.now number) }
{
    let mut rows = Vec::new(alloc);
    add_source(earlier, number, &mut rows)?;
    Ok(rows)
}

// Adds the rows of a table, lent.
pub(crate) fn add_rows<'a>(table: &'a Table, rows: &mut Vec<&'a [u64]>) -> Result<(), AllocError>
    ensures rows { OnOk result (lent rows.new.items ≡ lent rows.old.items ++ table.now.rows) }
    ensures rectangular { IsRectangular table.now }
{
    for number in 0..table.rows() {
        rows.push(table.row(number))?;
    }
    Ok(())
}

// The table of these rows.
pub(crate) fn table_of_lent(
    alloc: Global,
    columns: Vec<Column>,
    rows: &[&[u64]],
) -> Result<Table, AllocError>
    requires { All (λ row. length row.now ≡ length columns.items) rows.now }
    ensures { IfOk result (λ table. table ≡ table_of columns.items (lent rows.now)) }
{
    let mut table = Table::new(alloc, columns);
    for row in rows {
        table.push(row)?;
    }
    Ok(table)
}

// The table of these rows.
pub(crate) fn table_of_made(
    alloc: Global,
    columns: Vec<Column>,
    rows: &[Vec<u64>],
) -> Result<Table, AllocError>
    requires { All (λ row. length row.items ≡ length columns.items) rows.now }
    ensures { IfOk result (λ table. table ≡ table_of columns.items (owned rows.now)) }
{
    let mut table = Table::new(alloc, columns);
    for row in rows {
        table.push(row.as_slice())?;
    }
    Ok(table)
}

// A copy of columns.
pub(crate) fn copy_of(alloc: Global, columns: &[Column]) -> Result<Vec<Column>, AllocError>
    ensures { IfOk result (λ copy. copy.items ≡ columns.now) }
{
    let mut copy = Vec::new(alloc);
    for column in columns {
        copy.push(column.clone()?)?;
    }
    Ok(copy)
}
