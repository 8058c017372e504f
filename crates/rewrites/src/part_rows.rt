//! Tables of parts' rows, by the operators that are pushed down.
#![tactic(auto)]

ghost use Rattle.std.specs.Prelude.{◌≡◌, length, map, IfOk};
ghost use Rattle.std.specs.List.{All};
ghost use Rattle.listed.specs.Lists.{lent};
ghost use Rattle.plain_operators.specs.Items.{holds_of, item_word};
ghost use Rattle.plain_operators.specs.Operators as plain;
ghost use Rattle.plain_operators.specs.Within.{IsItemOf, IsTestOf};
ghost use Rattle.plain_meaning.specs.Convert.{item_of, test_of};
ghost use Rattle.plain_meaning.specs.Plain.{table_of};

use listed::lend;
use plain_meaning::{items_of, tests_of};
use plain_operators::{kept_rows, rows_of_items};
use query_graph::{Filter, Select};
use std::alloc::{AllocError, Global};
use tables::Table;
use words::Column;

fn copy_of(alloc: Global, columns: &[Column]) -> Result<Vec<Column>, AllocError>
    ensures { IfOk result (λ copy. copy.items ≡ columns.now) }
{
    let mut copy = Vec::new(alloc);
    for column in columns {
        copy.push(column.clone()?)?;
    }
    Ok(copy)
}

// The table of these rows.
fn table_of(alloc: Global, columns: &[Column], rows: &[&[u64]]) -> Result<Table, AllocError>
    requires { All (λ row. length row.now ≡ length columns.now) rows.now }
    ensures { IfOk result (λ table. table ≡ table_of columns.now (lent rows.now)) }
{
    let mut table = Table::new(alloc, copy_of(alloc, columns)?);
    for row in rows {
        table.push(row)?;
    }
    Ok(table)
}

// A part with all rows of its node.
pub(crate) fn whole(alloc: Global, columns: &[Column], table: &Table) -> Result<Table, AllocError>
    requires { table.now.columns ≡ columns.now }
    ensures { IfOk result (λ made. made ≡ table_of columns.now table.now.rows) }
{
    let rows = table.lent_rows(alloc)?;
    table_of(alloc, columns, &rows)
}

// A part of a filter, from the part of its source.
pub(crate) fn filtered(
    alloc: Global,
    columns: &[Column],
    filter: &Filter,
    source: &Table,
) -> Result<Table, AllocError>
    requires tests { All (IsTestOf (length source.now.columns)) (map test_of filter.now.tests) }
    requires same { length source.now.columns ≡ length columns.now }
    ensures { IfOk result (λ made. made
        ≡ table_of columns.now (plain.kept_rows (map holds_of (map test_of filter.now.tests)) source.now.rows)) }
{
    let tests = tests_of(alloc, filter.tests.as_slice())?;
    let rows = source.lent_rows(alloc)?;
    let kept = kept_rows(alloc, &tests, &rows, None)?;
    table_of(alloc, columns, &kept)
}

// A part of a select, from the part of its source.
pub(crate) fn selected(
    alloc: Global,
    columns: &[Column],
    select: &Select,
    source: &Table,
) -> Result<Table, AllocError>
    requires items { All (IsItemOf (length source.now.columns)) (map item_of select.now.items) }
    requires same { length select.now.items ≡ length columns.now }
    ensures { IfOk result (λ made. made
        ≡ table_of columns.now (plain.rows_of_items (map item_word (map item_of select.now.items)) source.now.rows)) }
{
    let items = items_of(alloc, select.items.as_slice())?;
    let rows = source.lent_rows(alloc)?;
    let made = rows_of_items(alloc, &items, &rows)?;
    let lent = lend(alloc, &made)?;
    table_of(alloc, columns, &lent)
}
