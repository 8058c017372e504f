//! The table of each operator over earlier tables, with no more than one row above its bound.
#![tactic(auto)]

ghost use Rattle.std.specs.Prelude.{◌≡◌, ◌+◌, [], length, map, IfOk};
ghost use Rattle.plain_operators.specs.Limits.{first_of};
ghost use Rattle.plain_operators.specs.OnSources.{group_of_rows};
ghost use Rattle.listed.specs.Lists.{lent, owned};
ghost use Rattle.plain_operators.specs.Within.{AreAggregatesOf, EachFits, HasColumns};
ghost use Rattle.plain_meaning.specs.Fits.{FitsConcat, FitsDistinct, FitsFilter, FitsGroup, FitsJoin, FitsSelect, widths_of};
ghost use Rattle.plain_meaning.specs.Plain.{limit_of, listed_table};

use crate::convert::{aggregates_of, items_of, tests_of};
use crate::rows::{add_source, source_rows, table_of_lent, table_of_made};
use plain_operators::laws::operators_keep_widths;
use plain_operators::{
    Aggregate, distinct_rows, grouped_rows, joined_rows, kept_rows, rows_of_items, whole_table_rows,
};
use query_graph::{Concat, Distinct, Filter, Group, Join, Operator, Select};
use std::alloc::{AllocError, Global};
use tables::Table;
use words::Column;

// How many rows are listed under a bound: one above it, which tells that it is broken.
fn limit_of(at_most: Option<u32>) -> Option<usize>
    ensures { result ≡ limit_of at_most }
{
    at_most.map(|bound| bound as usize + 1)
}

pub(crate) fn filtered(
    alloc: Global,
    columns: Vec<Column>,
    filter: &Filter,
    earlier: &[Table],
) -> Result<Table, AllocError>
    requires { FitsFilter (widths_of earlier.now) (length columns.items) filter.now }
    ensures { IfOk result (λ table. table
        ≡ listed_table columns.items (Operator.Filter filter.now) [] earlier.now) }
{
    let tests = tests_of(alloc, filter.tests.as_slice())?;
    let rows = source_rows(alloc, earlier, filter.source)?;
    let limit = limit_of(filter.at_most);
    let kept = kept_rows(alloc, &tests, &rows, limit)?;
    table_of_lent(alloc, columns, &kept)
}

pub(crate) fn selected(
    alloc: Global,
    columns: Vec<Column>,
    select: &Select,
    earlier: &[Table],
) -> Result<Table, AllocError>
    requires { FitsSelect (widths_of earlier.now) (length columns.items) select.now }
    ensures { IfOk result (λ table. table
        ≡ listed_table columns.items (Operator.Select select.now) [] earlier.now) }
{
    let items = items_of(alloc, select.items.as_slice())?;
    let rows = source_rows(alloc, earlier, select.source)?;
    let made = rows_of_items(alloc, &items, &rows)?;
    table_of_made(alloc, columns, &made)
}

pub(crate) fn concatenated(
    alloc: Global,
    columns: Vec<Column>,
    concat: &Concat,
    earlier: &[Table],
) -> Result<Table, AllocError>
    requires { FitsConcat (widths_of earlier.now) (length columns.items) concat.now }
    ensures { IfOk result (λ table. table
        ≡ listed_table columns.items (Operator.Concat concat.now) [] earlier.now) }
{
    let mut rows = Vec::new(alloc);
    for source in concat.sources.as_slice() {
        add_source(earlier, *source, &mut rows)?;
    }
    table_of_lent(alloc, columns, &rows)
}

pub(crate) fn joined(
    alloc: Global,
    columns: Vec<Column>,
    join: &Join,
    earlier: &[Table],
) -> Result<Table, AllocError>
    requires { FitsJoin (widths_of earlier.now) (length columns.items) join.now }
    ensures { IfOk result (λ table. table
        ≡ listed_table columns.items (Operator.Join join.now) [] earlier.now) }
{
    operators_keep_widths();
    let lefts = source_rows(alloc, earlier, join.left)?;
    let rights = source_rows(alloc, earlier, join.right)?;
    let limit = limit_of(join.at_most);
    let made = joined_rows(alloc, join.keys.as_slice(), &lefts, &rights, limit)?;
    table_of_made(alloc, columns, &made)
}

pub(crate) fn grouped(
    alloc: Global,
    columns: Vec<Column>,
    group: &Group,
    earlier: &[Table],
) -> Result<Table, AllocError>
    requires { FitsGroup (widths_of earlier.now) (length columns.items) group.now }
    ensures { IfOk result (λ table. table
        ≡ listed_table columns.items (Operator.Group group.now) [] earlier.now) }
{
    operators_keep_widths();
    let aggregates = aggregates_of(alloc, group.aggregates.as_slice())?;
    let rows = source_rows(alloc, earlier, group.source)?;
    let made = group_of_rows(
        alloc,
        group.keys.as_slice(),
        &aggregates,
        &rows,
        group.at_most,
    )?;
    table_of_made(alloc, columns, &made)
}

// The rows of a group with keys or without, no more than one above the bound.
fn group_of_rows(
    alloc: Global,
    keys: &[u32],
    aggregates: &[Aggregate],
    rows: &[&[u64]],
    at_most: Option<u32>,
) -> Result<Vec<Vec<u64>>, AllocError>
    requires of_keys { EachFits (HasColumns keys.now) rows.now }
    requires of_aggregates { EachFits (AreAggregatesOf aggregates.now) rows.now }
    ensures { IfOk result (λ made. owned made.items
        ≡ first_of (limit_of at_most) (group_of_rows keys.now aggregates.now (lent rows.now))) }
{
    if keys.is_empty() {
        whole_table_rows(alloc, aggregates, rows)
    } else {
        grouped_rows(alloc, keys, aggregates, rows, limit_of(at_most))
    }
}

pub(crate) fn distinct(
    alloc: Global,
    columns: Vec<Column>,
    distinct: &Distinct,
    earlier: &[Table],
) -> Result<Table, AllocError>
    requires { FitsDistinct (widths_of earlier.now) (length columns.items) distinct.now }
    ensures { IfOk result (λ table. table
        ≡ listed_table columns.items (Operator.Distinct distinct.now) [] earlier.now) }
{
    operators_keep_widths();
    let rows = source_rows(alloc, earlier, distinct.source)?;
    let kept = distinct_rows(alloc, &rows, limit_of(distinct.at_most))?;
    table_of_lent(alloc, columns, &kept)
}
