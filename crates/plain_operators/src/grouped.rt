ghost use Rattle.std.specs.Prelude.{◌≡◌, ◌<◌, ◌++◌, length, map, IfOk, OnOk};
ghost use Rattle.std.specs.List.{All};
ghost use Rattle.plain_operators.specs.Laws.{block_row};
ghost use Rattle.plain_operators.specs.Limits.{first_of};
ghost use Rattle.plain_operators.specs.Operators as plain;
ghost use Rattle.plain_operators.specs.Places.{ArePlaces, row_at, row_of_places, rows_of_places};
ghost use Rattle.listed.specs.Lists.{lent, owned};
ghost use Rattle.plain_operators.specs.Within.{AreAggregatesOf, EachFits, HasColumns};

use crate::aggregate::Aggregate;
use crate::cut::{add_cut, cut_rows, lend};
use crate::key_places::grouped_places;
use crate::limit::first_of;
use std::alloc::{AllocError, Global};

/// One row for each list of keys that occurs, in the order of the first rows: the keys, then the aggregates over the
/// rows with these keys.
///
/// With a limit these are the first, so many at most, and no other is made; but the places of all groups are gathered.
/// Takes a look-up for each row in a hash map of the distinct keys.
pub fn grouped_rows(
    alloc: Global,
    keys: &[u32],
    aggregates: &[Aggregate],
    rows: &[&[u64]],
    limit: Option<usize>,
) -> Result<Vec<Vec<u64>>, AllocError>
    requires of_keys { EachFits (HasColumns keys.now) rows.now }
    requires of_aggregates { EachFits (AreAggregatesOf aggregates.now) rows.now }
    ensures { IfOk result (λ made. owned made.items
        ≡ first_of limit (plain.grouped_rows keys.now aggregates.now (lent rows.now))) }
{
    let words = cut_rows(alloc, keys, rows)?;
    let cut = lend(alloc, keys, rows, &words)?;
    let groups = grouped_places(alloc, &cut)?;
    rows_of_groups(alloc, keys, aggregates, rows, first_of(&groups, limit))
}

// One row for each group, by the places of its rows.
fn rows_of_groups(
    alloc: Global,
    keys: &[u32],
    aggregates: &[Aggregate],
    rows: &[&[u64]],
    groups: &[Vec<usize>],
) -> Result<Vec<Vec<u64>>, AllocError>
    requires of_keys { EachFits (HasColumns keys.now) rows.now }
    requires of_aggregates { EachFits (AreAggregatesOf aggregates.now) rows.now }
    requires of_rows { All (λ places. ArePlaces (length rows.now) places.items) groups.now }
    ensures { IfOk result (λ made. owned made.items
        ≡ rows_of_places keys.now aggregates.now (lent rows.now) groups.now) }
{
    let mut made = Vec::new(alloc);
    for places in groups {
        made.push(row_of_group(alloc, keys, aggregates, rows, places)?)?;
    }
    Ok(made)
}

// The row of a group, by the places of its rows.
fn row_of_group(
    alloc: Global,
    keys: &[u32],
    aggregates: &[Aggregate],
    rows: &[&[u64]],
    places: &[usize],
) -> Result<Vec<u64>, AllocError>
    requires of_keys { EachFits (HasColumns keys.now) rows.now }
    requires of_aggregates { EachFits (AreAggregatesOf aggregates.now) rows.now }
    requires of_rows { ArePlaces (length rows.now) places.now }
    ensures { IfOk result (λ words. words.items
        ≡ row_of_places keys.now aggregates.now (lent rows.now) places.now) }
{
    let block = rows_at(alloc, rows, places)?;
    row_of_block(alloc, keys, aggregates, &block)
}

/// The aggregates over all rows, as one row, and no row from none.
pub fn whole_table_rows(
    alloc: Global,
    aggregates: &[Aggregate],
    rows: &[&[u64]],
) -> Result<Vec<Vec<u64>>, AllocError>
    requires { EachFits (AreAggregatesOf aggregates.now) rows.now }
    ensures { IfOk result (λ made. owned made.items
        ≡ plain.whole_table_rows aggregates.now (lent rows.now)) }
{
    let mut made = Vec::new(alloc);
    if !rows.is_empty() {
        let mut words = Vec::new(alloc);
        add_aggregates(aggregates, rows, &mut words)?;
        made.push(words)?;
    }
    Ok(made)
}

// The rows at these places.
fn rows_at<'a>(
    alloc: Global,
    rows: &[&'a [u64]],
    places: &[usize],
) -> Result<Vec<&'a [u64]>, AllocError>
    requires { All (λ place. place < length rows.now) places.now }
    ensures { IfOk result (λ block. lent block.items ≡ map (row_at (lent rows.now)) places.now) }
{
    let mut block = Vec::new(alloc);
    for place in places {
        block.push(rows[*place])?;
    }
    Ok(block)
}

// The row of a block of rows with equal keys.
fn row_of_block(
    alloc: Global,
    keys: &[u32],
    aggregates: &[Aggregate],
    block: &[&[u64]],
) -> Result<Vec<u64>, AllocError>
    requires filled { 0 < length block.now }
    requires of_keys { EachFits (HasColumns keys.now) block.now }
    requires of_aggregates { EachFits (AreAggregatesOf aggregates.now) block.now }
    ensures { IfOk result (λ words. words.items
        ≡ block_row keys.now aggregates.now (lent block.now)) }
{
    let mut words = Vec::new(alloc);
    add_cut(keys, block[0], &mut words)?;
    add_aggregates(aggregates, block, &mut words)?;
    Ok(words)
}

// Adds the aggregates over rows.
fn add_aggregates(
    aggregates: &[Aggregate],
    rows: &[&[u64]],
    words: &mut Vec<u64>,
) -> Result<(), AllocError>
    requires { EachFits (AreAggregatesOf aggregates.now) rows.now }
    ensures { OnOk result (words.new.items
        ≡ words.old.items ++ plain.aggregates_of aggregates.now (lent rows.now)) }
{
    for aggregate in aggregates {
        words.push(aggregate.over(rows))?;
    }
    Ok(())
}
