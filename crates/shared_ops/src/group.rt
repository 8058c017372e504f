//! Group: aggregates over the rows with equal keys, or over all rows.

ghost use Rattle.std.specs.Prelude.{◌≡◌, ◌+◌, ◌*◌, ◌^◌, ◌<◌, ◌≤◌, ◌++◌, length, map, IfOk};
ghost use Rattle.lanes.specs.Logarithm.{ceil_log2};
ghost use Rattle.wires.specs.Growth.{Grows};
ghost use Rattle.padded.specs.Table.{AreBits};
ghost use Rattle.plain_operators.specs.OnSources.{group_of_rows, group_size};
ghost use Rattle.plain_operators.specs.Operators.{grouped_rows, whole_table_rows};
ghost use Rattle.plain_operators.specs.Within.{AreAggregatesOf, HasColumns};
ghost use Rattle.shared_ops.specs.Costs.{group_cost};
ghost use Rattle.shared_ops.specs.Joint.{IsJoint, Makes, column_wire, joint_rows, valid_words};
ghost use Rattle.shared_ops.specs.Rounds.{aggregates_calls, firsts_calls, group_calls};

use crate::aggregate::{aggregate_all, blocks_of};
use crate::firsts::firsts;
use crate::joint::Joint;
use circuits::{Fold, fold_blocks};
use plain_operators::Aggregate;
use std::alloc::AllocError;
use wires::{Wire, Wires};

/// One row for each list of keys that occurs, at the place of its first row: the keys, then the aggregates over the rows
/// with these keys. Without keys one row of the aggregates over all rows, and none from none.
///
/// With keys each pair of rows is compared; without keys each row is looked at. AND calls go by the logarithm of the
/// rows alone. A table of 2^16 rows or more with keys finds no memory for its pairs.
pub fn group_by<W: Wires>(
    wires: &mut W,
    table: &Joint,
    keys: &[u32],
    aggregates: &[Aggregate],
) -> Result<Joint, AllocError>
    requires joint { IsJoint (W.shape wires.old) table.now }
    requires some { 0 < table.now.rows }
    requires keys { HasColumns keys.now (length table.now.columns.items) }
    requires aggregates { AreAggregatesOf aggregates.now (length table.now.columns.items) }
    ensures grows { Grows W.grown W.possible W.shape wires.old wires.new }
    ensures makes { IfOk result (λ new. Makes (W.possible wires.new) (W.shape wires.new) new (group_size keys.now table.now.rows)
        (length keys.now + length aggregates.now) (λ v. AreBits (valid_words v table.now)) (λ v. group_of_rows keys.now aggregates.now (joint_rows v table.now))) }
    ensures cost { W.ands wires.new ≤ W.ands wires.old + group_cost keys.now aggregates.now table.now.rows }
    ensures calls { W.and_calls wires.new ≤ W.and_calls wires.old + group_calls keys.now aggregates.now table.now.rows }
{
    if keys.is_empty() {
        let new = whole_table(wires, table, aggregates)?;
        return Ok(new);
    }
    if table.rows > 65535 {
        return Err(AllocError);
    }
    let new = grouped(wires, table, keys, aggregates)?;
    Ok(new)
}

// One row of the aggregates over all rows, valid where a row is.
fn whole_table<W: Wires>(
    wires: &mut W,
    table: &Joint,
    aggregates: &[Aggregate],
) -> Result<Joint, AllocError>
    requires joint { IsJoint (W.shape wires.old) table.now }
    requires some { 0 < table.now.rows }
    requires aggregates { AreAggregatesOf aggregates.now (length table.now.columns.items) }
    ensures grows { Grows W.grown W.possible W.shape wires.old wires.new }
    ensures makes { IfOk result (λ new. Makes (W.possible wires.new) (W.shape wires.new) new 1 (length aggregates.now)
        (λ v. AreBits (valid_words v table.now)) (λ v. whole_table_rows aggregates.now (joint_rows v table.now))) }
    ensures cost { W.ands wires.new ≤ W.ands wires.old + table.now.rows * (17 * length aggregates.now + 4) }
    ensures calls { W.and_calls wires.new ≤ W.and_calls wires.old + (aggregates_calls aggregates.now table.now.rows + ceil_log2 table.now.rows) }
{
    // Laws: aggregates are folds from the neutral word, and rows are the same bag as themselves.
    plain_operators::laws::aggregates_are_folds();
    circuits::folds_from_neutral();
    bags::laws::bags_are_equivalence();
    let alloc = *table.columns.allocator();
    let blocks = blocks_of(alloc, table.valid, table.rows, 1)?;
    let columns = aggregate_all(wires, &blocks, table, aggregates)?;
    let valid = fold_blocks(wires, alloc, Fold::Any, table.valid, table.rows as usize, 1)?;
    Ok(Joint {
        columns,
        valid,
        rows: 1,
    })
}

// One row for each list of keys, at the place of its first row.
fn grouped<W: Wires>(
    wires: &mut W,
    table: &Joint,
    keys: &[u32],
    aggregates: &[Aggregate],
) -> Result<Joint, AllocError>
    requires joint { IsJoint (W.shape wires.old) table.now }
    requires some { 0 < table.now.rows }
    requires few { table.now.rows * table.now.rows < 2 ^ 32 }
    requires keys { HasColumns keys.now (length table.now.columns.items) }
    requires aggregates { AreAggregatesOf aggregates.now (length table.now.columns.items) }
    ensures grows { Grows W.grown W.possible W.shape wires.old wires.new }
    ensures makes { IfOk result (λ new. Makes (W.possible wires.new) (W.shape wires.new) new table.now.rows (length keys.now + length aggregates.now)
        (λ v. AreBits (valid_words v table.now)) (λ v. grouped_rows keys.now aggregates.now (joint_rows v table.now))) }
    ensures cost { W.ands wires.new ≤ W.ands wires.old + table.now.rows * table.now.rows * (7 * length keys.now + 4 + 17 * length aggregates.now) }
    ensures calls { W.and_calls wires.new ≤ W.and_calls wires.old + (firsts_calls (length keys.now) table.now.rows + aggregates_calls aggregates.now table.now.rows) }
{
    // Laws: a group's rows are those at its first places, and its aggregates are folds from the neutral word.
    plain_operators::laws::operators_of_firsts();
    plain_operators::laws::aggregates_are_folds();
    circuits::folds_from_neutral();
    bags::laws::bags_are_equivalence();
    lanes::table_laws();
    let alloc = *table.columns.allocator();
    let firsts = firsts(wires, table, keys)?;
    let blocks = blocks_of(alloc, firsts.flags, table.rows, table.rows)?;
    let folded = aggregate_all(wires, &blocks, table, aggregates)?;
    let columns = with_keys(table, keys, &folded)?;
    Ok(Joint {
        columns,
        valid: firsts.valid,
        rows: table.rows,
    })
}

// The wires of the keys, and other wires behind them.
fn with_keys(table: &Joint, keys: &[u32], others: &Vec<Wire>) -> Result<Vec<Wire>, AllocError>
    requires { HasColumns keys.now (length table.now.columns.items) }
    ensures { IfOk result (λ made. made.items ≡ map (λ key. column_wire key table.now) keys.now ++ others.now.items) }
{
    let mut made = Vec::with_capacity(*table.columns.allocator(), keys.len())?;
    for key in keys {
        made.push(table.columns[*key as usize])?;
    }
    made.extend_from_slice(others.as_slice())?;
    Ok(made)
}
