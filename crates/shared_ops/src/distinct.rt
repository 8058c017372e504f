//! Distinct: each row once.

ghost use Rattle.std.specs.Prelude.{◌≡◌, ◌+◌, ◌*◌, ◌^◌, ◌<◌, ◌≤◌, length, IfOk};
ghost use Rattle.std.specs.List.{range_with_len};
ghost use Rattle.wires.specs.Growth.{Grows};
ghost use Rattle.padded.specs.Table.{AreBits};
ghost use Rattle.plain_operators.specs.Operators.{distinct_rows};
ghost use Rattle.shared_ops.specs.Costs.{distinct_cost};
ghost use Rattle.shared_ops.specs.Joint.{IsJoint, Makes, joint_rows, valid_words};
ghost use Rattle.shared_ops.specs.Rounds.{firsts_calls};

use crate::firsts::firsts;
use crate::joint::Joint;
use std::alloc::{AllocError, Global};
use wires::Wires;

/// Each row once, at the place of its first occurrence; the columns are the same wires. Each pair of rows is compared,
/// and a table of 2^16 rows or more finds no memory for its pairs.
pub fn joint_distinct<W: Wires>(wires: &mut W, table: &Joint) -> Result<Joint, AllocError>
    requires joint { IsJoint (W.shape wires.old) table.now }
    ensures grows { Grows W.grown W.possible W.shape wires.old wires.new }
    ensures makes { IfOk result (λ new. Makes (W.possible wires.new) (W.shape wires.new) new table.now.rows (length table.now.columns.items)
        (λ v. AreBits (valid_words v table.now)) (λ v. distinct_rows (joint_rows v table.now))) }
    ensures cost { W.ands wires.new ≤ W.ands wires.old + distinct_cost (length table.now.columns.items) table.now.rows }
    ensures calls { W.and_calls wires.new ≤ W.and_calls wires.old + firsts_calls (length table.now.columns.items) table.now.rows }
{
    // Law: rows are the same bag as themselves.
    bags::laws::bags_are_equivalence();
    if table.rows == 0 {
        return same_table(table);
    }
    if table.rows > 65535 {
        return Err(AllocError);
    }
    let new = distinct(wires, table)?;
    Ok(new)
}

// The same wires again.
fn same_table(table: &Joint) -> Result<Joint, AllocError>
    ensures columns { IfOk result (λ new. new.columns.items ≡ table.now.columns.items) }
    ensures valid { IfOk result (λ new. new.valid ≡ table.now.valid) }
    ensures rows { IfOk result (λ new. new.rows ≡ table.now.rows) }
{
    let columns = Vec::from_slice(*table.columns.allocator(), table.columns.as_slice())?;
    Ok(Joint {
        columns,
        valid: table.valid,
        rows: table.rows,
    })
}

// The numbers of all columns.
fn all_columns(alloc: Global, table: &Joint) -> Result<Vec<u32>, AllocError>
    ensures { IfOk result (λ numbers. numbers.items ≡ range_with_len 0 (length table.now.columns.items)) }
{
    let Ok(count) = u32::try_from(table.columns.len()) else {
        return Err(AllocError);
    };
    let mut numbers = Vec::with_capacity(alloc, count as usize)?;
    for number in 0..count {
        numbers.push(number)?;
    }
    Ok(numbers)
}

// Each row once, in a table that has room for one.
fn distinct<W: Wires>(wires: &mut W, table: &Joint) -> Result<Joint, AllocError>
    requires joint { IsJoint (W.shape wires.old) table.now }
    requires some { 0 < table.now.rows }
    requires few { table.now.rows * table.now.rows < 2 ^ 32 }
    ensures grows { Grows W.grown W.possible W.shape wires.old wires.new }
    ensures makes { IfOk result (λ new. Makes (W.possible wires.new) (W.shape wires.new) new table.now.rows (length table.now.columns.items)
        (λ v. AreBits (valid_words v table.now)) (λ v. distinct_rows (joint_rows v table.now))) }
    ensures cost { W.ands wires.new ≤ W.ands wires.old + table.now.rows * table.now.rows * (7 * length table.now.columns.items + 4) }
    ensures calls { W.and_calls wires.new ≤ W.and_calls wires.old + firsts_calls (length table.now.columns.items) table.now.rows }
{
    // Laws: distinct rows are those at the first places, and rows are the same bag as themselves.
    plain_operators::laws::operators_of_firsts();
    bags::laws::bags_are_equivalence();
    let alloc = *table.columns.allocator();
    let numbers = all_columns(alloc, table)?;
    let firsts = firsts(wires, table, numbers.as_slice())?;
    let columns = Vec::from_slice(alloc, table.columns.as_slice())?;
    Ok(Joint {
        columns,
        valid: firsts.valid,
        rows: table.rows,
    })
}
