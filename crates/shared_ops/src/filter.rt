//! Filter: the rows that pass every test.

ghost use Rattle.std.specs.Prelude.{◌≡◌, ◌+◌, ◌*◌, ◌≤◌, [], ◌∷◌, length, bit_and, map, IfOk};
ghost use Rattle.lanes.specs.Lanes.{lanewise};
ghost use Rattle.wires.specs.Environment.{words};
ghost use Rattle.wires.specs.Growth.{Carries, Grows, lanes_of};
ghost use Rattle.padded.specs.Table.{AreBits};
ghost use Rattle.plain_operators.specs.Items.{holds_of};
ghost use Rattle.plain_operators.specs.Operators.{kept_rows};
ghost use Rattle.plain_operators.specs.Within.{AreTestsOf, IsTestOf};
ghost use Rattle.shared_ops.specs.Costs.{comparison_cost, tests_cost};
ghost use Rattle.shared_ops.specs.Joint.{IsJoint, IsWide, Makes, column_words, joint_rows, valid_words};
ghost use Rattle.shared_ops.specs.Lanes.{test_lanes, valid_after};
ghost use Rattle.shared_ops.specs.Rounds.{comparison_calls, tests_calls};

use crate::compare::compare;
use crate::joint::Joint;
use crate::operand::operand_wire;
use plain_operators::Test;
use std::alloc::AllocError;
use wires::{Wire, Wires};

/// The rows for which every test holds stay valid, each at its place; the columns are the same wires. Each test takes the
/// AND words of its comparison, and one more for the valid word.
pub fn filter_by<W: Wires>(
    wires: &mut W,
    table: &Joint,
    tests: &[Test],
) -> Result<Joint, AllocError>
    requires joint { IsJoint (W.shape wires.old) table.now }
    requires fits { AreTestsOf tests.now (length table.now.columns.items) }
    ensures grows { Grows W.grown W.possible W.shape wires.old wires.new }
    ensures makes { IfOk result (λ new. Makes (W.possible wires.new) (W.shape wires.new) new table.now.rows (length table.now.columns.items)
        (λ v. AreBits (valid_words v table.now)) (λ v. kept_rows (map holds_of tests.now) (joint_rows v table.now))) }
    ensures cost { W.ands wires.new ≤ W.ands wires.old + table.now.rows * tests_cost tests.now }
    ensures calls { W.and_calls wires.new ≤ W.and_calls wires.old + tests_calls tests.now }
{
    // Laws: valid words that leave in what passes a test, and rows are the same bag as themselves.
    padded::laws::rows_of_kept();
    bags::laws::bags_are_equivalence();
    lanes::item_laws();
    let valid = passing(wires, table, tests)?;
    let alloc = *table.columns.allocator();
    let columns = Vec::from_slice(alloc, table.columns.as_slice())?;
    Ok(Joint {
        columns,
        valid,
        rows: table.rows,
    })
}

// The valid words after each test.
fn passing<W: Wires>(wires: &mut W, table: &Joint, tests: &[Test]) -> Result<Wire, AllocError>
    requires joint { IsJoint (W.shape wires.old) table.now }
    requires fits { AreTestsOf tests.now (length table.now.columns.items) }
    ensures grows { Grows W.grown W.possible W.shape wires.old wires.new }
    ensures ok { IfOk result (λ new. Carries (W.possible wires.new) (W.shape wires.new) new table.now.rows
        (λ v. valid_after tests.now table.now.rows (column_words v table.now) (valid_words v table.now))) }
    ensures cost { W.ands wires.new ≤ W.ands wires.old + table.now.rows * tests_cost tests.now }
    ensures calls { W.and_calls wires.new ≤ W.and_calls wires.old + tests_calls tests.now }
{
    let mut valid = table.valid;
    for test in tests {
        valid = pass(wires, table, valid, test)?;
    }
    Ok(valid)
}

// The valid words after one test.
fn pass<W: Wires>(
    wires: &mut W,
    table: &Joint,
    valid: Wire,
    test: &Test,
) -> Result<Wire, AllocError>
    requires joint { IsJoint (W.shape wires.old) table.now }
    requires valid { IsWide (W.shape wires.old) table.now.rows valid }
    requires fits { IsTestOf (length table.now.columns.items) test.now }
    ensures grows { Grows W.grown W.possible W.shape wires.old wires.new }
    ensures ok { IfOk result (λ new. Carries (W.possible wires.new) (W.shape wires.new) new table.now.rows
        (λ v. lanewise bit_and (words v valid) (test_lanes test.now table.now.rows (column_words v table.now)))) }
    ensures cost { W.ands wires.new ≤ W.ands wires.old + (comparison_cost test.now.comparison + 1) * table.now.rows }
    ensures calls { W.and_calls wires.new ≤ W.and_calls wires.old + (comparison_calls test.now.comparison + 1) }
{
    let left = operand_wire(wires, table, test.left)?;
    let right = operand_wire(wires, table, test.right)?;
    let flag = compare(wires, test.comparison, left, right)?;
    let new = wires.and(valid, flag)?;
    Ok(new)
}
