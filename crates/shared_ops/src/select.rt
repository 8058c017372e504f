//! Select: the words of items, computed lane by lane.

ghost use Rattle.std.specs.Prelude.{◌≡◌, ◌+◌, ◌*◌, ◌≤◌, [], length, map, slice_index_or, IfOk};
ghost use Rattle.lanes.specs.Lanes.{lanewise};
ghost use Rattle.wires.specs.Environment.{words};
ghost use Rattle.wires.specs.Growth.{Carries, Grows, IsMade, lanes_of};
ghost use Rattle.padded.specs.Table.{AreBits};
ghost use Rattle.plain_operators.specs.Items.{computed, item_word};
ghost use Rattle.plain_operators.specs.Operators.{rows_of_items};
ghost use Rattle.plain_operators.specs.Within.{AreItemsOf, IsItemOf};
ghost use Rattle.shared_ops.specs.Costs.{item_cost, items_cost, operation_cost};
ghost use Rattle.shared_ops.specs.Joint.{IsJoint, Makes, column_words, joint_rows, valid_words};
ghost use Rattle.shared_ops.specs.Lanes.{item_lanes, lanes_of_item};
ghost use Rattle.shared_ops.specs.Rounds.{item_calls, items_calls, operation_calls};
ghost use Rattle.shared_ops.specs.Wired.{AreWired};

use crate::compare::compare;
use crate::joint::Joint;
use crate::operand::operand_wire;
use circuits::{add, mul, or, sub};
use plain_operators::{Item, Operation};
use std::alloc::{AllocError, Global};
use wires::{Wire, Wires};

/// Each row replaced by the words of its items; valid words are the same wire. An item takes the AND words of its
/// operation, for each row.
pub fn select_by<W: Wires>(
    wires: &mut W,
    table: &Joint,
    items: &[Item],
) -> Result<Joint, AllocError>
    requires joint { IsJoint (W.shape wires.old) table.now }
    requires fits { AreItemsOf items.now (length table.now.columns.items) }
    ensures grows { Grows W.grown W.possible W.shape wires.old wires.new }
    ensures makes { IfOk result (λ new. Makes (W.possible wires.new) (W.shape wires.new) new table.now.rows (length items.now)
        (λ v. AreBits (valid_words v table.now)) (λ v. rows_of_items (map item_word items.now) (joint_rows v table.now))) }
    ensures cost { W.ands wires.new ≤ W.ands wires.old + table.now.rows * items_cost items.now }
    ensures calls { W.and_calls wires.new ≤ W.and_calls wires.old + items_calls items.now }
{
    // Laws: columns whose rows are images have the images of the rows, which are the same bag as themselves.
    padded::laws::rows_of_mapped();
    bags::laws::bags_are_equivalence();
    lanes::item_laws();
    let alloc = *table.columns.allocator();
    let columns = item_wires(wires, alloc, table, items)?;
    Ok(Joint {
        columns,
        valid: table.valid,
        rows: table.rows,
    })
}

// A wire for each item.
fn item_wires<W: Wires>(
    wires: &mut W,
    alloc: Global,
    table: &Joint,
    items: &[Item],
) -> Result<Vec<Wire>, AllocError>
    requires joint { IsJoint (W.shape wires.old) table.now }
    requires fits { AreItemsOf items.now (length table.now.columns.items) }
    ensures grows { Grows W.grown W.possible W.shape wires.old wires.new }
    ensures count { IfOk result (λ made. length made.items ≡ length items.now) }
    ensures ok { IfOk result (λ made. AreWired (W.possible wires.new) (W.shape wires.new) made.items table.now.rows
        (λ k v. lanes_of_item k items.now table.now.rows (column_words v table.now))) }
    ensures cost { W.ands wires.new ≤ W.ands wires.old + table.now.rows * items_cost items.now }
    ensures calls { W.and_calls wires.new ≤ W.and_calls wires.old + items_calls items.now }
{
    let mut columns = Vec::new(alloc);
    for at in 0..items.len() {
        let column = item_wire(wires, table, items[at])?;
        columns.push(column)?;
    }
    Ok(columns)
}

// The wire of an item.
fn item_wire<W: Wires>(wires: &mut W, table: &Joint, item: Item) -> Result<Wire, AllocError>
    requires joint { IsJoint (W.shape wires.old) table.now }
    requires fits { IsItemOf (length table.now.columns.items) item }
    ensures grows { Grows W.grown W.possible W.shape wires.old wires.new }
    ensures ok { IfOk result (λ new. Carries (W.possible wires.new) (W.shape wires.new) new table.now.rows
        (λ v. item_lanes item table.now.rows (column_words v table.now))) }
    ensures cost { W.ands wires.new ≤ W.ands wires.old + item_cost item * table.now.rows }
    ensures calls { W.and_calls wires.new ≤ W.and_calls wires.old + item_calls item }
{
    match item {
        Item::Plain(operand) => {
            let new = operand_wire(wires, table, operand)?;
            Ok(new)
        }
        Item::Computed {
            left,
            operation,
            right,
        } => {
            let left = operand_wire(wires, table, left)?;
            let right = operand_wire(wires, table, right)?;
            let new = compute(wires, operation, left, right)?;
            Ok(new)
        }
    }
}

// An operation on two words, in each lane.
fn compute<W: Wires>(
    wires: &mut W,
    operation: Operation,
    left: Wire,
    right: Wire,
) -> Result<Wire, AllocError>
    requires left { IsMade (W.shape wires.old) left }
    requires right { IsMade (W.shape wires.old) right }
    requires lanes { lanes_of (W.shape wires.old) left ≡ lanes_of (W.shape wires.old) right }
    ensures grows { Grows W.grown W.possible W.shape wires.old wires.new }
    ensures ok { IfOk result (λ new. Carries (W.possible wires.new) (W.shape wires.new) new (lanes_of (W.shape wires.old) left)
        (λ v. lanewise (computed operation) (words v left) (words v right))) }
    ensures cost { W.ands wires.new ≤ W.ands wires.old + operation_cost operation * lanes_of (W.shape wires.old) left }
    ensures calls { W.and_calls wires.new ≤ W.and_calls wires.old + operation_calls operation }
{
    match operation {
        Operation::Compare(comparison) => {
            let new = compare(wires, comparison, left, right)?;
            Ok(new)
        }
        Operation::Add => {
            let new = add(wires, left, right)?;
            Ok(new)
        }
        Operation::Subtract => {
            let new = sub(wires, left, right)?;
            Ok(new)
        }
        Operation::Multiply => {
            let new = mul(wires, left, right)?;
            Ok(new)
        }
        Operation::And => {
            let new = wires.and(left, right)?;
            Ok(new)
        }
        Operation::Or => {
            let new = or(wires, left, right)?;
            Ok(new)
        }
    }
}
