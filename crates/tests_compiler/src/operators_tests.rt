//! Shared operators over lists, run by three parties, and the same over `Clear` and `Tally`.

ghost use Rattle.std.specs.Prelude.{◌≡◌, [], ◌∷◌, length, IfOk};
ghost use Rattle.shared_ops.specs.Joint.{IsJoint};

use crate::lists::{List, and_words, list_of, numbers, push, run_of, slots_of};
use emit::Emit;
use padded::sorted_rows;
use plain_operators::{Aggregate, Comparison, Item, Operand, Operation, Test};
use shared_ops::{
    Joint, filter_by, group_by, join_by, joint_concat, joint_distinct, select_by, zeroed,
};
use std::alloc::{AllocError, Global};
use std::test::Fail;
use step_lists::Step;
use wires::{Clear, Tally, Wire, Wires};

#[derive(Clone, Copy, Debug)]
enum Operator {
    Filter,
    Select,
    Concat,
    Join,
    Group,
    WholeTable,
    Distinct,
    Zeroed,
}

const OPERATORS: [Operator; 8] = [
    Operator::Filter,
    Operator::Select,
    Operator::Concat,
    Operator::Join,
    Operator::Group,
    Operator::WholeTable,
    Operator::Distinct,
    Operator::Zeroed,
];

const TESTS: [Test; 2] = [
    Test {
        left: Operand::Column(0),
        comparison: Comparison::Less,
        right: Operand::Column(1),
    },
    Test {
        left: Operand::Column(1),
        comparison: Comparison::Different,
        right: Operand::Constant(5),
    },
];

const ITEMS: [Item; 3] = [
    Item::Plain(Operand::Column(1)),
    Item::Computed {
        left: Operand::Column(0),
        operation: Operation::Multiply,
        right: Operand::Column(1),
    },
    Item::Computed {
        left: Operand::Column(0),
        operation: Operation::Subtract,
        right: Operand::Constant(8),
    },
];

const AGGREGATES: [Aggregate; 4] = [
    Aggregate::Sum(1),
    Aggregate::Count,
    Aggregate::Least(1),
    Aggregate::Greatest(0),
];

// What an operator makes of a table of two columns and four rows.
fn operate<W: Wires>(
    wires: &mut W,
    alloc: Global,
    operator: Operator,
    table: &Joint,
) -> Result<Joint, AllocError>
    requires joint { IsJoint (W.shape wires.old) table.now }
    requires width { length table.now.columns.items ≡ 2 }
    requires rows { table.now.rows ≡ 4 }
    ensures { IfOk result (λ new. IsJoint (W.shape wires.new) new) }
{
    match operator {
        Operator::Filter => Ok(filter_by(wires, table, &TESTS)?),
        Operator::Select => Ok(select_by(wires, table, &ITEMS)?),
        Operator::Concat => doubled(wires, alloc, table),
        Operator::Join => Ok(join_by(wires, table, table, &[(0, 1)])?),
        Operator::Group => Ok(group_by(wires, table, &[0], &AGGREGATES)?),
        Operator::WholeTable => Ok(group_by(wires, table, &[], &AGGREGATES)?),
        Operator::Distinct => Ok(joint_distinct(wires, table)?),
        Operator::Zeroed => Ok(zeroed(wires, table)?),
    }
}

// A table behind itself.
fn doubled<W: Wires>(wires: &mut W, alloc: Global, table: &Joint) -> Result<Joint, AllocError>
    requires joint { IsJoint (W.shape wires.old) table.now }
    requires rows { table.now.rows ≡ 4 }
    ensures { IfOk result (λ new. IsJoint (W.shape wires.new) new) }
{
    let mut tables = Vec::new(alloc);
    tables.push(copy_of(alloc, table)?)?;
    tables.push(copy_of(alloc, table)?)?;
    Ok(joint_concat(wires, &tables)?)
}

// The same wires again.
fn copy_of(alloc: Global, table: &Joint) -> Result<Joint, AllocError>
    ensures { IfOk result (λ new. (new.columns.items ≡ table.now.columns.items) × (new.valid ≡ table.now.valid) × (new.rows ≡ table.now.rows)) }
{
    let columns = Vec::from_slice(alloc, table.columns.as_slice())?;
    Ok(Joint {
        columns,
        valid: table.valid,
        rows: table.rows,
    })
}

const KEYS: [u64; 4] = [7, 3, 7, 3];

const WORDS: [u64; 4] = [9, u64::MAX, 9, 7];

const FLAGS: [u64; 4] = [1, 1, 1, 0];

// A table of two columns over three wires.
fn table_of(alloc: Global, first: Wire, second: Wire, valid: Wire) -> Result<Joint, AllocError>
    ensures columns { IfOk result (λ t. t.columns.items ≡ first ∷ second ∷ []) }
    ensures valid { IfOk result (λ t. t.valid ≡ valid) }
    ensures rows { IfOk result (λ t. t.rows ≡ 4) }
{
    let columns = Vec::from_slice(alloc, &[first, second])?;
    Ok(Joint {
        columns,
        valid,
        rows: 4,
    })
}

// The table that an operator makes, over any wires with these words.
fn made<W: Wires>(wires: &mut W, alloc: Global, operator: Operator) -> Result<Joint, AllocError>
    ensures { IfOk result (λ new. IsJoint (W.shape wires.new) new) }
{
    let first = wires.constant(&KEYS)?;
    let second = wires.constant(&WORDS)?;
    let valid = wires.constant(&FLAGS)?;
    let table = table_of(alloc, first, second, valid)?;
    let new = operate(wires, alloc, operator, &table)?;
    Ok(new)
}

// Its rows in the clear, as a party tells them.
fn clear_rows(alloc: Global, operator: Operator) -> Result<Vec<Vec<u64>>, AllocError> {
    let mut wires = Clear::new(alloc);
    let table = made(&mut wires, alloc, operator)?;
    let mut columns = Vec::new(alloc);
    for column in &table.columns {
        columns.push(wires.value(*column).clone()?)?;
    }
    sorted_rows(
        alloc,
        columns.as_slice(),
        wires.value(table.valid).as_slice(),
    )
}

// Its AND words by `Tally`.
fn tally_words(alloc: Global, operator: Operator) -> Result<u64, AllocError> {
    let mut wires = Tally::new(alloc);
    let _table = made(&mut wires, alloc, operator)?;
    Ok(wires.and_words())
}

// A list that shares a table of party 1, with an operator on it, whose table it gives.
fn list_with(rt: &HostRuntime, operator: Operator) -> Result<(List, Joint), Fail> {
    let mut list = list_of(rt, &[4, 4, 4], &[])?;
    for slot in 0u32..3 {
        push(&mut list, Step::Share { party: 1, slot })?;
    }
    let table = emitted(&mut list, rt.alloc(), operator)?;
    Ok((list, table))
}

// The table of an operator on the first three registers.
fn emitted(list: &mut List, alloc: Global, operator: Operator) -> Result<Joint, Fail> {
    let count = list.registers();
    if count < 3 || list.length(0) != 4 || list.length(1) != 4 || list.length(2) != 4 {
        Err("not three words of four lanes")?;
    }
    let mut wires = Emit::new(list);
    let table = table_of(alloc, Wire(0), Wire(1), Wire(2))?;
    let new = operate(&mut wires, alloc, operator, &table)?;
    Ok(new)
}

// The slots that show a table to a party, one for each column and then the valid words.
fn revealed(rt: &HostRuntime, list: &mut List, table: &Joint) -> Result<u32, Fail> {
    let mut moved = Vec::new(rt.alloc());
    for column in &table.columns {
        moved.push(column.0)?;
    }
    moved.push(table.valid.0)?;
    let shown = Vec::from_slice(rt.alloc(), &SHOWN[..moved.len().min(9)])?;
    let reveal = Step::Reveal {
        to: 3,
        moved: numbers(rt, moved.as_slice())?,
        shown: numbers(rt, shown.as_slice())?,
    };
    push(list, reveal)?;
    Ok(shown.len() as u32)
}

const SHOWN: [u32; 9] = [0, 1, 2, 3, 4, 5, 6, 7, 8];

// The rows that three parties open of an operator's table, as a party tells them.
fn opened_rows(rt: &HostRuntime, operator: Operator, seed: u64) -> Result<Vec<Vec<u64>>, Fail> {
    let (mut list, table) = list_with(rt, operator)?;
    let count = revealed(rt, &mut list, &table)?;
    let slots = slots_of(rt, &[&KEYS, &WORDS, &FLAGS], &[])?;
    let run = run_of(rt, &list, &slots, seed)?;
    let mut columns = Vec::new(rt.alloc());
    for slot in 0..count {
        columns.push(run.slot(3, slot).ok_or("no slot")?.clone()?)?;
    }
    let valid = columns.pop().ok_or("no valid words")?;
    Ok(sorted_rows(rt.alloc(), columns.as_slice(), valid.as_slice())?)
}

// Whether three parties open what one computes, and the list has the AND words that a tally counts.
fn is_right(rt: &HostRuntime, operator: Operator) -> Result<bool, Fail> {
    let (list, _table) = list_with(rt, operator)?;
    let counted = and_words(&list) == tally_words(rt.alloc(), operator)?;
    Ok(counted && opened_rows(rt, operator, 19)? == clear_rows(rt.alloc(), operator)?)
}

#[test]
fn three_parties_open_the_rows_of_each_operator(rt: HostRuntime) -> Result<(), Fail> {
    for operator in OPERATORS {
        assert!(rt; is_right(&rt, operator)?, "{operator:?}");
    }
    Ok(())
}
