//! Filters, zeroed tables and tables one behind the other in the clear, worked by hand.

use crate::small_tables::{are, rows_of, table_of};
use plain_operators::{Comparison, Operand, Test};
use shared_ops::{filter_by, joint_concat, zeroed};
use std::alloc::{AllocError, Global};
use std::test::Fail;
use wires::Clear;

const TABLE: [[u64; 3]; 3] = [[7, 1, 1], [8, 2, 0], [9, 3, 1]];

#[test]
fn zeroed_rows_are_zeros(rt: HostRuntime) -> Result<(), Fail> {
    let mut wires = Clear::new(rt.alloc());
    let table = table_of(&mut wires, rt.alloc(), &TABLE)?;
    let made = zeroed(&mut wires, &table)?;
    assert!(rt; made.columns.len() == 2 && made.rows == 3);
    assert!(rt; wires.value(made.columns[0]).as_slice() == [7, 0, 9].as_slice());
    assert!(rt; wires.value(made.columns[1]).as_slice() == [1, 0, 3].as_slice());
    assert!(rt; wires.value(made.valid).as_slice() == [1, 0, 1].as_slice());
    Ok(())
}

#[test]
fn one_table_behind_none_is_itself(rt: HostRuntime) -> Result<(), Fail> {
    let mut wires = Clear::new(rt.alloc());
    let mut tables = Vec::new(rt.alloc());
    tables.push(table_of(&mut wires, rt.alloc(), &TABLE)?)?;
    let made = joint_concat(&mut wires, &tables)?;
    assert!(rt; made.columns.len() == 2 && made.rows == 3);
    assert!(rt; wires.value(made.columns[0]).as_slice() == [7, 8, 9].as_slice());
    assert!(rt; wires.value(made.valid).as_slice() == [1, 0, 1].as_slice());
    Ok(())
}

// Whether a test of the second column against 2 leaves in these rows of three.
fn keeps(alloc: Global, comparison: Comparison, want: &[&[u64]]) -> Result<bool, AllocError> {
    let test = Test {
        left: Operand::Column(1),
        comparison,
        right: Operand::Constant(2),
    };
    let mut wires = Clear::new(alloc);
    let table = table_of(
        &mut wires,
        alloc,
        &[[7, 1, 1], [8, 2, 1], [8, 2, 0], [9, 3, 1]],
    )?;
    let made = filter_by(&mut wires, &table, &[test])?;
    Ok(are(rows_of(alloc, &wires, &made)?.as_slice(), want))
}

const KEPT: &[(Comparison, &[&[u64]])] = &[
    (Comparison::Equal, &[&[8, 2]]),
    (Comparison::Different, &[&[7, 1], &[9, 3]]),
    (Comparison::Less, &[&[7, 1]]),
    (Comparison::LessOrEqual, &[&[7, 1], &[8, 2]]),
    (Comparison::Greater, &[&[9, 3]]),
    (Comparison::GreaterOrEqual, &[&[8, 2], &[9, 3]]),
];

#[test]
fn each_comparison_leaves_in_what_passes(rt: HostRuntime) -> Result<(), Fail> {
    for (comparison, want) in KEPT {
        assert!(rt; keeps(rt.alloc(), *comparison, want)?, "{comparison:?}");
    }
    Ok(())
}
