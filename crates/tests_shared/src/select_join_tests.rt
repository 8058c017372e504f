//! Joins and selects of small tables in the clear, worked by hand.

ghost use Rattle.std.specs.Prelude.{◌*◌, ◌^◌, ◌<◌, length};
ghost use Rattle.plain_operators.specs.Operators.{left_keys, right_keys};
ghost use Rattle.plain_operators.specs.Within.{HasColumns};

use crate::small_tables::{are, rows_of, table_of};
use plain_operators::{Comparison, Item, Operand, Operation};
use shared_ops::{join_by, select_by};
use std::alloc::{AllocError, Global};
use std::test::Fail;
use wires::Clear;

// The rows of a table joined with itself.
fn joined(
    alloc: Global,
    rows: &[[u64; 3]],
    keys: &[(u32, u32)],
) -> Result<Vec<Vec<u64>>, AllocError>
    requires few { length rows.now * length rows.now < 2 ^ 32 }
    requires left { HasColumns (left_keys keys.now) 2 }
    requires right { HasColumns (right_keys keys.now) 2 }
{
    let mut wires = Clear::new(alloc);
    let table = table_of(&mut wires, alloc, rows)?;
    let made = join_by(&mut wires, &table, &table, keys)?;
    rows_of(alloc, &wires, &made)
}

#[test]
fn a_join_has_each_pair_of_rows_with_equal_keys(rt: HostRuntime) -> Result<(), Fail> {
    let all = [[7, 1, 1], [7, 2, 1], [9, 3, 1]];
    let rows = joined(rt.alloc(), &all, &[(0, 0)])?;
    let want: [&[u64]; 5] = [&[7, 1, 1], &[7, 1, 2], &[7, 2, 1], &[7, 2, 2], &[9, 3, 3]];
    assert!(rt; are(rows.as_slice(), &want));
    let some = [[7, 1, 1], [7, 2, 0], [9, 3, 1]];
    let rows = joined(rt.alloc(), &some, &[(0, 0)])?;
    assert!(rt; are(rows.as_slice(), &[&[7, 1, 1], &[9, 3, 3]]));
    let none = [[7, 1, 0], [7, 2, 0]];
    let rows = joined(rt.alloc(), &none, &[(0, 0)])?;
    assert!(rt; rows.as_slice().is_empty());
    Ok(())
}

#[test]
fn a_join_by_several_keys_wants_all_equal(rt: HostRuntime) -> Result<(), Fail> {
    let table = [[7, 1, 1], [7, 2, 1], [9, 9, 1]];
    let rows = joined(rt.alloc(), &table, &[(0, 0), (1, 1)])?;
    assert!(rt; are(rows.as_slice(), &[&[7, 1], &[7, 2], &[9, 9]]));
    let rows = joined(rt.alloc(), &table, &[(0, 1), (1, 0)])?;
    assert!(rt; are(rows.as_slice(), &[&[9, 9]]));
    Ok(())
}

// Whether an operation on two words gives this one.
fn computes(
    alloc: Global,
    operation: Operation,
    words: [u64; 2],
    want: u64,
) -> Result<bool, AllocError> {
    let item = Item::Computed {
        left: Operand::Column(0),
        operation,
        right: Operand::Column(1),
    };
    let [left, right] = words;
    let mut wires = Clear::new(alloc);
    let table = table_of(&mut wires, alloc, &[[left, right, 1]])?;
    let made = select_by(&mut wires, &table, &[item])?;
    Ok(are(rows_of(alloc, &wires, &made)?.as_slice(), &[&[want]]))
}

const COMPUTED: &[(Operation, [u64; 2], u64)] = &[
    (Operation::Add, [u64::MAX, 2], 1),
    (Operation::Subtract, [2, 3], u64::MAX),
    (Operation::Multiply, [u64::MAX, 2], u64::MAX - 1),
    (Operation::And, [6, 3], 2),
    (Operation::Or, [6, 3], 7),
    (Operation::Compare(Comparison::Less), [2, u64::MAX], 1),
    (Operation::Compare(Comparison::Different), [6, 6], 0),
];

#[test]
fn each_operation_gives_its_words(rt: HostRuntime) -> Result<(), Fail> {
    for (operation, words, want) in COMPUTED {
        assert!(rt;
            computes(rt.alloc(), *operation, *words, *want)?,
            "{operation:?}"
        );
    }
    Ok(())
}
