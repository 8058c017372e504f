//! Groups and distinct rows of small tables in the clear, worked by hand.

ghost use Rattle.std.specs.Prelude.{◌^◌, ◌<◌, length};
ghost use Rattle.plain_operators.specs.Within.{AreAggregatesOf, HasColumns};

use crate::small_tables::{are, rows_of, table_of};
use plain_operators::Aggregate;
use shared_ops::{group_by, joint_distinct};
use std::alloc::{AllocError, Global};
use std::test::Fail;
use wires::{Clear, Tally};

// The rows of a group of a table.
fn grouped(
    alloc: Global,
    rows: &[[u64; 3]],
    keys: &[u32],
    aggregates: &[Aggregate],
) -> Result<Vec<Vec<u64>>, AllocError>
    requires some { 0 < length rows.now }
    requires few { length rows.now < 2 ^ 32 }
    requires keys { HasColumns keys.now 2 }
    requires aggregates { AreAggregatesOf aggregates.now 2 }
{
    let mut wires = Clear::new(alloc);
    let table = table_of(&mut wires, alloc, rows)?;
    let made = group_by(&mut wires, &table, keys, aggregates)?;
    rows_of(alloc, &wires, &made)
}

// The distinct rows of a table.
fn distinct(alloc: Global, rows: &[[u64; 3]]) -> Result<Vec<Vec<u64>>, AllocError>
    requires { length rows.now < 2 ^ 32 }
{
    let mut wires = Clear::new(alloc);
    let table = table_of(&mut wires, alloc, rows)?;
    let made = joint_distinct(&mut wires, &table)?;
    rows_of(alloc, &wires, &made)
}

#[test]
fn rows_that_are_not_valid_count_nowhere(rt: HostRuntime) -> Result<(), Fail> {
    let aggregates = [
        Aggregate::Sum(1),
        Aggregate::Count,
        Aggregate::Least(1),
        Aggregate::Greatest(1),
    ];
    let table = [[7, 100, 0], [9, 30, 1], [7, 20, 1], [7, 10, 1], [9, 999, 0]];
    let rows = grouped(rt.alloc(), &table, &[0], &aggregates)?;
    assert!(rt; are(rows.as_slice(), &[&[9, 30, 1, 30, 30], &[7, 30, 2, 10, 20]]));
    let rows = grouped(rt.alloc(), &table, &[], &aggregates)?;
    assert!(rt; are(rows.as_slice(), &[&[60, 3, 10, 30]]));
    Ok(())
}

#[test]
fn a_sum_goes_round(rt: HostRuntime) -> Result<(), Fail> {
    let table = [[5, u64::MAX, 1], [5, 2, 1]];
    let rows = grouped(rt.alloc(), &table, &[0], &[Aggregate::Sum(1)])?;
    assert!(rt; are(rows.as_slice(), &[&[5, 1]]));
    let rows = grouped(rt.alloc(), &table, &[], &[Aggregate::Sum(1)])?;
    assert!(rt; are(rows.as_slice(), &[&[1]]));
    Ok(())
}

#[test]
fn no_row_makes_no_row(rt: HostRuntime) -> Result<(), Fail> {
    let table = [[4, 5, 0], [4, 6, 0]];
    let aggregates = [Aggregate::Count, Aggregate::Least(1)];
    let rows = grouped(rt.alloc(), &table, &[0], &aggregates)?;
    assert!(rt; rows.as_slice().is_empty());
    let rows = grouped(rt.alloc(), &table, &[], &aggregates)?;
    assert!(rt; rows.as_slice().is_empty());
    let rows = distinct(rt.alloc(), &table)?;
    assert!(rt; rows.as_slice().is_empty());
    Ok(())
}

#[test]
fn one_row_is_its_own_group(rt: HostRuntime) -> Result<(), Fail> {
    let table = [[4, 5, 1]];
    let aggregates = [Aggregate::Sum(1), Aggregate::Count];
    let rows = grouped(rt.alloc(), &table, &[1, 0], &aggregates)?;
    assert!(rt; are(rows.as_slice(), &[&[5, 4, 5, 1]]));
    let rows = grouped(rt.alloc(), &table, &[], &aggregates)?;
    assert!(rt; are(rows.as_slice(), &[&[5, 1]]));
    let rows = distinct(rt.alloc(), &table)?;
    assert!(rt; are(rows.as_slice(), &[&[4, 5]]));
    Ok(())
}

#[test]
fn each_row_stands_once(rt: HostRuntime) -> Result<(), Fail> {
    let table = [
        [1, 8, 0],
        [2, 8, 1],
        [1, 8, 1],
        [1, 9, 1],
        [2, 8, 1],
        [1, 9, 1],
    ];
    let rows = distinct(rt.alloc(), &table)?;
    assert!(rt; are(rows.as_slice(), &[&[2, 8], &[1, 8], &[1, 9]]));
    let rows = distinct(rt.alloc(), &[])?;
    assert!(rt; rows.as_slice().is_empty());
    Ok(())
}
