//! AND words on tables of 1, 2 and 5 rows.

ghost use Rattle.std.specs.Prelude.{◌^◌, ◌<◌, length};
ghost use Rattle.plain_operators.specs.Within.{AreAggregatesOf, HasColumns};

use crate::small_tables::table_of;
use plain_operators::{Aggregate, Comparison, Item, Operand, Operation, Test};
use shared_ops::{filter_by, group_by, join_by, joint_concat, joint_distinct, select_by, zeroed};
use std::alloc::{AllocError, Global};
use std::test::Fail;
use wires::Tally;

// AND words and AND calls.
type Spent = (u64, u64);

const ZEROS: [[u64; 3]; 5] = [[0; 3]; 5];

// Of a filter with one test.
fn filter_words(alloc: Global, rows: &[[u64; 3]], comparison: Comparison) -> Result<u64, AllocError>
    requires { length rows.now < 2 ^ 32 }
{
    let test = Test {
        left: Operand::Column(0),
        comparison,
        right: Operand::Column(1),
    };
    let mut wires = Tally::new(alloc);
    let table = table_of(&mut wires, alloc, rows)?;
    let _made = filter_by(&mut wires, &table, &[test])?;
    Ok(wires.and_words())
}

// Of a select with a copied and a computed item.
fn select_words(alloc: Global, rows: &[[u64; 3]], operation: Operation) -> Result<u64, AllocError>
    requires { length rows.now < 2 ^ 32 }
{
    let items = [
        Item::Plain(Operand::Column(1)),
        Item::Computed {
            left: Operand::Column(0),
            operation,
            right: Operand::Column(1),
        },
    ];
    let mut wires = Tally::new(alloc);
    let table = table_of(&mut wires, alloc, rows)?;
    let _made = select_by(&mut wires, &table, &items)?;
    Ok(wires.and_words())
}

// Of the table and itself one behind the other, and then zeroed.
fn zeroed_spends(alloc: Global, rows: &[[u64; 3]]) -> Result<Spent, AllocError>
    requires { length rows.now < 2 ^ 31 }
{
    let mut wires = Tally::new(alloc);
    let mut tables = Vec::new(alloc);
    tables.push(table_of(&mut wires, alloc, rows)?)?;
    tables.push(table_of(&mut wires, alloc, rows)?)?;
    let both = joint_concat(&mut wires, &tables)?;
    let _made = zeroed(&mut wires, &both)?;
    Ok((wires.and_words(), wires.and_calls()))
}

// Of a join with itself by both columns.
fn join_spends(alloc: Global, rows: &[[u64; 3]]) -> Result<Spent, AllocError>
    requires { length rows.now < 2 ^ 16 }
{
    let mut wires = Tally::new(alloc);
    let table = table_of(&mut wires, alloc, rows)?;
    let _made = join_by(&mut wires, &table, &table, &[(0, 0), (1, 1)])?;
    Ok((wires.and_words(), wires.and_calls()))
}

// Of a group.
fn group_spends(
    alloc: Global,
    rows: &[[u64; 3]],
    keys: &[u32],
    aggregates: &[Aggregate],
) -> Result<Spent, AllocError>
    requires some { 0 < length rows.now }
    requires few { length rows.now < 2 ^ 32 }
    requires keys { HasColumns keys.now 2 }
    requires aggregates { AreAggregatesOf aggregates.now 2 }
{
    let mut wires = Tally::new(alloc);
    let table = table_of(&mut wires, alloc, rows)?;
    let _made = group_by(&mut wires, &table, keys, aggregates)?;
    Ok((wires.and_words(), wires.and_calls()))
}

// Of distinct rows.
fn distinct_spends(alloc: Global, rows: &[[u64; 3]]) -> Result<Spent, AllocError>
    requires { length rows.now < 2 ^ 32 }
{
    let mut wires = Tally::new(alloc);
    let table = table_of(&mut wires, alloc, rows)?;
    let _made = joint_distinct(&mut wires, &table)?;
    Ok((wires.and_words(), wires.and_calls()))
}

// Each operation, the most AND words of it for a row and those that it takes.
const OPERATIONS: &[(Operation, u64, u64)] = &[
    (Operation::Compare(Comparison::Equal), 6, 6),
    (Operation::Compare(Comparison::Different), 6, 6),
    (Operation::Compare(Comparison::Less), 13, 7),
    (Operation::Compare(Comparison::LessOrEqual), 13, 7),
    (Operation::Compare(Comparison::Greater), 13, 7),
    (Operation::Compare(Comparison::GreaterOrEqual), 13, 7),
    (Operation::Add, 13, 7),
    (Operation::Subtract, 13, 7),
    (Operation::Multiply, 883, 133),
    (Operation::And, 1, 1),
    (Operation::Or, 1, 1),
];

// Whether a select by an operation, and a filter by a comparison, take so many words for a row, and no more than the most.
fn takes(
    alloc: Global,
    rows: &[[u64; 3]],
    operation: Operation,
    most: u64,
    taken: u64,
) -> Result<bool, AllocError>
    requires { length rows.now < 2 ^ 32 }
{
    let count = rows.len() as u64;
    let selected = select_words(alloc, rows, operation)?;
    let filtered = match operation {
        Operation::Compare(comparison) => filter_words(alloc, rows, comparison)?,
        _ => selected.saturating_add(count),
    };
    Ok(
        taken <= most
            && selected == count.saturating_mul(taken)
            && filtered == count.saturating_mul(taken.saturating_add(1)),
    )
}

#[test]
fn and_words_of_each_comparison_and_item(rt: HostRuntime) -> Result<(), Fail> {
    for count in [1, 2, 5] {
        for (operation, most, taken) in OPERATIONS {
            let is = takes(rt.alloc(), &ZEROS[..count], *operation, *most, *taken)?;
            assert!(rt; is, "{operation:?}, {count}");
        }
    }
    Ok(())
}

// On so many rows, the most AND words of a join, three groups, distinct rows and a zeroed table twice as long, those that
// each takes, and its AND calls, which rise with the logarithm of the rows alone.
const OPERATORS: [(usize, [u64; 6], [Spent; 6]); 3] = [
    (
        1,
        [16, 11, 69, 55, 18, 4],
        [(15, 15), (9, 9), (18, 18), (2, 2), (16, 16), (4, 2)],
    ),
    (
        2,
        [64, 44, 276, 110, 72, 8],
        [(60, 15), (36, 10), (116, 41), (27, 25), (64, 17), (8, 2)],
    ),
    (
        5,
        [400, 275, 1725, 275, 450, 20],
        [
            (375, 15),
            (225, 12),
            (710, 65),
            (66, 49),
            (400, 19),
            (20, 2),
        ],
    ),
];

// What each of these operators takes.
fn spent_by_each(alloc: Global, rows: &[[u64; 3]]) -> Result<[Spent; 6], AllocError>
    requires some { 0 < length rows.now }
    requires few { length rows.now < 2 ^ 16 }
{
    let aggregates = [Aggregate::Sum(1), Aggregate::Count, Aggregate::Least(0)];
    Ok([
        join_spends(alloc, rows)?,
        group_spends(alloc, rows, &[0], &[])?,
        group_spends(alloc, rows, &[0, 1], &aggregates)?,
        group_spends(alloc, rows, &[], &aggregates)?,
        distinct_spends(alloc, rows)?,
        zeroed_spends(alloc, rows)?,
    ])
}

#[test]
fn and_words_and_calls_of_each_operator(rt: HostRuntime) -> Result<(), Fail> {
    for (count, most, taken) in OPERATORS {
        let spent = spent_by_each(rt.alloc(), &ZEROS[..count])?;
        assert_eq!(rt; spent, taken);
        assert!(rt;
            spent
                .iter()
                .zip(&most)
                .all(|(spent, most)| spent.0 <= *most)
        );
    }
    Ok(())
}
