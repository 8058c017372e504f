//! Random tables, whose rows that aren't valid hold random words too, against the operators on plain rows.

ghost use Rattle.std.specs.Prelude.{◌≡◌, ◌<◌, ◌≤◌, All, length, IfOk};
ghost use Rattle.plain_operators.specs.Operators.{left_keys, right_keys};
ghost use Rattle.plain_operators.specs.Within.{HasColumns};

use crate::small_tables::{rows_of, table_of};
use bags::sort_rows;
use listed::lend;
use plain_operators::{
    Aggregate, Comparison, Item, Operand, Operation, Test, distinct_rows, grouped_rows,
    joined_rows, kept_rows, rows_of_items, whole_table_rows,
};
use rand::rngs::StdRng;
use rand::{RngExt, SeedableRng};
use shared_ops::{filter_by, group_by, join_by, joint_concat, joint_distinct, select_by, zeroed};
use std::alloc::{AllocError, Global};
use std::test::Fail;
use wires::Clear;

// 0, 1, 2 or the greatest word.
fn random_word(random: &mut StdRng) -> u64 {
    random.random_range(0u64..4).wrapping_sub(1)
}

fn random_row(random: &mut StdRng) -> [u64; 3] {
    [
        random_word(random),
        random_word(random),
        random.random_range(0u64..2),
    ]
}

// One to six rows.
fn random_rows(alloc: Global, random: &mut StdRng) -> Result<Vec<[u64; 3]>, AllocError>
    ensures some { IfOk result (λ rows. 0 < length rows.items) }
    ensures few { IfOk result (λ rows. length rows.items ≤ 6) }
{
    let mut rows = Vec::new(alloc);
    rows.push(random_row(random))?;
    for _more in 0..random.random_range(0u32..6) {
        rows.push(random_row(random))?;
    }
    Ok(rows)
}

// The two words of each valid row.
fn valid_words(alloc: Global, rows: &[[u64; 3]]) -> Result<Vec<&[u64]>, AllocError>
    ensures { IfOk result (λ valid. All (λ row. length row.now ≡ 2) valid.items) }
{
    let mut valid = Vec::new(alloc);
    for row in rows {
        if row[2] == 1 {
            valid.push(&row[..2])?;
        }
    }
    Ok(valid)
}

// Whether rows are others in some order.
fn same_bag(alloc: Global, rows: &[Vec<u64>], others: &[&[u64]]) -> Result<bool, AllocError> {
    let mut left = lend(alloc, rows)?;
    let mut right = Vec::from_slice(alloc, others)?;
    sort_rows(&mut left);
    sort_rows(&mut right);
    Ok(left.as_slice() == right.as_slice())
}

fn filter_agrees(
    alloc: Global,
    rows: &[[u64; 3]],
    comparison: Comparison,
) -> Result<bool, AllocError>
    requires { length rows.now ≤ 6 }
{
    let tests = [
        Test {
            left: Operand::Column(0),
            comparison,
            right: Operand::Column(1),
        },
        Test {
            left: Operand::Constant(1),
            comparison,
            right: Operand::Column(1),
        },
    ];
    let mut wires = Clear::new(alloc);
    let table = table_of(&mut wires, alloc, rows)?;
    let made = filter_by(&mut wires, &table, &tests)?;
    let plain = kept_rows(alloc, &tests, &valid_words(alloc, rows)?, None)?;
    same_bag(alloc, &rows_of(alloc, &wires, &made)?, &plain)
}

fn select_agrees(alloc: Global, rows: &[[u64; 3]], operation: Operation) -> Result<bool, AllocError>
    requires { length rows.now ≤ 6 }
{
    let items = [
        Item::Plain(Operand::Column(1)),
        Item::Computed {
            left: Operand::Column(0),
            operation,
            right: Operand::Column(1),
        },
        Item::Computed {
            left: Operand::Column(1),
            operation,
            right: Operand::Constant(2),
        },
    ];
    let mut wires = Clear::new(alloc);
    let table = table_of(&mut wires, alloc, rows)?;
    let made = select_by(&mut wires, &table, &items)?;
    let plain = rows_of_items(alloc, &items, &valid_words(alloc, rows)?)?;
    same_bag(
        alloc,
        &rows_of(alloc, &wires, &made)?,
        &lend(alloc, &plain)?,
    )
}

fn join_agrees(
    alloc: Global,
    lefts: &[[u64; 3]],
    rights: &[[u64; 3]],
    keys: &[(u32, u32)],
) -> Result<bool, AllocError>
    requires few_left { length lefts.now ≤ 6 }
    requires few_right { length rights.now ≤ 6 }
    requires left { HasColumns (left_keys keys.now) 2 }
    requires right { HasColumns (right_keys keys.now) 2 }
{
    let mut wires = Clear::new(alloc);
    let left = table_of(&mut wires, alloc, lefts)?;
    let right = table_of(&mut wires, alloc, rights)?;
    let made = join_by(&mut wires, &left, &right, keys)?;
    let lefts = valid_words(alloc, lefts)?;
    let rights = valid_words(alloc, rights)?;
    let plain = joined_rows(alloc, keys, &lefts, &rights, None)?;
    same_bag(
        alloc,
        &rows_of(alloc, &wires, &made)?,
        &lend(alloc, &plain)?,
    )
}

const AGGREGATES: [Aggregate; 6] = [
    Aggregate::Sum(1),
    Aggregate::Count,
    Aggregate::Least(1),
    Aggregate::Greatest(1),
    Aggregate::Least(0),
    Aggregate::Sum(0),
];

fn group_agrees(alloc: Global, rows: &[[u64; 3]], keys: &[u32]) -> Result<bool, AllocError>
    requires some { 0 < length rows.now }
    requires few { length rows.now ≤ 6 }
    requires keys { HasColumns keys.now 2 }
{
    let mut wires = Clear::new(alloc);
    let table = table_of(&mut wires, alloc, rows)?;
    let made = group_by(&mut wires, &table, keys, &AGGREGATES)?;
    let valid = valid_words(alloc, rows)?;
    let plain = if keys.is_empty() {
        whole_table_rows(alloc, &AGGREGATES, &valid)?
    } else {
        grouped_rows(alloc, keys, &AGGREGATES, &valid, None)?
    };
    same_bag(
        alloc,
        &rows_of(alloc, &wires, &made)?,
        &lend(alloc, &plain)?,
    )
}

fn distinct_agrees(alloc: Global, rows: &[[u64; 3]]) -> Result<bool, AllocError>
    requires { length rows.now ≤ 6 }
{
    let mut wires = Clear::new(alloc);
    let table = table_of(&mut wires, alloc, rows)?;
    let made = joint_distinct(&mut wires, &table)?;
    let plain = distinct_rows(alloc, &valid_words(alloc, rows)?, None)?;
    same_bag(alloc, &rows_of(alloc, &wires, &made)?, &plain)
}

// Both tables one behind the other, and zeroed.
fn concat_agrees(alloc: Global, lefts: &[[u64; 3]], rights: &[[u64; 3]]) -> Result<bool, AllocError>
    requires left { length lefts.now ≤ 6 }
    requires right { length rights.now ≤ 6 }
{
    let mut wires = Clear::new(alloc);
    let mut tables = Vec::new(alloc);
    tables.push(table_of(&mut wires, alloc, lefts)?)?;
    tables.push(table_of(&mut wires, alloc, rights)?)?;
    let both = joint_concat(&mut wires, &tables)?;
    let made = zeroed(&mut wires, &both)?;
    let mut plain = valid_words(alloc, lefts)?;
    plain.extend_from_slice(&valid_words(alloc, rights)?)?;
    same_bag(alloc, &rows_of(alloc, &wires, &made)?, &plain)
}

const COMPARISONS: &[Comparison] = &[
    Comparison::Equal,
    Comparison::Different,
    Comparison::Less,
    Comparison::LessOrEqual,
    Comparison::Greater,
    Comparison::GreaterOrEqual,
];

const OPERATIONS: &[Operation] = &[
    Operation::Add,
    Operation::Subtract,
    Operation::Multiply,
    Operation::And,
    Operation::Or,
];

// Whether filters and selects of a table agree with those of its rows.
fn rows_agree(alloc: Global, rows: &[[u64; 3]]) -> Result<bool, AllocError>
    requires { length rows.now ≤ 6 }
{
    let mut agree = true;
    for comparison in COMPARISONS {
        agree &= filter_agrees(alloc, rows, *comparison)?;
        agree &= select_agrees(alloc, rows, Operation::Compare(*comparison))?;
    }
    for operation in OPERATIONS {
        agree &= select_agrees(alloc, rows, *operation)?;
    }
    Ok(agree)
}

// Whether groups, distinct rows and joins of two tables agree with those of their rows.
fn tables_agree(alloc: Global, lefts: &[[u64; 3]], rights: &[[u64; 3]]) -> Result<bool, AllocError>
    requires some { 0 < length lefts.now }
    requires left { length lefts.now ≤ 6 }
    requires right { length rights.now ≤ 6 }
{
    let agree = [
        group_agrees(alloc, lefts, &[0])?,
        group_agrees(alloc, lefts, &[1, 0])?,
        group_agrees(alloc, lefts, &[])?,
        distinct_agrees(alloc, lefts)?,
        concat_agrees(alloc, lefts, rights)?,
        join_agrees(alloc, lefts, rights, &[(0, 0)])?,
        join_agrees(alloc, lefts, rights, &[(0, 1)])?,
        join_agrees(alloc, lefts, rights, &[(0, 0), (1, 1)])?,
    ];
    Ok(agree.iter().all(|agrees| *agrees))
}

#[test]
fn random_tables_have_the_rows_of_plain_operators(rt: HostRuntime) -> Result<(), Fail> {
    let mut random = StdRng::seed_from_u64(17);
    for _table in 0..40 {
        let lefts = random_rows(rt.alloc(), &mut random)?;
        let rights = random_rows(rt.alloc(), &mut random)?;
        assert!(rt; rows_agree(rt.alloc(), &lefts)?, "{lefts:?}");
        assert!(rt;
            tables_agree(rt.alloc(), &lefts, &rights)?,
            "{lefts:?} {rights:?}"
        );
    }
    Ok(())
}
