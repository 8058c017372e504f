use plain_operators::{
    Aggregate, Comparison, Item, Operand, Operation, Test, distinct_rows, grouped_places,
    grouped_rows, joined_rows, kept_rows, rows_of_items, whole_table_rows,
};
use std::alloc::{AllocError, Global};
use std::test::Fail;

// The first of a list, as many as a limit lets through.
fn first_of<'a, T>(list: &'a [T], limit: Option<usize>) -> &'a [T] {
    match limit {
        Some(limit) if limit < list.len() => &list[..limit],
        _ => list,
    }
}

fn are_rows(rows: &[Vec<u64>], want: &[&[u64]]) -> bool {
    rows.len() == want.len()
        && rows
            .iter()
            .zip(want)
            .all(|(row, wanted)| row.as_slice() == *wanted)
}

// Whether the rows whose first word compares so with 5 are these, as many as the limit lets through.
fn keeps(
    alloc: Global,
    comparison: Comparison,
    limit: Option<usize>,
    want: &[&[u64]],
) -> Result<bool, AllocError> {
    let test = Test {
        left: Operand::Column(0),
        comparison,
        right: Operand::Constant(5),
    };
    let kept = kept_rows(alloc, &[test], &[&[4, 0], &[5, 1], &[6, 2]], limit)?;
    Ok(kept.as_slice() == first_of(want, limit))
}

fn keeps_up_to_limits(
    alloc: Global,
    comparison: Comparison,
    want: &[&[u64]],
) -> Result<bool, AllocError> {
    Ok(
        keeps(alloc, comparison, None, want)?
            && keeps(alloc, comparison, Some(0), want)?
            && keeps(alloc, comparison, Some(1), want)?
            && keeps(alloc, comparison, Some(9), want)?,
    )
}

#[test]
fn keeps_rows_by_each_comparison(rt: HostRuntime) -> Result<(), Fail> {
    let less: &[u64] = &[4, 0];
    let equal: &[u64] = &[5, 1];
    let greater: &[u64] = &[6, 2];
    let cases: [(Comparison, &[&[u64]]); 6] = [
        (Comparison::Equal, &[equal]),
        (Comparison::Different, &[less, greater]),
        (Comparison::Less, &[less]),
        (Comparison::LessOrEqual, &[less, equal]),
        (Comparison::Greater, &[greater]),
        (Comparison::GreaterOrEqual, &[equal, greater]),
    ];
    for (comparison, want) in cases {
        assert!(rt;
            keeps_up_to_limits(rt.alloc(), comparison, want)?,
            "{comparison:?}"
        );
    }
    Ok(())
}

// What an item gives of the greatest word and 2, behind the other word of the row.
fn computed(alloc: Global, operation: Operation) -> Result<Vec<Vec<u64>>, AllocError> {
    let items = [
        Item::Plain(Operand::Column(1)),
        Item::Computed {
            left: Operand::Column(0),
            operation,
            right: Operand::Constant(2),
        },
    ];
    rows_of_items(alloc, &items, &[&[18446744073709551615, 7]])
}

#[test]
fn computes_items_modulo_the_word(rt: HostRuntime) -> Result<(), Fail> {
    for (operation, want) in [
        (Operation::Add, 1),
        (Operation::Subtract, 18446744073709551613),
        (Operation::Multiply, 18446744073709551614),
        (Operation::And, 2),
        (Operation::Or, 18446744073709551615),
        (Operation::Compare(Comparison::Greater), 1),
    ] {
        let made = computed(rt.alloc(), operation)?;
        assert!(rt; are_rows(&made, &[&[7, want]]), "{operation:?}");
    }
    Ok(())
}

// Whether a join of three rows with four has these rows, as many as the limit lets through.
fn joins(alloc: Global, limit: Option<usize>, want: &[&[u64]]) -> Result<bool, AllocError> {
    let lefts: [&[u64]; 3] = [&[10, 7], &[11, 9], &[12, 7]];
    let rights: [&[u64]; 4] = [&[7, 1], &[8, 2], &[7, 3], &[9, 4]];
    let made = joined_rows(alloc, &[(1, 0)], &lefts, &rights, limit)?;
    Ok(are_rows(&made, first_of(want, limit)))
}

#[test]
fn joins_in_nested_order_up_to_the_limit(rt: HostRuntime) -> Result<(), Fail> {
    let all: [&[u64]; 5] = [
        &[7, 10, 1],
        &[7, 10, 3],
        &[9, 11, 4],
        &[7, 12, 1],
        &[7, 12, 3],
    ];
    for limit in [None, Some(0), Some(4), Some(9)] {
        assert!(rt; joins(rt.alloc(), limit, &all)?, "{limit:?}");
    }
    Ok(())
}

// Whether the groups of rows have these places.
fn gathers(alloc: Global, rows: &[&[u64]], want: &[&[usize]]) -> Result<bool, AllocError> {
    let groups = grouped_places(alloc, rows)?;
    Ok(
        groups.len() == want.len()
            && groups
                .iter()
                .zip(want)
                .all(|(places, wanted)| places.as_slice() == *wanted),
    )
}

#[test]
fn gathers_places_by_first_occurrence(rt: HostRuntime) -> Result<(), Fail> {
    let alloc = rt.alloc();
    assert!(rt; gathers(alloc, &[], &[])?);
    let rows: [&[u64]; 6] = [&[7], &[5], &[7], &[7], &[1, 0], &[5]];
    assert!(rt; gathers(alloc, &rows, &[&[0, 2, 3], &[1, 5], &[4]])?);
    assert!(rt; gathers(alloc, &[&[], &[0], &[]], &[&[0, 2], &[1]])?);
    Ok(())
}

const ALL: [Aggregate; 4] = [
    Aggregate::Sum(1),
    Aggregate::Count,
    Aggregate::Least(1),
    Aggregate::Greatest(1),
];

// Whether the groups of four rows are these, as many as the limit lets through.
fn groups(alloc: Global, limit: Option<usize>, want: &[&[u64]]) -> Result<bool, AllocError> {
    let rows: [&[u64]; 4] = [&[7, 18446744073709551615], &[5, 4], &[7, 2], &[7, 2]];
    let made = grouped_rows(alloc, &[0], &ALL, &rows, limit)?;
    Ok(are_rows(&made, first_of(want, limit)))
}

#[test]
fn groups_by_keys_in_the_order_of_first_rows(rt: HostRuntime) -> Result<(), Fail> {
    let all: [&[u64]; 2] = [&[7, 3, 3, 2, 18446744073709551615], &[5, 4, 1, 4, 4]];
    for limit in [None, Some(0), Some(1), Some(9)] {
        assert!(rt; groups(rt.alloc(), limit, &all)?, "{limit:?}");
    }
    Ok(())
}

#[test]
fn gives_one_row_of_a_whole_table_and_none_of_no_row(rt: HostRuntime) -> Result<(), Fail> {
    let made = whole_table_rows(rt.alloc(), &ALL, &[&[0, 18446744073709551615], &[0, 2]])?;
    assert!(rt; are_rows(&made, &[&[1, 2, 2, 18446744073709551615]]));
    let none = whole_table_rows(rt.alloc(), &ALL, &[])?;
    assert!(rt; none.is_empty());
    Ok(())
}

// Whether the distinct rows are these, as many as the limit lets through.
fn is_distinct(
    alloc: Global,
    rows: &[&[u64]],
    limit: Option<usize>,
    want: &[&[u64]],
) -> Result<bool, AllocError> {
    Ok(distinct_rows(alloc, rows, limit)?.as_slice() == first_of(want, limit))
}

fn is_distinct_up_to_limits(
    alloc: Global,
    rows: &[&[u64]],
    want: &[&[u64]],
) -> Result<bool, AllocError> {
    Ok(
        is_distinct(alloc, rows, None, want)?
            && is_distinct(alloc, rows, Some(0), want)?
            && is_distinct(alloc, rows, Some(1), want)?
            && is_distinct(alloc, rows, Some(9), want)?,
    )
}

#[test]
fn keeps_first_occurrences_in_order(rt: HostRuntime) -> Result<(), Fail> {
    let alloc = rt.alloc();
    assert!(rt; is_distinct_up_to_limits(alloc, &[], &[])?);
    let rows: [&[u64]; 5] = [&[2, 9], &[1, 8], &[2, 9], &[2, 7], &[1, 8]];
    assert!(rt; is_distinct_up_to_limits(alloc, &rows, &[&[2, 9], &[1, 8], &[2, 7]])?);
    let rows: [&[u64]; 5] = [&[1], &[1, 0], &[], &[1], &[]];
    assert!(rt; is_distinct_up_to_limits(alloc, &rows, &[&[1], &[1, 0], &[]])?);
    Ok(())
}
