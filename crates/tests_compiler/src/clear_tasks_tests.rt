//! Clear tasks as steps.

use crate::lists::{List, list_of, numbers, push, rows, run_of, slots_of};
use clear_tasks::ClearTask;
use listed::Listed;
use std::test::Fail;
use step_lists::{Shape, Step};

// A party sorts a padded table of two columns of four places.
fn sorting(rt: &HostRuntime) -> Result<List, Fail> {
    let mut list = list_of(rt, &[4, 4, 4], &[])?;
    let step = Step::Work {
        party: 1,
        task: ClearTask::Sorted { columns: 2 },
        takes: numbers(rt, &[0, 1, 2])?,
        gives: Listed::from_slice(rt.alloc(), &[Shape::Words(4); 3])?,
    };
    push(&mut list, step)?;
    Ok(list)
}

// What `Sorted` gives for a table.
fn sorted(rt: &HostRuntime, table: &[&[u64]]) -> Result<Vec<Vec<u64>>, Fail> {
    let list = sorting(rt)?;
    let slots = slots_of(rt, table, &[])?;
    let run = run_of(rt, &list, &slots, 1)?;
    let mut given = Vec::new(rt.alloc());
    for slot in 3u32..6 {
        let words = run.slot(1, slot).ok_or("no slot")?;
        given.push(words.clone()?)?;
    }
    Ok(given)
}

// Whether `Sorted` gives these words for a table.
fn gives(rt: &HostRuntime, table: &[&[u64]], want: &[&[u64]]) -> Result<bool, Fail> {
    Ok(sorted(rt, table)? == rows(rt, want)?)
}

type Table = [&'static [u64]; 3];

const NO_VALID_ROW: Table = [&[3, 1, 2, 9], &[5, 6, 7, 8], &[0, 0, 0, 0]];

const ZEROS: Table = [&[0, 0, 0, 0], &[0, 0, 0, 0], &[0, 0, 0, 0]];

const ALL_VALID: Table = [&[3, 1, 2, 1], &[5, 6, 7, 8], &[1, 1, 1, 1]];

const ALL_SORTED: Table = [&[1, 1, 2, 3], &[6, 8, 7, 5], &[1, 1, 1, 1]];

const EQUAL_ROWS: Table = [&[4, 2, 4, 7], &[1, 9, 1, 7], &[1, 0, 1, 1]];

const EQUAL_SORTED: Table = [&[4, 4, 7, 0], &[1, 1, 7, 0], &[1, 1, 1, 0]];

#[test]
fn no_valid_row_is_zeros(rt: HostRuntime) -> Result<(), Fail> {
    assert!(rt; gives(&rt, &NO_VALID_ROW, &ZEROS)?);
    Ok(())
}

#[test]
fn all_rows_are_sorted_by_the_first_column(rt: HostRuntime) -> Result<(), Fail> {
    assert!(rt; gives(&rt, &ALL_VALID, &ALL_SORTED)?);
    Ok(())
}

#[test]
fn equal_rows_stay(rt: HostRuntime) -> Result<(), Fail> {
    assert!(rt; gives(&rt, &EQUAL_ROWS, &EQUAL_SORTED)?);
    Ok(())
}
