use bags::sort_rows;
use std::alloc::{AllocError, Global};
use std::test::Fail;

// Rows, each list with the same in order.
const CASES: &[(&[&[u64]], &[&[u64]])] = &[
    (&[], &[]),
    (&[&[7]], &[&[7]]),
    (&[&[2, 9], &[1, 8], &[2, 7]], &[&[1, 8], &[2, 7], &[2, 9]]),
    (
        &[&[3], &[2], &[3], &[1], &[3]],
        &[&[1], &[2], &[3], &[3], &[3]],
    ),
    (
        &[&[1, 0], &[], &[1], &[0, 5, 5]],
        &[&[], &[0, 5, 5], &[1], &[1, 0]],
    ),
    (&[&[u64::MAX], &[10], &[9]], &[&[9], &[10], &[u64::MAX]]),
];

fn sorts(alloc: Global, given: &[&[u64]], want: &[&[u64]]) -> Result<bool, AllocError> {
    let mut rows = Vec::from_slice(alloc, given)?;
    sort_rows(&mut rows);
    Ok(rows.as_slice() == want)
}

// The first of the lists that is sorted in another way.
fn first_other(
    alloc: Global,
    cases: &[(&[&[u64]], &[&[u64]])],
) -> Result<Option<usize>, AllocError> {
    for (index, (given, want)) in cases.iter().enumerate() {
        if !sorts(alloc, given, want)? {
            return Ok(Some(index));
        }
    }
    Ok(None)
}

#[test]
fn sorts_by_first_difference_and_then_length(rt: HostRuntime) -> Result<(), Fail> {
    assert_eq!(rt; first_other(rt.alloc(), CASES)?, None);
    Ok(())
}
