use padded::{pad_rows, sorted_rows, valid_rows};
use std::test::Fail;

// Whether lists are these words.
fn are(lists: &[Vec<u64>], want: &[&[u64]]) -> bool {
    lists.len() == want.len()
        && lists
            .iter()
            .zip(want)
            .all(|(list, words)| list.as_slice() == *words)
}

#[test]
fn rows_stand_where_the_valid_word_is_1(rt: HostRuntime) -> Result<(), Fail> {
    let cases: [(&[u64], &[&[u64]]); 5] = [
        (&[1, 1, 1], &[&[3, 30], &[1, 10], &[2, 20]]),
        (&[0, 1, 0], &[&[1, 10]]),
        (&[1, 0, 1], &[&[3, 30], &[2, 20]]),
        (&[2, u64::MAX, 3], &[]),
        (&[], &[]),
    ];
    for (valid, want) in cases {
        let columns = [
            Vec::from_slice(rt.alloc(), &[3, 1, 2])?,
            Vec::from_slice(rt.alloc(), &[30, 10, 20])?,
        ];
        let rows = valid_rows(rt.alloc(), &columns, valid)?;
        assert!(rt; are(rows.as_slice(), want));
    }
    Ok(())
}

#[test]
fn rows_are_padded_by_zeros(rt: HostRuntime) -> Result<(), Fail> {
    let rows: [&[u64]; 2] = [&[7, 70], &[8, 80]];
    let table = pad_rows(rt.alloc(), &rows, 2, 4)?;
    assert!(rt;
        are(
            table.as_slice(),
            &[&[7, 8, 0, 0], &[70, 80, 0, 0], &[1, 1, 0, 0]]
        )
    );
    let fewer = pad_rows(rt.alloc(), &rows, 1, 1)?;
    assert!(rt; are(fewer.as_slice(), &[&[7], &[1]]));
    let none = pad_rows(rt.alloc(), &[], 1, 3)?;
    assert!(rt; are(none.as_slice(), &[&[0, 0, 0], &[0, 0, 0]]));
    Ok(())
}

#[test]
fn what_is_told_hides_places_and_zeros(rt: HostRuntime) -> Result<(), Fail> {
    let columns = [
        Vec::from_slice(rt.alloc(), &[5, 9, 5, 4])?,
        Vec::from_slice(rt.alloc(), &[2, 9, 1, 0])?,
    ];
    let table = sorted_rows(rt.alloc(), &columns, &[1, 0, 1, 1])?;
    assert!(rt;
        are(
            table.as_slice(),
            &[&[4, 5, 5, 0], &[0, 1, 2, 0], &[1, 1, 1, 0]]
        )
    );
    Ok(())
}
