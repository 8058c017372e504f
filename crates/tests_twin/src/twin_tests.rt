//! Twins of small lists, worked by hand.

use crate::made::{List, list_of, push, reveal, share, slots, tape, tapes, tell, words};
use crate::worlds::{explains, made_twin, same_tape, twin_of};
use std::test::Fail;
use step_lists::{Slots, Step};
use tapes::Tapes;
use twin::TwinFault;

fn one_share(rt: &HostRuntime) -> Result<List, Fail> {
    let mut list = list_of(rt, &[1], &[], &[])?;
    share(&mut list, 1, 0)?;
    Ok(list)
}

fn share_tapes(rt: &HostRuntime) -> Result<Tapes, Fail> {
    Ok(tapes(words(rt, &[3])?, words(rt, &[9])?, words(rt, &[])?))
}

fn first_slot(rt: &HostRuntime, words: &[u64]) -> Result<Slots, Fail> {
    slots(rt, &[words], &[], &[])
}

#[test]
fn a_share_of_another_word_is_explained(rt: HostRuntime) -> Result<(), Fail> {
    let list = one_share(&rt)?;
    let tapes = share_tapes(&rt)?;
    let (one, other) = (first_slot(&rt, &[5])?, first_slot(&rt, &[6])?);
    let twin = made_twin(&rt, &list, 2, &one, &other, &tapes)?;
    assert!(rt; same_tape(&twin, &words(&rt, &[0])?));
    assert!(rt; explains(&rt, &list, 2, &one, &other, &tapes)?);
    Ok(())
}

fn revealed_list(rt: &HostRuntime) -> Result<List, Fail> {
    let mut list = list_of(rt, &[3], &[], &[])?;
    share(&mut list, 1, 0)?;
    reveal(rt, &mut list, 2, &[0], &[0])?;
    Ok(list)
}

fn revealed_tapes(rt: &HostRuntime) -> Result<Tapes, Fail> {
    let first = tape(rt, &[1, 2, 3], &[1, 2, 0], &[4, 5, 6, 7, 8, 9])?;
    let second = tape(rt, &[10, 11, 12, 13, 14, 15], &[0, 2, 1], &[16, 17, 18])?;
    let third = tape(rt, &[19, 20, 21, 22, 23, 24], &[0, 2, 1], &[])?;
    Ok(tapes(first, second, third))
}

#[test]
fn rows_in_another_order_are_explained(rt: HostRuntime) -> Result<(), Fail> {
    let list = revealed_list(&rt)?;
    let tapes = revealed_tapes(&rt)?;
    let (one, other) = (first_slot(&rt, &[5, 7, 5])?, first_slot(&rt, &[5, 5, 7])?);
    let twin = made_twin(&rt, &list, 2, &one, &other, &tapes)?;
    assert!(rt; has_order(&twin, 3, &[2, 1, 0]));
    assert!(rt; explains(&rt, &list, 2, &one, &other, &tapes)?);
    Ok(())
}

// Whether a draw of a tape is this order.
fn has_order(tape: &tapes::Tape, place: usize, places: &[u32]) -> bool {
    match tape.draw(place) {
        Some(tapes::LentDraw::Order(order)) => order.places() == places,
        _ => false,
    }
}

// Whether rows are these.
fn are_rows(rows: &Vec<Vec<u64>>, expected: &[&[u64]]) -> bool {
    if rows.len() != expected.len() {
        return false;
    }
    for place in 0..rows.len() {
        if rows[place].as_slice() != expected[place] {
            return false;
        }
    }
    true
}

// Whether there is no twin, by these lists at this step.
fn is_apart(
    rt: &HostRuntime,
    list: &List,
    worlds: (&Slots, &Slots),
    tapes: &Tapes,
    number: u64,
    rows: (&[&[u64]], &[&[u64]]),
) -> Result<bool, Fail> {
    match twin_of(rt, list, 2, worlds.0, worlds.1, tapes)? {
        Err(
            TwinFault::NotAligned {
                step,
                first,
                second,
            },
        ) => {
            Ok(step == number && are_rows(first.rows(), rows.0) && are_rows(second.rows(), rows.1))
        }
        _ => Ok(false),
    }
}

#[test]
fn rows_of_another_bag_are_named(rt: HostRuntime) -> Result<(), Fail> {
    let list = revealed_list(&rt)?;
    let tapes = revealed_tapes(&rt)?;
    let (one, other) = (first_slot(&rt, &[5, 7, 5])?, first_slot(&rt, &[5, 5, 8])?);
    let rows: (&[&[u64]], &[&[u64]]) = (&[&[5], &[7], &[5]], &[&[5], &[5], &[8]]);
    assert!(rt; is_apart(&rt, &list, (&one, &other), &tapes, 1, rows)?);
    Ok(())
}

fn told_list(rt: &HostRuntime) -> Result<List, Fail> {
    let mut list = list_of(rt, &[1], &[], &[])?;
    tell(&mut list, 1, 3, 0)?;
    tell(&mut list, 1, 2, 0)?;
    Ok(list)
}

fn flagged_list(rt: &HostRuntime) -> Result<List, Fail> {
    let mut list = list_of(rt, &[1], &[], &[])?;
    tell(&mut list, 1, 3, 0)?;
    push(&mut list, Step::Flag { party: 1, slot: 0 })?;
    Ok(list)
}

fn no_tapes(rt: &HostRuntime) -> Result<Tapes, Fail> {
    Ok(tapes(words(rt, &[])?, words(rt, &[])?, words(rt, &[])?))
}

#[test]
fn other_words_told_or_flagged_are_named(rt: HostRuntime) -> Result<(), Fail> {
    let (one, other) = (first_slot(&rt, &[5])?, first_slot(&rt, &[6])?);
    let rows: (&[&[u64]], &[&[u64]]) = (&[&[5]], &[&[6]]);
    let told = is_apart(
        &rt,
        &told_list(&rt)?,
        (&one, &other),
        &no_tapes(&rt)?,
        1,
        rows,
    )?;
    let flagged = is_apart(
        &rt,
        &flagged_list(&rt)?,
        (&one, &other),
        &no_tapes(&rt)?,
        1,
        rows,
    )?;
    assert!(rt; told && flagged);
    Ok(())
}
