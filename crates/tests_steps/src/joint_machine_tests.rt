//! The joint machine on small lists, worked by hand.

use crate::TestTask;
use crate::made::{filled_for, list_of, reveal, share, slots, steer, tape, tell, words, work};
use crate::rule_tests::{List, push};
use joint_machine::{JointFault, JointRun, joint_run};
use std::test::Fail;
use step_lists::{Shape, Slots, Step};
use tapes::Tapes;

pub(crate) fn run(
    rt: &HostRuntime,
    list: &List,
    slots: &Slots,
    tapes: &Tapes,
) -> Result<JointRun, Fail> {
    Ok(joint_run(rt.alloc(), list, slots, tapes)?)
}

// Whether a link carries these words.
fn has_link(run: &JointRun, source: u8, target: u8, words: &[u64]) -> bool {
    if source < 1 || 3 < source || target < 1 || 3 < target || source == target {
        return false;
    }
    run.link(source, target).as_slice() == words
}

/// Whether the links from 1 to 2, 1 to 3, 2 to 1, 2 to 3, 3 to 1 and 3 to 2 carry these words.
pub(crate) fn has_links(run: &JointRun, words: &[&[u64]; 6]) -> bool {
    has_link(run, 1, 2, words[0])
        && has_link(run, 1, 3, words[1])
        && has_link(run, 2, 1, words[2])
        && has_link(run, 2, 3, words[3])
        && has_link(run, 3, 1, words[4])
        && has_link(run, 3, 2, words[5])
}

/// Whether a party has a slot of these words.
pub(crate) fn has_slot(run: &JointRun, party: u8, slot: u32, words: &[u64]) -> bool {
    if party < 1 || 3 < party {
        return false;
    }
    match run.slot(party, slot) {
        Some(found) => found.as_slice() == words,
        None => false,
    }
}

/// Whether a party has no such slot.
pub(crate) fn lacks_slot(run: &JointRun, party: u8, slot: u32) -> bool {
    1 <= party && party <= 3 && run.slot(party, slot).is_none()
}

fn one_share(rt: &HostRuntime) -> Result<JointRun, Fail> {
    let mut list = list_of(rt, &[1], &[], &[])?;
    share(&mut list, 1, 0)?;
    let slots = slots(rt, &[&[5]], &[], &[])?;
    let tapes = words(rt, &[3], &[9], &[])?;
    run(rt, &list, &slots, &tapes)
}

#[test]
fn a_share_goes_to_both_others(rt: HostRuntime) -> Result<(), Fail> {
    let run = one_share(&rt)?;
    assert!(rt; has_links(&run, &[&[15], &[15], &[], &[], &[], &[]]) && run.stopped() == None);
    Ok(())
}

fn one_and(rt: &HostRuntime) -> Result<JointRun, Fail> {
    let mut list = list_of(rt, &[1, 1], &[], &[])?;
    share(&mut list, 1, 0)?;
    share(&mut list, 1, 1)?;
    push(&mut list, Step::And { left: 0, right: 1 })?;
    let slots = slots(rt, &[&[12], &[10]], &[], &[])?;
    let tapes = words(rt, &[1, 3, 2], &[6, 5, 7], &[8])?;
    run(rt, &list, &slots, &tapes)
}

// Each party's new share is what it sends last.
#[test]
fn an_and_of_two_shares(rt: HostRuntime) -> Result<(), Fail> {
    let run = one_and(&rt)?;
    assert!(rt; has_links(&run, &[&[11, 12], &[11, 12, 7], &[14], &[], &[], &[1]]));
    Ok(())
}

fn revealed_list(rt: &HostRuntime) -> Result<List, Fail> {
    let mut list = list_of(rt, &[3], &[], &[])?;
    share(&mut list, 1, 0)?;
    reveal(rt, &mut list, 2, &[0], &[0])?;
    Ok(list)
}

fn revealed_tapes(rt: &HostRuntime) -> Result<Tapes, Fail> {
    let first = tape(rt, &[1, 2, 3], &[1, 2, 0], &[4, 5, 6, 7, 8, 9])?;
    let second = tape(rt, &[10, 11, 12, 13, 14, 15], &[0, 2, 1], &[16, 17, 18])?;
    let third = tape(rt, &[19, 20, 21, 22, 23, 24], &[0, 2, 1], &[])?;
    Ok(Tapes {
        first,
        second,
        third,
    })
}

fn one_reveal(rt: &HostRuntime) -> Result<JointRun, Fail> {
    let list = revealed_list(rt)?;
    let slots = slots(rt, &[&[5, 7, 5]], &[], &[])?;
    let tapes = revealed_tapes(rt)?;
    run(rt, &list, &slots, &tapes)
}

#[test]
fn a_reveal_shows_rows_in_a_drawn_order(rt: HostRuntime) -> Result<(), Fail> {
    let run = one_reveal(&rt)?;
    assert!(rt;
        has_slot(&run, 2, 0, &[7, 5, 5]) && lacks_slot(&run, 2, 1) && lacks_slot(&run, 3, 0)
    );
    Ok(())
}

fn flagged_list(rt: &HostRuntime) -> Result<List, Fail> {
    let mut list = list_of(rt, &[1], &[], &[])?;
    share(&mut list, 1, 0)?;
    work(rt, &mut list, 1, TestTask::Doubles, 0, Shape::Words(1))?;
    push(&mut list, Step::Flag { party: 1, slot: 1 })?;
    tell(&mut list, 1, 3, 1)?;
    Ok(list)
}

fn one_flag(rt: &HostRuntime, word: u64) -> Result<JointRun, Fail> {
    let list = flagged_list(rt)?;
    let slots = slots(rt, &[&[word]], &[], &[])?;
    let tapes = words(rt, &[3], &[9], &[])?;
    run(rt, &list, &slots, &tapes)
}

#[test]
fn a_flag_of_0_is_passed(rt: HostRuntime) -> Result<(), Fail> {
    let run = one_flag(&rt, 0)?;
    assert!(rt; run.stopped() == None && has_slot(&run, 1, 1, &[0]) && has_slot(&run, 3, 0, &[0]));
    Ok(())
}

#[test]
fn another_flag_stops_the_run(rt: HostRuntime) -> Result<(), Fail> {
    let run = one_flag(&rt, 3)?;
    assert!(rt; run.stopped() == Some(0) && has_slot(&run, 1, 1, &[6]) && lacks_slot(&run, 3, 0));
    assert!(rt; has_links(&run, &[&[9, 6], &[9, 6], &[], &[], &[], &[]]));
    Ok(())
}

// No step over first slots of one party: two of five words, and a turn.
fn steered_start(rt: &HostRuntime, party: u8) -> Result<List, Fail> {
    match party {
        1 => list_of(rt, &[5, 5, 5], &[], &[]),
        2 => list_of(rt, &[], &[5, 5, 5], &[]),
        _ => list_of(rt, &[], &[], &[5, 5, 5]),
    }
}

fn steered_list(rt: &HostRuntime, party: u8) -> Result<List, Fail> {
    let mut list = steered_start(rt, party)?;
    share(&mut list, party, 0)?;
    share(&mut list, party, 1)?;
    work(rt, &mut list, party, TestTask::Turns, 2, Shape::OrderOf(5))?;
    steer(rt, &mut list, party, 3, &[0, 1])?;
    reveal(rt, &mut list, party, &[2, 3], &[0, 1])?;
    Ok(list)
}

fn steered_slots(rt: &HostRuntime, party: u8) -> Result<Slots, Fail> {
    let own: [&[u64]; 3] = [
        &[10, 11, 12, 13, 14],
        &[20, 21, 22, 23, 24],
        &[2, 0, 0, 0, 0],
    ];
    match party {
        1 => slots(rt, &own, &[], &[]),
        2 => slots(rt, &[], &own, &[]),
        _ => slots(rt, &[], &[], &own),
    }
}

fn steered(rt: &HostRuntime, party: u8) -> Result<JointRun, Fail> {
    let list = steered_list(rt, party)?;
    let slots = steered_slots(rt, party)?;
    let tapes = filled_for(rt, &list, &[1, 2, 0, 4, 3])?;
    run(rt, &list, &slots, &tapes)
}

// The private order `2 3 4 0 1`, and then the drawn order of the Reveal three times, which turns the last two rows.
fn is_steered(rt: &HostRuntime, party: u8) -> Result<bool, Fail> {
    let run = steered(rt, party)?;
    let first = has_slot(&run, party, 4, &[12, 13, 14, 11, 10]);
    Ok(first && has_slot(&run, party, 5, &[22, 23, 24, 21, 20]))
}

#[test]
fn a_steer_goes_by_its_partys_order(rt: HostRuntime) -> Result<(), Fail> {
    assert!(rt; is_steered(&rt, 1)? && is_steered(&rt, 2)? && is_steered(&rt, 3)?);
    Ok(())
}

// A list that shares the second of party 1's first slots; party 3 has one as well.
fn shared_list(rt: &HostRuntime) -> Result<List, Fail> {
    let mut list = list_of(rt, &[1, 2], &[], &[1])?;
    share(&mut list, 1, 1)?;
    Ok(list)
}

// Whether a run ends with a fault, or with none.
fn ends_with(
    rt: &HostRuntime,
    slots: &Slots,
    tapes: &Tapes,
    fault: Option<JointFault>,
) -> Result<bool, Fail> {
    let list = shared_list(rt)?;
    Ok(joint_run(rt.alloc(), &list, slots, tapes).err() == fault)
}

// Whether these slots are refused, by this one.
fn slot_misfits(
    rt: &HostRuntime,
    first: &[&[u64]],
    second: &[&[u64]],
    third: &[&[u64]],
    party: u8,
    slot: u32,
) -> Result<bool, Fail> {
    let slots = slots(rt, first, second, third)?;
    let tapes = words(rt, &[], &[], &[])?;
    ends_with(
        rt,
        &slots,
        &tapes,
        Some(JointFault::SlotLength { party, slot }),
    )
}

// The earliest and the latest slot; the tapes don't fit either.
#[test]
fn the_first_slot_that_misfits_is_named(rt: HostRuntime) -> Result<(), Fail> {
    assert!(rt; slot_misfits(&rt, &[&[], &[5]], &[&[7]], &[], 1, 0)?);
    assert!(rt; slot_misfits(&rt, &[&[5], &[6, 7], &[]], &[], &[&[8]], 1, 2)?);
    assert!(rt; slot_misfits(&rt, &[&[5], &[6, 7]], &[], &[], 3, 0)?);
    assert!(rt; slot_misfits(&rt, &[&[5], &[6, 7]], &[], &[&[8], &[]], 3, 1)?);
    Ok(())
}

// Whether a run on these tapes ends with a fault, or with none.
fn tapes_end_with(
    rt: &HostRuntime,
    first: &[u64],
    second: &[u64],
    third: &[u64],
    fault: Option<JointFault>,
) -> Result<bool, Fail> {
    let slots = slots(rt, &[&[5], &[6, 7]], &[], &[&[8]])?;
    let tapes = words(rt, first, second, third)?;
    ends_with(rt, &slots, &tapes, fault)
}

fn unfit(tape: u8, draw: u64) -> Option<JointFault> {
    Some(JointFault::Unfit { tape, draw })
}

#[test]
fn the_first_draw_that_doesnt_fit_is_named(rt: HostRuntime) -> Result<(), Fail> {
    assert!(rt; tapes_end_with(&rt, &[], &[9], &[], unfit(1, 0))?);
    assert!(rt; tapes_end_with(&rt, &[3, 4, 5], &[], &[], unfit(1, 2))?);
    assert!(rt; tapes_end_with(&rt, &[3, 4], &[9], &[1], unfit(2, 1))?);
    assert!(rt; tapes_end_with(&rt, &[3, 4], &[9, 9], &[1], unfit(3, 0))?);
    assert!(rt; tapes_end_with(&rt, &[3, 4], &[9, 9], &[], None)?);
    Ok(())
}

// An order where a word is needed.
#[test]
fn an_order_is_no_word(rt: HostRuntime) -> Result<(), Fail> {
    let slots = slots(&rt, &[&[5], &[6, 7]], &[], &[&[8]])?;
    let mut tapes = words(&rt, &[3, 4], &[], &[])?;
    tapes.second = tape(&rt, &[9], &[0], &[])?;
    assert!(rt; ends_with(&rt, &slots, &tapes, unfit(2, 1))?);
    Ok(())
}
