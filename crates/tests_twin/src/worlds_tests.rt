//! Each kind of step, and all of them in one list, on tapes from seeds, for each viewer.

use crate::made::{List, list_of, numbers, push, reveal, share, slots, steer, tell, turn};
use crate::worlds::explains;
use listed::Listed;
use std::test::Fail;
use step_lists::{LinOp, Slots, Step, list_needs};
use tapes::make_tapes;

/// Whether the second world is explained on tapes from a seed.
pub(crate) fn is_explained(
    rt: &HostRuntime,
    list: &List,
    viewer: u8,
    worlds: (&Slots, &Slots),
    seed: u64,
) -> Result<bool, Fail> {
    let schedule = list_needs(rt.alloc(), list)?;
    let tapes = make_tapes(rt.alloc(), &schedule, seed)?;
    explains(rt, list, viewer, worlds.0, worlds.1, &tapes)
}

// A slot of three words of each party.
fn three_slots(
    rt: &HostRuntime,
    first: &[u64],
    second: &[u64],
    third: &[u64],
) -> Result<Slots, Fail> {
    slots(rt, &[first], &[second], &[third])
}

/// Three words of each party.
pub(crate) fn first_world(rt: &HostRuntime) -> Result<Slots, Fail> {
    three_slots(rt, &[7, 0, 5], &[2, 90, 91], &[u64::MAX, 1, 2])
}

/// The other world of a viewer: only its own slot is the same.
pub(crate) fn other_world(rt: &HostRuntime, viewer: u8) -> Result<Slots, Fail> {
    match viewer {
        1 => three_slots(rt, &[7, 0, 5], &[4, 80, 17], &[31, 1, 9]),
        2 => three_slots(rt, &[6, 12, 5], &[2, 90, 91], &[31, 1, 9]),
        _ => three_slots(rt, &[6, 12, 5], &[4, 80, 17], &[u64::MAX, 1, 2]),
    }
}

// Whether a list over one slot of each party is explained to each viewer.
fn is_explained_to_all(rt: &HostRuntime, list: &List, seed: u64) -> Result<bool, Fail> {
    let one = first_world(rt)?;
    let first = is_explained(rt, list, 1, (&one, &other_world(rt, 1)?), seed)?;
    let second = is_explained(rt, list, 2, (&one, &other_world(rt, 2)?), seed)?;
    let third = is_explained(rt, list, 3, (&one, &other_world(rt, 3)?), seed)?;
    Ok(first && second && third)
}

fn shared(rt: &HostRuntime) -> Result<List, Fail> {
    let mut list = list_of(rt, &[3], &[3], &[3])?;
    share(&mut list, 1, 0)?;
    share(&mut list, 2, 0)?;
    share(&mut list, 3, 0)?;
    Ok(list)
}

#[test]
fn shares_are_explained(rt: HostRuntime) -> Result<(), Fail> {
    let list = shared(&rt)?;
    assert!(rt; is_explained_to_all(&rt, &list, 3)?);
    Ok(())
}

fn anded(rt: &HostRuntime) -> Result<List, Fail> {
    let mut list = shared(rt)?;
    push(&mut list, Step::And { left: 0, right: 1 })?;
    push(&mut list, Step::And { left: 3, right: 2 })?;
    Ok(list)
}

#[test]
fn an_and_is_explained(rt: HostRuntime) -> Result<(), Fail> {
    let list = anded(&rt)?;
    assert!(rt; is_explained_to_all(&rt, &list, 5)?);
    Ok(())
}

// A Reveal to a party of a register that all know, with another one beside it that isn't shown.
fn revealed_to(rt: &HostRuntime, to: u8) -> Result<List, Fail> {
    let mut list = shared(rt)?;
    let words = Listed::from_slice(rt.alloc(), &[4u64, 4, 6])?;
    push(&mut list, Step::Const { words })?;
    reveal(rt, &mut list, to, &[3, 0], &[0])?;
    Ok(list)
}

fn is_reveal_explained(rt: &HostRuntime, to: u8) -> Result<bool, Fail> {
    let list = revealed_to(rt, to)?;
    is_explained_to_all(rt, &list, 7)
}

fn are_reveals_explained(rt: &HostRuntime) -> Result<bool, Fail> {
    let first = is_reveal_explained(rt, 1)?;
    let second = is_reveal_explained(rt, 2)?;
    let third = is_reveal_explained(rt, 3)?;
    Ok(first && second && third)
}

#[test]
fn a_reveal_to_each_party_is_explained(rt: HostRuntime) -> Result<(), Fail> {
    assert!(rt; are_reveals_explained(&rt)?);
    Ok(())
}

// Two registers in an order of a party.
fn steered_by(rt: &HostRuntime, by: u8) -> Result<List, Fail> {
    let mut list = shared(rt)?;
    turn(rt, &mut list, by, 0)?;
    steer(rt, &mut list, by, 1, &[2, 0])?;
    Ok(list)
}

fn is_steer_explained(rt: &HostRuntime, by: u8) -> Result<bool, Fail> {
    let list = steered_by(rt, by)?;
    is_explained_to_all(rt, &list, 11)
}

fn are_steers_explained(rt: &HostRuntime) -> Result<bool, Fail> {
    let first = is_steer_explained(rt, 1)?;
    let second = is_steer_explained(rt, 2)?;
    let third = is_steer_explained(rt, 3)?;
    Ok(first && second && third)
}

#[test]
fn a_steer_by_each_party_is_explained(rt: HostRuntime) -> Result<(), Fail> {
    assert!(rt; are_steers_explained(&rt)?);
    Ok(())
}

// Registers 0 to 7: shares, a constant, ands, linear operations and an order of the first party.
fn push_moves(rt: &HostRuntime, list: &mut List) -> Result<(), Fail> {
    share(list, 1, 0)?;
    share(list, 2, 0)?;
    share(list, 3, 0)?;
    let words = Listed::from_slice(rt.alloc(), &[1u64, 2, 3])?;
    push(list, Step::Const { words })?;
    push(list, Step::And { left: 0, right: 1 })?;
    let op = LinOp::Xor(4, 2);
    push(list, Step::Lin { op })?;
    turn(rt, list, 1, 0)?;
    steer(rt, list, 1, 2, &[5, 0])
}

// What is opened: the first party's rows to the second one, words of the third to the first, a flag that is passed, and one
// that stops.
fn push_opened(rt: &HostRuntime, list: &mut List) -> Result<(), Fail> {
    reveal(rt, list, 2, &[7, 6], &[0])?;
    tell(list, 3, 1, 1)?;
    push(list, Step::Flag { party: 1, slot: 1 })?;
    push(list, Step::And { left: 8, right: 9 })?;
    push(list, Step::Flag { party: 3, slot: 1 })?;
    let sources = numbers(rt, &[0, 1])?;
    let places = numbers(rt, &[5, 0])?;
    let op = LinOp::Gather { sources, places };
    push(list, Step::Lin { op })?;
    share(list, 2, 0)?;
    tell(list, 1, 2, 0)
}

fn every_kind(rt: &HostRuntime) -> Result<List, Fail> {
    let mut list = list_of(rt, &[3, 1], &[3], &[3, 1])?;
    push_moves(rt, &mut list)?;
    push_opened(rt, &mut list)?;
    Ok(list)
}

// A world with these words of each party, a flag of 0 and one that stops.
fn world(rt: &HostRuntime, first: &[u64], second: &[u64], third: &[u64]) -> Result<Slots, Fail> {
    slots(rt, &[first, &[0]], &[second], &[third, &[5]])
}

fn is_every_kind_explained(rt: &HostRuntime, viewer: u8, seed: u64) -> Result<bool, Fail> {
    let one = world(rt, &[7, 8, 7], &[2, 90, 91], &[u64::MAX, 1, 2])?;
    let other = match viewer {
        1 => world(rt, &[7, 8, 7], &[4, 80, 17], &[30, 1, 9])?,
        2 => world(rt, &[8, 7, 7], &[2, 90, 91], &[30, 1, 9])?,
        _ => world(rt, &[6, 12, 5], &[4, 80, 17], &[u64::MAX, 1, 2])?,
    };
    let list = every_kind(rt)?;
    is_explained(rt, &list, viewer, (&one, &other), seed)
}

fn is_every_kind_explained_to_all(rt: &HostRuntime, seed: u64) -> Result<bool, Fail> {
    let first = is_every_kind_explained(rt, 1, seed)?;
    let second = is_every_kind_explained(rt, 2, seed)?;
    let third = is_every_kind_explained(rt, 3, seed)?;
    Ok(first && second && third)
}

#[test]
fn a_list_of_every_kind_is_explained(rt: HostRuntime) -> Result<(), Fail> {
    for seed in 20..23 {
        assert!(rt; is_every_kind_explained_to_all(&rt, seed)?);
    }
    Ok(())
}
