use lanes::{Party, Three, ceil_log2, pick_words, shared_and, shared_ands, xor_into, xor_words};
use listed::{Listed, Numbers, Words};
use std::alloc::{AllocError, Global};
use std::test::Fail;

// The parties' shares of 12 and 10, each beside the next party's.
const PARTS: &[(u64, u64, u64, u64)] = &[(1, 6, 3, 5), (6, 11, 5, 12), (11, 1, 12, 3)];

fn opened(parts: &[(u64, u64, u64, u64)]) -> u64 {
    let mut opened = 0;
    for (own, next, other_own, other_next) in parts {
        opened ^= shared_and(*own, *next, *other_own, *other_next);
    }
    opened
}

// What the three parts of the ands open to, lane by lane on one list.
fn opened_lanes(alloc: Global) -> Result<u64, AllocError> {
    let left: [u64; 3] = [1, 6, 11];
    let right: [u64; 3] = [3, 5, 12];
    let parts = shared_ands(alloc, &left, &[6, 11, 1], &right, &[5, 12, 3])?;
    let mut opened = 0;
    for part in parts.as_slice() {
        opened ^= *part;
    }
    Ok(if parts.len() == 3 { opened } else { 0 })
}

// Worked out by hand.
#[test]
fn parts_of_a_shared_and_open_to_the_and(rt: HostRuntime) -> Result<(), Fail> {
    assert_eq!(rt; opened(PARTS), 8);
    assert_eq!(rt; opened_lanes(rt.alloc())?, 8);
    Ok(())
}

fn xors(alloc: Global) -> Result<bool, AllocError> {
    let words = xor_words(alloc, &[0xff, 5, 0], &[0x0f, 5, u64::MAX])?;
    Ok(words.as_slice() == [0xf0, 0, u64::MAX].as_slice())
}

fn xors_into() -> bool {
    let mut target: [u64; 2] = [6, 9];
    xor_into(&mut target, &[3, 9]);
    target == [5, 0]
}

fn picks(alloc: Global) -> Result<bool, AllocError> {
    let picked = pick_words(alloc, &[7, 8, 9], &[2, 0, 2, 1])?;
    Ok(picked.as_slice() == [9, 7, 9, 8].as_slice())
}

#[test]
fn lists_are_xored_and_picked(rt: HostRuntime) -> Result<(), Fail> {
    assert!(rt; xors(rt.alloc())?);
    assert!(rt; xors_into());
    assert!(rt; picks(rt.alloc())?);
    Ok(())
}

// A list of two words, which began as an empty one.
fn two_words(alloc: Global) -> Result<Words, AllocError> {
    let mut words: Words = Listed::with_capacity(alloc, 2)?;
    if words.is_empty() {
        words.push(4)?;
        words.push(5)?;
    }
    Ok(words)
}

// Whether a word is set in the place of the first of two.
fn sets_the_first(words: &mut Words) -> bool {
    if words.len() != 2 {
        return false;
    }
    words.set(0, 6);
    words.get(0) == Some(&6) && words.get(2).is_none()
}

fn is_copied(alloc: Global, words: &Words) -> Result<bool, AllocError> {
    let copy = words.copy(alloc)?;
    Ok(copy.as_slice() == [6, 5].as_slice() && Words::from_vec(copy.into_vec()).len() == 2)
}

fn keeps_a_slice(alloc: Global) -> Result<bool, AllocError> {
    let numbers: Numbers = Listed::from_slice(alloc, &[1u32, 2])?;
    Ok(numbers.into_vec().as_slice() == [1, 2].as_slice() && Words::new(alloc).is_empty())
}

#[test]
fn lists_keep_their_items(rt: HostRuntime) -> Result<(), Fail> {
    let mut words = two_words(rt.alloc())?;
    assert!(rt; sets_the_first(&mut words));
    assert!(rt; is_copied(rt.alloc(), &words)?);
    assert!(rt; keeps_a_slice(rt.alloc())?);
    Ok(())
}

// The party of a number, the next one and the one before.
fn round(number: u8) -> Option<(u8, u8, u8)> {
    let party = Party::of_number(number)?;
    Some((
        party.number(),
        party.next().number(),
        party.before().number(),
    ))
}

fn puts_in_place() -> bool {
    let mut ages = Three {
        first: 30u32,
        second: 40,
        third: 50,
    };
    ages.put(Party::Second, 41);
    *ages.at(Party::First) == 30 && *ages.at(Party::Second) == 41 && *ages.at(Party::Third) == 50
}

#[test]
fn parties_go_round(rt: HostRuntime) {
    assert_eq!(rt; round(0), None);
    assert_eq!(rt; round(1), Some((1, 2, 3)));
    assert_eq!(rt; round(2), Some((2, 3, 1)));
    assert_eq!(rt; round(3), Some((3, 1, 2)));
    assert_eq!(rt; round(4), None);
    assert!(rt; puts_in_place());
}

#[test]
fn logarithms_are_rounded_up(rt: HostRuntime) {
    for (number, log) in [(0, 0), (1, 0), (4, 2), (5, 3), (u64::MAX, 64)] {
        assert_eq!(rt; ceil_log2(number), log);
    }
}
