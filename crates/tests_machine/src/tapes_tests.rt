use rand::SeedableRng;
use rand_chacha::ChaCha20Rng;
use rand_core::utils::NextWord;
use std::alloc::{AllocError, Global};
use std::test::Fail;
use tapes::{
    LentDraw, Need, Needs, Order, Schedule, Tape, TapeFault, Tapes, make_tapes, read_tape,
    write_tape,
};

// The word of a draw, and the numbers of one.
pub(crate) fn word_at(tape: &Tape, index: usize) -> Option<u64> {
    match tape.draw(index) {
        Some(LentDraw::Word(word)) => Some(word),
        _ => None,
    }
}

pub(crate) fn places_at(tape: &Tape, index: usize) -> Option<&[u32]> {
    match tape.draw(index) {
        Some(LentDraw::Order(order)) => Some(order.places()),
        _ => None,
    }
}

pub(crate) fn needs_of(rt: &HostRuntime, list: &[Need]) -> Result<Needs, Fail> {
    let mut needs = Needs::new(rt.alloc());
    for need in list {
        needs.push(*need)?;
    }
    Ok(needs)
}

// Whether a list becomes an order, and whether what it became or what came back has the same numbers.
fn taken(alloc: Global, numbers: &[u32]) -> Result<(bool, bool), AllocError> {
    match Order::new(numbers.to_vec(alloc)?) {
        Ok(order) => Ok((true, order.places() == numbers)),
        Err(back) => Ok((false, back.as_slice() == numbers)),
    }
}

#[test]
fn lists_that_are_no_order_come_back(rt: HostRuntime) -> Result<(), Fail> {
    let cases: [(&[u32], bool); 7] = [
        (&[], true),
        (&[0], true),
        (&[2, 0, 1], true),
        (&[1], false),
        (&[0, 0], false),
        (&[0, 3, 1], false),
        (&[1, 2, 1], false),
    ];
    for (numbers, is_order) in cases {
        assert_eq!(rt;
            taken(rt.alloc(), numbers)?,
            (is_order, true),
            "{numbers:?}"
        );
    }
    Ok(())
}

// The bytes of a word 5 and the order 2 0 1.
const BYTES: [u8; 20] = [0, 0, 0, 0, 0, 0, 0, 5, 0, 0, 0, 2, 0, 0, 0, 0, 0, 0, 0, 1];

fn has_draws(tape: &Tape) -> bool {
    tape.len() == 2
        && word_at(tape, 0) == Some(5)
        && places_at(tape, 1) == Some([2, 0, 1].as_slice())
        && tape.draw(2).is_none()
}

// Whether the draws come in turn, each only as what it is.
fn gives_draws(tape: &Tape) -> bool {
    let mut cursor = tape.cursor();
    cursor.next_order().is_none()
        && cursor.next_word() == Some(5)
        && cursor.next_word().is_none()
        && cursor.next_order().is_some()
        && cursor.next_word().is_none()
}

fn is_written_as(alloc: Global, tape: &Tape, bytes: &[u8]) -> Result<bool, AllocError> {
    Ok(write_tape(alloc, tape)?.as_slice() == bytes)
}

// Whether each change of the bytes has its fault.
fn tells_faults(alloc: Global, needs: &Needs) -> bool {
    let longer = [
        0, 0, 0, 0, 0, 0, 0, 5, 0, 0, 0, 2, 0, 0, 0, 0, 0, 0, 0, 1, 0,
    ];
    let repeated = [0, 0, 0, 0, 0, 0, 0, 5, 0, 0, 0, 2, 0, 0, 0, 0, 0, 0, 0, 0];
    let nested = [0, 0, 0, 0, 0, 0, 0, 5, 0, 0, 0, 3, 0, 0, 0, 0, 0, 0, 0, 1];
    let cases: [(&[u8], TapeFault); 6] = [
        (&BYTES[..19], TapeFault::Short { at: 1 }),
        (&BYTES[..8], TapeFault::Short { at: 1 }),
        (&BYTES[..7], TapeFault::Short { at: 0 }),
        (&longer, TapeFault::Long { at: 2 }),
        (&repeated, TapeFault::NotOrder { at: 1 }),
        (&nested, TapeFault::NotOrder { at: 1 }),
    ];
    for (changed, fault) in cases {
        if read_tape(alloc, changed, needs).err() != Some(fault) {
            return false;
        }
    }
    true
}

fn is_right(alloc: Global, tape: &Tape) -> Result<bool, AllocError> {
    Ok(has_draws(tape) && gives_draws(tape) && is_written_as(alloc, tape, &BYTES)?)
}

#[test]
fn tapes_are_read_and_written(rt: HostRuntime) -> Result<(), Fail> {
    let needs = needs_of(&rt, &[Need::Word, Need::OrderOf(3)])?;
    let tape = read_tape(rt.alloc(), &BYTES, &needs)?;
    assert!(rt; is_right(rt.alloc(), &tape)?);
    assert!(rt; is_right(rt.alloc(), &tape.copy(rt.alloc())?)?);
    assert!(rt; tells_faults(rt.alloc(), &needs));
    Ok(())
}

// The first 16 bytes of the published key stream of the zero key are
// 76 b8 e0 ad a0 f1 3d 90 40 5d 6a e5 53 86 bd 28, words of 32 bits low byte first.
#[test]
fn words_of_the_zero_key_are_the_published_ones(rt: HostRuntime) {
    let mut words = ChaCha20Rng::from_seed([0; 32]);
    for word in [0xade0_b876u32, 0x903d_f1a0, 0xe56a_5d40, 0x28bd_8653] {
        assert_eq!(rt; words.next_word(), word);
    }
}

fn three(rt: &HostRuntime, needs: &[Need]) -> Result<Schedule, Fail> {
    let first = needs_of(rt, needs)?;
    let second = needs_of(rt, needs)?;
    let third = needs_of(rt, needs)?;
    Ok(Schedule {
        first,
        second,
        third,
    })
}

// Whether a tape has a word, an order and a word, and these.
fn has_three(tape: &Tape, word: u64, places: &[u32], last: u64) -> bool {
    tape.len() == 3
        && word_at(tape, 0) == Some(word)
        && places_at(tape, 1) == Some(places)
        && word_at(tape, 2) == Some(last)
}

fn are_the_scripts(tapes: &Tapes) -> bool {
    has_three(
        &tapes.first,
        0x8e6c_ab0c_9a6e_36ce,
        &[0, 2, 1],
        0xc9d4_478b_0a21_3b9d,
    ) && has_three(
        &tapes.second,
        0xd0a2_3af9_bfb0_dc81,
        &[0, 2, 1],
        0xe0d1_a9e4_ddd8_ce37,
    ) && has_three(
        &tapes.third,
        0x837c_24c6_d05c_2aa6,
        &[2, 0, 1],
        0xc613_8b62_5029_848c,
    )
}

// What `bench/tape_values.py 7` prints, which knows nothing of this crate.
#[test]
fn tapes_of_a_seed_are_the_scripts(rt: HostRuntime) -> Result<(), Fail> {
    let schedule = three(&rt, &[Need::Word, Need::OrderOf(3), Need::Word])?;
    let tapes = make_tapes(rt.alloc(), &schedule, 7)?;
    assert!(rt; are_the_scripts(&tapes));
    Ok(())
}

// Whether two tapes have the same bytes.
fn have_equal_bytes(alloc: Global, tape: &Tape, other: &Tape) -> Result<bool, AllocError> {
    let bytes = write_tape(alloc, tape)?;
    let others = write_tape(alloc, other)?;
    Ok(bytes.as_slice() == others.as_slice())
}

fn are_equal(alloc: Global, tapes: &Tapes, others: &Tapes) -> Result<bool, AllocError> {
    Ok(
        have_equal_bytes(alloc, &tapes.first, &others.first)?
            && have_equal_bytes(alloc, &tapes.second, &others.second)?
            && have_equal_bytes(alloc, &tapes.third, &others.third)?,
    )
}

// Whether the first draw of a tape is another order than the identity.
fn moves(tape: &Tape) -> bool {
    places_at(tape, 0) != Some([0, 1, 2, 3, 4, 5, 6, 7].as_slice())
}

fn any_moves(tapes: &Tapes) -> bool {
    moves(&tapes.first) || moves(&tapes.second) || moves(&tapes.third)
}

fn is_made_again(
    alloc: Global,
    schedule: &Schedule,
    seed: u64,
    tapes: &Tapes,
) -> Result<bool, AllocError> {
    let again = make_tapes(alloc, schedule, seed)?;
    are_equal(alloc, tapes, &again)
}

// Whether a seed gives the same tapes again, and whether one of them begins with another order than the identity.
fn made_again(alloc: Global, schedule: &Schedule, seed: u64) -> Result<(bool, bool), AllocError> {
    let once = make_tapes(alloc, schedule, seed)?;
    let same = is_made_again(alloc, schedule, seed, &once)?;
    Ok((same, any_moves(&once)))
}

#[test]
fn a_seed_gives_the_same_tapes_again(rt: HostRuntime) -> Result<(), Fail> {
    let schedule = three(&rt, &[Need::OrderOf(8), Need::OrderOf(8)])?;
    let mut any_moved = false;
    for seed in 1..21 {
        let (same, moved) = made_again(rt.alloc(), &schedule, seed)?;
        assert!(rt; same, "seed {seed}");
        any_moved = any_moved || moved;
    }
    assert!(rt; any_moved);
    Ok(())
}

pub(crate) fn order_of(rt: &HostRuntime, numbers: &[u32]) -> Result<Order, Fail> {
    match Order::new(numbers.to_vec(rt.alloc())?) {
        Ok(order) => Ok(order),
        Err(_) => Err("no order")?,
    }
}
