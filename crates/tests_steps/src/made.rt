//! Lists, slots and tapes for the tests.

use crate::TestTask;
use crate::rule_tests::{List, numbers, push};
use listed::Listed;
use std::alloc::{AllocError, Global};
use std::test::Fail;
use step_lists::{LinOp, Shape, Slots, Step, StepList, list_needs};
use tapes::{Need, Needs, Order, Tape, Tapes};

/// A list over first slots of these lengths.
pub(crate) fn list_of(
    rt: &HostRuntime,
    first: &[u32],
    second: &[u32],
    third: &[u32],
) -> Result<List, Fail> {
    if first.len() > 9 || second.len() > 9 || third.len() > 9 {
        Err("too many slots")?;
    }
    let first = Vec::from_slice(rt.alloc(), first)?;
    let second = Vec::from_slice(rt.alloc(), second)?;
    let third = Vec::from_slice(rt.alloc(), third)?;
    Ok(StepList::new(rt.alloc(), first, second, third))
}

pub(crate) fn share(list: &mut List, party: u8, slot: u32) -> Result<(), Fail> {
    push(list, Step::Share { party, slot })
}

pub(crate) fn lin(list: &mut List, op: LinOp) -> Result<(), Fail> {
    push(list, Step::Lin { op })
}

pub(crate) fn reveal(
    rt: &HostRuntime,
    list: &mut List,
    to: u8,
    moved: &[u32],
    shown: &[u32],
) -> Result<(), Fail> {
    let moved = numbers(rt, moved)?;
    let shown = numbers(rt, shown)?;
    push(list, Step::Reveal { to, moved, shown })
}

pub(crate) fn steer(
    rt: &HostRuntime,
    list: &mut List,
    by: u8,
    slot: u32,
    moved: &[u32],
) -> Result<(), Fail> {
    let moved = numbers(rt, moved)?;
    push(list, Step::Steer { by, slot, moved })
}

pub(crate) fn tell(list: &mut List, source: u8, target: u8, slot: u32) -> Result<(), Fail> {
    let step = Step::Tell {
        source,
        target,
        slot,
    };
    push(list, step)
}

/// A task over one slot that gives one.
pub(crate) fn work(
    rt: &HostRuntime,
    list: &mut List,
    party: u8,
    task: TestTask,
    slot: u32,
    gives: Shape,
) -> Result<(), Fail> {
    let takes = numbers(rt, &[slot])?;
    let gives = Listed::from_slice(rt.alloc(), &[gives])?;
    let step = Step::Work {
        party,
        task,
        takes,
        gives,
    };
    push(list, step)
}

fn vectors(alloc: Global, slots: &[&[u64]]) -> Result<Vec<Vec<u64>>, AllocError> {
    let mut vectors = Vec::new(alloc);
    for words in slots {
        vectors.push(Vec::from_slice(alloc, words)?)?;
    }
    Ok(vectors)
}

/// First slots of each party.
pub(crate) fn slots(
    rt: &HostRuntime,
    first: &[&[u64]],
    second: &[&[u64]],
    third: &[&[u64]],
) -> Result<Slots, Fail> {
    let first = vectors(rt.alloc(), first)?;
    let second = vectors(rt.alloc(), second)?;
    let third = vectors(rt.alloc(), third)?;
    Ok(Slots::new(first, second, third))
}

fn order_of(alloc: Global, places: &[u32]) -> Result<Order, AllocError> {
    match Order::new(Vec::from_slice(alloc, places)?) {
        Ok(order) => Ok(order),
        Err(_) => Order::identity(alloc, 0),
    }
}

fn push_words(tape: &mut Tape, words: &[u64]) -> Result<(), AllocError> {
    for word in words {
        tape.push_word(*word)?;
    }
    Ok(())
}

/// A tape of an order between words.
pub(crate) fn tape(
    rt: &HostRuntime,
    before: &[u64],
    order: &[u32],
    behind: &[u64],
) -> Result<Tape, Fail> {
    let mut tape = Tape::with_room(rt.alloc(), before.len())?;
    push_words(&mut tape, before)?;
    tape.push_order(order_of(rt.alloc(), order)?)?;
    push_words(&mut tape, behind)?;
    Ok(tape)
}

fn word_tape(alloc: Global, words: &[u64]) -> Result<Tape, AllocError> {
    let mut tape = Tape::with_room(alloc, words.len())?;
    push_words(&mut tape, words)?;
    Ok(tape)
}

/// Tapes of words alone.
pub(crate) fn words(
    rt: &HostRuntime,
    first: &[u64],
    second: &[u64],
    third: &[u64],
) -> Result<Tapes, Fail> {
    let first = word_tape(rt.alloc(), first)?;
    let second = word_tape(rt.alloc(), second)?;
    let third = word_tape(rt.alloc(), third)?;
    Ok(Tapes {
        first,
        second,
        third,
    })
}

// A draw that meets a need: a word unlike those before it, or an order.
fn push_draw(alloc: Global, tape: &mut Tape, need: Need, order: &[u32]) -> Result<(), AllocError> {
    match need {
        Need::Word => {
            let word = (tape.len() as u64).wrapping_mul(0x9E37_79B9_7F4A_7C15);
            tape.push_word(word)
        }
        Need::OrderOf(_) => tape.push_order(order_of(alloc, order)?),
    }
}

fn filled(alloc: Global, needs: &Needs, order: &[u32]) -> Result<Tape, AllocError> {
    let mut tape = Tape::with_room(alloc, 0)?;
    for run in needs.runs() {
        for _ in 0..run.count {
            push_draw(alloc, &mut tape, run.need, order)?;
        }
    }
    Ok(tape)
}

/// Three tapes that meet a list's schedule, with this order wherever one is needed.
pub(crate) fn filled_for(rt: &HostRuntime, list: &List, order: &[u32]) -> Result<Tapes, Fail> {
    let schedule = list_needs(rt.alloc(), list)?;
    let first = filled(rt.alloc(), &schedule.first, order)?;
    let second = filled(rt.alloc(), &schedule.second, order)?;
    let third = filled(rt.alloc(), &schedule.third, order)?;
    Ok(Tapes {
        first,
        second,
        third,
    })
}
