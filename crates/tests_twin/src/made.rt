//! Lists, slots and tapes for the tests.

use listed::{Listed, Numbers};
use std::alloc::{AllocError, Global};
use std::test::Fail;
use step_lists::{ListFault, Shape, Slots, Step, StepList};
use tapes::{Order, Tape, Tapes};
use tests_steps::TestTask;

pub(crate) type List = StepList<TestTask>;

/// A list over first slots of these lengths.
pub(crate) fn list_of(
    rt: &HostRuntime,
    first: &[u32],
    second: &[u32],
    third: &[u32],
) -> Result<List, Fail> {
    if first.len() > 9 || second.len() > 9 || third.len() > 9 {
        Err("too many slots")?;
    }
    let first = Vec::from_slice(rt.alloc(), first)?;
    let second = Vec::from_slice(rt.alloc(), second)?;
    let third = Vec::from_slice(rt.alloc(), third)?;
    Ok(StepList::new(rt.alloc(), first, second, third))
}

pub(crate) fn push(list: &mut List, step: Step<TestTask>) -> Result<(), Fail> {
    match list.push(step) {
        Ok(()) => Ok(()),
        Err(ListFault::IllFormed(_)) => Err("ill-formed")?,
        Err(ListFault::Memory(_)) => Err("memory")?,
    }
}

pub(crate) fn numbers(rt: &HostRuntime, items: &[u32]) -> Result<Numbers, Fail> {
    Ok(Listed::from_slice(rt.alloc(), items)?)
}

pub(crate) fn share(list: &mut List, party: u8, slot: u32) -> Result<(), Fail> {
    push(list, Step::Share { party, slot })
}

pub(crate) fn reveal(
    rt: &HostRuntime,
    list: &mut List,
    to: u8,
    moved: &[u32],
    shown: &[u32],
) -> Result<(), Fail> {
    let moved = numbers(rt, moved)?;
    let shown = numbers(rt, shown)?;
    push(list, Step::Reveal { to, moved, shown })
}

pub(crate) fn steer(
    rt: &HostRuntime,
    list: &mut List,
    by: u8,
    slot: u32,
    moved: &[u32],
) -> Result<(), Fail> {
    let moved = numbers(rt, moved)?;
    push(list, Step::Steer { by, slot, moved })
}

pub(crate) fn tell(list: &mut List, source: u8, target: u8, slot: u32) -> Result<(), Fail> {
    let step = Step::Tell {
        source,
        target,
        slot,
    };
    push(list, step)
}

/// A task over one slot that gives one.
pub(crate) fn work(
    rt: &HostRuntime,
    list: &mut List,
    party: u8,
    task: TestTask,
    slot: u32,
    gives: Shape,
) -> Result<(), Fail> {
    let takes = numbers(rt, &[slot])?;
    let gives = Listed::from_slice(rt.alloc(), &[gives])?;
    let step = Step::Work {
        party,
        task,
        takes,
        gives,
    };
    push(list, step)
}

/// An order of three that a party makes of a slot of three words.
pub(crate) fn turn(rt: &HostRuntime, list: &mut List, party: u8, slot: u32) -> Result<(), Fail> {
    work(rt, list, party, TestTask::Turns, slot, Shape::OrderOf(3))
}

pub(crate) fn vectors(alloc: Global, slots: &[&[u64]]) -> Result<Vec<Vec<u64>>, AllocError> {
    let mut vectors = Vec::new(alloc);
    for words in slots {
        vectors.push(Vec::from_slice(alloc, words)?)?;
    }
    Ok(vectors)
}

/// First slots of each party.
pub(crate) fn slots(
    rt: &HostRuntime,
    first: &[&[u64]],
    second: &[&[u64]],
    third: &[&[u64]],
) -> Result<Slots, Fail> {
    let first = vectors(rt.alloc(), first)?;
    let second = vectors(rt.alloc(), second)?;
    let third = vectors(rt.alloc(), third)?;
    Ok(Slots::new(first, second, third))
}

fn order_of(alloc: Global, places: &[u32]) -> Result<Order, AllocError> {
    match Order::new(Vec::from_slice(alloc, places)?) {
        Ok(order) => Ok(order),
        Err(_) => Order::identity(alloc, 0),
    }
}

/// A tape of words.
pub(crate) fn words(rt: &HostRuntime, words: &[u64]) -> Result<Tape, Fail> {
    let mut tape = Tape::with_room(rt.alloc(), words.len())?;
    for word in words {
        tape.push_word(*word)?;
    }
    Ok(tape)
}

/// A tape of an order between words.
pub(crate) fn tape(
    rt: &HostRuntime,
    before: &[u64],
    order: &[u32],
    behind: &[u64],
) -> Result<Tape, Fail> {
    let mut tape = words(rt, before)?;
    tape.push_order(order_of(rt.alloc(), order)?)?;
    for word in behind {
        tape.push_word(*word)?;
    }
    Ok(tape)
}

/// Three tapes.
pub(crate) fn tapes(first: Tape, second: Tape, third: Tape) -> Tapes {
    Tapes {
        first,
        second,
        third,
    }
}
