//! A core is made, and tells what it wants, what is left and its slots: on the list of one Share of a word by party 1.

use clear_tasks::ClearTask;
use party_core::{Core, CoreFault, Outbox, Want};
use std::alloc::{AllocError, Global};
use std::test::Fail;
use step_lists::{ListFault, Step, StepList};
use tapes::Tape;

fn one_share(rt: &HostRuntime) -> Result<StepList<ClearTask>, Fail> {
    let first = Vec::from_slice(rt.alloc(), &[1u32])?;
    let (second, third) = (Vec::new(rt.alloc()), Vec::new(rt.alloc()));
    let mut list = StepList::new(rt.alloc(), first, second, third);
    match list.push(Step::Share { party: 1, slot: 0 }) {
        Ok(()) => Ok(list),
        Err(ListFault::IllFormed(_)) => Err("ill-formed")?,
        Err(ListFault::Memory(_)) => Err("memory")?,
    }
}

fn tape_of(alloc: Global, words: &[u64]) -> Result<Tape, AllocError> {
    let mut tape = Tape::with_room(alloc, words.len())?;
    for word in words {
        tape.push_word(*word)?;
    }
    Ok(tape)
}

fn slots_of(alloc: Global, slots: &[&[u64]]) -> Result<Vec<Vec<u64>>, AllocError> {
    let mut vectors = Vec::new(alloc);
    for words in slots {
        vectors.push(Vec::from_slice(alloc, words)?)?;
    }
    Ok(vectors)
}

#[test]
fn the_party_that_shares_has_a_turn(rt: HostRuntime) -> Result<(), Fail> {
    let list = one_share(&rt)?;
    let slots = slots_of(rt.alloc(), &[&[5]])?;
    let (own, following) = (tape_of(rt.alloc(), &[3])?, tape_of(rt.alloc(), &[9])?);
    let core = Core::new(&list, 1, slots, own, following)?;
    assert!(rt; core.want() == Want::Turn && core.left(2) == 0 && core.left(3) == 0);
    assert!(rt; core.slots().len() == 1 && core.received(2).is_empty());
    Ok(())
}

#[test]
fn a_turn_sends_the_shared_word_to_both_others(rt: HostRuntime) -> Result<(), Fail> {
    let list = one_share(&rt)?;
    let slots = slots_of(rt.alloc(), &[&[5]])?;
    let (own, following) = (tape_of(rt.alloc(), &[3])?, tape_of(rt.alloc(), &[9])?);
    let mut core = Core::new(&list, 1, slots, own, following)?;
    let mut outbox = Outbox {
        next: Vec::new(rt.alloc()),
        previous: Vec::new(rt.alloc()),
    };
    if core.want() == Want::Turn {
        core.turn(&mut outbox)?;
    }
    assert!(rt; core.want() == Want::Done);
    assert!(rt;
        outbox.next.as_slice() == [15].as_slice() && outbox.previous.as_slice() == [15].as_slice()
    );
    Ok(())
}

#[test]
fn the_word_that_is_waited_for_is_taken(rt: HostRuntime) -> Result<(), Fail> {
    let list = one_share(&rt)?;
    let slots = slots_of(rt.alloc(), &[])?;
    let (own, following) = (tape_of(rt.alloc(), &[])?, tape_of(rt.alloc(), &[3])?);
    let mut core = Core::new(&list, 3, slots, own, following)?;
    let word = Want::Words {
        source: 1,
        count: 1,
    };
    if core.want() == word {
        core.take(&[15])?;
    }
    assert!(rt; core.want() == Want::Done && core.received(1).as_slice() == [15].as_slice());
    Ok(())
}

#[test]
fn the_party_before_waits_for_a_word(rt: HostRuntime) -> Result<(), Fail> {
    let list = one_share(&rt)?;
    let slots = slots_of(rt.alloc(), &[])?;
    let (own, following) = (tape_of(rt.alloc(), &[])?, tape_of(rt.alloc(), &[3])?);
    let core = Core::new(&list, 3, slots, own, following)?;
    let word = Want::Words {
        source: 1,
        count: 1,
    };
    assert!(rt; core.want() == word && core.left(1) == 1 && core.left(2) == 0);
    Ok(())
}

// Why no core of party 1 is made of these slots and tapes, if none is.
fn fault_of(
    rt: &HostRuntime,
    slots: &[&[u64]],
    own: &[u64],
    following: &[u64],
) -> Result<Option<CoreFault>, Fail> {
    let list = one_share(rt)?;
    let slots = slots_of(rt.alloc(), slots)?;
    let (own, following) = (tape_of(rt.alloc(), own)?, tape_of(rt.alloc(), following)?);
    match Core::new(&list, 1, slots, own, following) {
        Ok(_) => Ok(None),
        Err(fault) => Ok(Some(fault)),
    }
}

#[test]
fn slots_and_then_tapes_have_to_fit(rt: HostRuntime) -> Result<(), Fail> {
    let slot = |slot| Some(CoreFault::SlotLength { slot });
    let unfit = |tape, draw| Some(CoreFault::Unfit { tape, draw });
    assert!(rt; fault_of(&rt, &[&[5]], &[3], &[9])? == None);
    assert!(rt; fault_of(&rt, &[], &[], &[9])? == slot(0));
    assert!(rt; fault_of(&rt, &[&[5, 6]], &[3], &[9])? == slot(0));
    assert!(rt; fault_of(&rt, &[&[5], &[]], &[3], &[9])? == slot(1));
    assert!(rt; fault_of(&rt, &[&[5]], &[], &[])? == unfit(1, 0));
    assert!(rt; fault_of(&rt, &[&[5]], &[3], &[9, 1])? == unfit(2, 1));
    Ok(())
}
