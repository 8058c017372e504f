//! What a list tells, and its schedule.

use crate::TestTask;
use crate::rule_tests::{List, numbers, push};
use listed::Listed;
use std::test::Fail;
use step_lists::{LinOp, Shape, Slots, Step, StepList, list_needs};
use tapes::{Need, Needs, Schedule};

// A list of no step, with 2 rows of party 1 and 1 of party 3.
fn no_step(rt: &HostRuntime) -> Result<List, Fail> {
    let first = vec![in rt.alloc(); 2u32]?;
    let third = vec![in rt.alloc(); 1u32]?;
    if first.len() > 9 || third.len() > 9 {
        Err("too many slots")?;
    }
    let second = Vec::new(rt.alloc());
    Ok(StepList::new(rt.alloc(), first, second, third))
}

fn push_words(rt: &HostRuntime, list: &mut List) -> Result<(), Fail> {
    let words = Listed::from_slice(rt.alloc(), &[7u64, 8])?;
    push(list, Step::Const { words })
}

fn push_gather(rt: &HostRuntime, list: &mut List) -> Result<(), Fail> {
    let sources = numbers(rt, &[0, 2])?;
    let places = numbers(rt, &[3, 0, 1])?;
    let op = LinOp::Gather { sources, places };
    push(list, Step::Lin { op })
}

fn push_reveal(rt: &HostRuntime, list: &mut List) -> Result<(), Fail> {
    let moved = numbers(rt, &[0, 1, 2])?;
    let shown = numbers(rt, &[2, 0])?;
    let to = 2;
    push(list, Step::Reveal { to, moved, shown })
}

fn push_order(rt: &HostRuntime, list: &mut List) -> Result<(), Fail> {
    let takes = numbers(rt, &[1])?;
    let gives = Listed::from_slice(rt.alloc(), &[Shape::OrderOf(2)])?;
    let order = Step::Work {
        party: 2,
        task: TestTask::Counts,
        takes,
        gives,
    };
    push(list, order)
}

fn push_steer(rt: &HostRuntime, list: &mut List) -> Result<(), Fail> {
    let moved = numbers(rt, &[4])?;
    let (by, slot) = (2, 2);
    push(list, Step::Steer { by, slot, moved })
}

fn push_tell_and_flag(list: &mut List) -> Result<(), Fail> {
    let tell = Step::Tell {
        source: 2,
        target: 3,
        slot: 0,
    };
    push(list, tell)?;
    push(list, Step::Flag { party: 3, slot: 0 })
}

// A list with every kind of step, on 2 rows.
fn every_kind(rt: &HostRuntime) -> Result<List, Fail> {
    let mut list = no_step(rt)?;
    push(&mut list, Step::Share { party: 1, slot: 0 })?;
    push_words(rt, &mut list)?;
    push(&mut list, Step::And { left: 0, right: 1 })?;
    push_gather(rt, &mut list)?;
    push_reveal(rt, &mut list)?;
    push_order(rt, &mut list)?;
    push_steer(rt, &mut list)?;
    push_tell_and_flag(&mut list)?;
    Ok(list)
}

fn length_of(list: &List, register: u32) -> Option<u32> {
    if register < list.registers() {
        Some(list.length(register))
    } else {
        None
    }
}

fn shape_of(list: &List, party: u8, slot: u32) -> Option<Shape> {
    if 1 <= party && party <= 3 && slot < list.slots(party) {
        Some(list.shape(party, slot))
    } else {
        None
    }
}

// The first register that has another length, if one has.
fn first_other_length(list: &List, lengths: &[u32]) -> Option<u32> {
    let mut register = 0;
    for length in lengths {
        if length_of(list, register) != Some(*length) {
            return Some(register);
        }
        register = register.saturating_add(1);
    }
    None
}

fn has_shapes(list: &List) -> bool {
    shape_of(list, 1, 0) == Some(Shape::Words(2))
        && shape_of(list, 2, 1) == Some(Shape::Words(2))
        && shape_of(list, 2, 2) == Some(Shape::OrderOf(2))
        && shape_of(list, 3, 1) == Some(Shape::Words(2))
}

#[test]
fn a_list_tells_its_layout(rt: HostRuntime) -> Result<(), Fail> {
    let list = every_kind(&rt)?;
    assert!(rt; list.steps().len() == 9 && list.registers() == 8);
    let lengths = [2, 2, 2, 3, 2, 2, 2, 2];
    assert_eq!(rt; first_other_length(&list, &lengths), None);
    assert_eq!(rt; [list.slots(1), list.slots(2), list.slots(3)], [1, 3, 2]);
    assert!(rt; has_shapes(&list));
    assert!(rt; list.first(3).as_slice() == [1u32].as_slice() && list.first(2).is_empty());
    Ok(())
}

// The needs of a tape, with words as `None`.
fn spelled(rt: &HostRuntime, needs: &Needs) -> Result<Vec<Option<u32>>, Fail> {
    let mut spelled = Vec::new(rt.alloc());
    for run in needs.runs() {
        for _ in 0..run.count {
            match run.need {
                Need::Word => spelled.push(None)?,
                Need::OrderOf(count) => spelled.push(Some(count))?,
            }
        }
    }
    Ok(spelled)
}

fn pattern(rt: &HostRuntime, runs: &[(usize, Option<u32>)]) -> Result<Vec<Option<u32>>, Fail> {
    let mut spelled = Vec::new(rt.alloc());
    for (words, order) in runs {
        for _ in 0..*words {
            spelled.push(None)?;
        }
        if order.is_some() {
            spelled.push(*order)?;
        }
    }
    Ok(spelled)
}

fn are_spelled(
    rt: &HostRuntime,
    needs: &Needs,
    runs: &[(usize, Option<u32>)],
) -> Result<bool, Fail> {
    let found = spelled(rt, needs)?;
    Ok(found.as_slice() == pattern(rt, runs)?.as_slice())
}

// Counted by hand: Share 2 words of tapes 1 and 2; And 2 of each; Reveal of 3 registers an order and 12 words of each;
// Steer by 2 an order of tape 3 and 2 words, 2 words of tape 2 and 4 of tape 1.
fn is_by_hand(rt: &HostRuntime, schedule: &Schedule) -> Result<bool, Fail> {
    let first = [(4, Some(2)), (12 + 4, None)];
    let second = [(4 + 6, Some(2)), (6 + 2, None)];
    let third = [(2 + 12, Some(2)), (0, Some(2)), (2, None)];
    Ok(
        are_spelled(rt, &schedule.first, &first)?
            && are_spelled(rt, &schedule.second, &second)?
            && are_spelled(rt, &schedule.third, &third)?,
    )
}

fn schedule_of_every_kind(rt: &HostRuntime) -> Result<Schedule, Fail> {
    let list = every_kind(rt)?;
    Ok(list_needs(rt.alloc(), &list)?)
}

#[test]
fn a_schedule_is_the_steps_needs_in_order(rt: HostRuntime) -> Result<(), Fail> {
    let schedule = schedule_of_every_kind(&rt)?;
    assert!(rt; is_by_hand(&rt, &schedule)?);
    Ok(())
}

// A slot of party 1 and two of party 3.
fn three_slots(rt: &HostRuntime) -> Result<Slots, Fail> {
    let mut first = Vec::new(rt.alloc());
    first.push(vec![in rt.alloc(); 1u64, 2]?)?;
    let mut third = Vec::new(rt.alloc());
    third.push(vec![in rt.alloc(); 3u64]?)?;
    third.push(Vec::new(rt.alloc()))?;
    Ok(Slots::new(first, Vec::new(rt.alloc()), third))
}

fn counts(slots: &Slots) -> [usize; 3] {
    [
        slots.party(1).len(),
        slots.party(2).len(),
        slots.party(3).len(),
    ]
}

#[test]
fn slots_are_kept_apart(rt: HostRuntime) -> Result<(), Fail> {
    let slots = three_slots(&rt)?;
    assert_eq!(rt; counts(&slots), [1, 0, 2]);
    let (first, second, third) = slots.apart();
    assert_eq!(rt; [first.len(), second.len(), third.len()], [1, 0, 2]);
    Ok(())
}
