//! For each rule of a well-formed list one step that breaks it and one that just keeps it.

use crate::TestTask;
use listed::{Listed, Numbers};
use std::test::Fail;
use step_lists::{LinOp, ListFault, Shape, Step, StepList};

pub(crate) type List = StepList<TestTask>;

// A list of no step: two slots of party 1 with 3 words and 1, one of party 2 with 3, none of party 3.
fn no_step(rt: &HostRuntime) -> Result<List, Fail> {
    let first = vec![in rt.alloc(); 3u32, 1]?;
    let second = vec![in rt.alloc(); 3u32]?;
    if first.len() > 9 || second.len() > 9 {
        Err("too many slots")?;
    }
    let third = Vec::new(rt.alloc());
    Ok(StepList::new(rt.alloc(), first, second, third))
}

pub(crate) fn push(list: &mut List, step: Step<TestTask>) -> Result<(), Fail> {
    if may_come(list, step)? {
        Ok(())
    } else {
        Err("ill-formed")?
    }
}

fn push_order(rt: &HostRuntime, list: &mut List) -> Result<(), Fail> {
    let takes = numbers(rt, &[0])?;
    let gives = Listed::from_slice(rt.alloc(), &[Shape::OrderOf(3)])?;
    let order = Step::Work {
        party: 1,
        task: TestTask::Counts,
        takes,
        gives,
    };
    push(list, order)
}

// Each slot shared, as registers of 3, 1 and 3 words; an order of 3 in slot 2 of party 1.
fn list(rt: &HostRuntime) -> Result<List, Fail> {
    let mut list = no_step(rt)?;
    push(&mut list, Step::Share { party: 1, slot: 0 })?;
    push(&mut list, Step::Share { party: 1, slot: 1 })?;
    push(&mut list, Step::Share { party: 2, slot: 0 })?;
    push_order(rt, &mut list)?;
    Ok(list)
}

pub(crate) fn numbers(rt: &HostRuntime, items: &[u32]) -> Result<Numbers, Fail> {
    Ok(Listed::from_slice(rt.alloc(), items)?)
}

// Whether the list takes the step.
fn may_come(list: &mut List, step: Step<TestTask>) -> Result<bool, Fail> {
    let pushed = list.push(step);
    if matches!(&pushed, Err(ListFault::Memory(_))) {
        Err("memory")?;
    }
    Ok(pushed.is_ok())
}

// The step, on a list of its own.
fn comes(rt: &HostRuntime, step: Step<TestTask>) -> Result<bool, Fail> {
    may_come(&mut list(rt)?, step)
}

fn lin(rt: &HostRuntime, op: LinOp) -> Result<bool, Fail> {
    comes(rt, Step::Lin { op })
}

fn reveal(rt: &HostRuntime, to: u8, moved: &[u32], shown: &[u32]) -> Result<bool, Fail> {
    let moved = numbers(rt, moved)?;
    let shown = numbers(rt, shown)?;
    comes(rt, Step::Reveal { to, moved, shown })
}

fn steer(rt: &HostRuntime, by: u8, slot: u32, moved: &[u32]) -> Result<bool, Fail> {
    let moved = numbers(rt, moved)?;
    comes(rt, Step::Steer { by, slot, moved })
}

fn work(rt: &HostRuntime, party: u8, takes: &[u32], gives: &[Shape]) -> Result<bool, Fail> {
    let takes = numbers(rt, takes)?;
    let gives = Listed::from_slice(rt.alloc(), gives)?;
    let step = Step::Work {
        party,
        task: TestTask::Doubles,
        takes,
        gives,
    };
    comes(rt, step)
}

// Whether an and and an xor of two registers come.
fn joins(rt: &HostRuntime, left: u32, right: u32) -> Result<(bool, bool), Fail> {
    let and = comes(rt, Step::And { left, right })?;
    Ok((and, lin(rt, LinOp::Xor(left, right))?))
}

#[test]
fn an_and_takes_registers_of_one_length(rt: HostRuntime) -> Result<(), Fail> {
    for (left, right, fine) in [
        (0, 2, true),
        (2, 0, true),
        (0, 1, false),
        (0, 3, false),
        (3, 0, false),
    ] {
        assert_eq!(rt; joins(&rt, left, right)?, (fine, fine), "{left} {right}");
    }
    Ok(())
}

// Whether a register may be shifted so far to the left and to the right.
fn shifts(rt: &HostRuntime, register: u32, by: u32) -> Result<(bool, bool), Fail> {
    let left = lin(rt, LinOp::Left(register, by))?;
    Ok((left, lin(rt, LinOp::Right(register, by))?))
}

// Whether the other operations of one register come.
fn changes(rt: &HostRuntime, register: u32) -> Result<(bool, bool, bool), Fail> {
    let not = lin(rt, LinOp::Not(register))?;
    let mask = lin(rt, LinOp::Mask(register, 0))?;
    Ok((not, mask, lin(rt, LinOp::Spread(register))?))
}

#[test]
fn shifts_are_at_most_63(rt: HostRuntime) -> Result<(), Fail> {
    for (register, by, fine) in [(0, 0, true), (0, 63, true), (0, 64, false), (3, 63, false)] {
        assert_eq!(rt; shifts(&rt, register, by)?, (fine, fine), "{by}");
    }
    assert_eq!(rt; changes(&rt, 2)?, (true, true, true));
    assert_eq!(rt; changes(&rt, 3)?, (false, false, false));
    Ok(())
}

fn gather(rt: &HostRuntime, sources: &[u32], places: &[u32]) -> Result<bool, Fail> {
    let sources = numbers(rt, sources)?;
    let places = numbers(rt, places)?;
    lin(rt, LinOp::Gather { sources, places })
}

#[test]
fn gathered_places_are_in_the_sources(rt: HostRuntime) -> Result<(), Fail> {
    let cases: [(&[u32], &[u32], bool); 8] = [
        (&[0], &[2, 0, 2, 2], true),
        (&[0], &[3], false),
        (&[0, 1], &[3], true),
        (&[0, 1], &[4], false),
        (&[0, 0], &[5], true),
        (&[3], &[0], false),
        (&[], &[], true),
        (&[], &[0], false),
    ];
    for (sources, places, fine) in cases {
        assert_eq!(rt; gather(&rt, sources, places)?, fine, "{places:?}");
    }
    Ok(())
}

#[test]
fn parties_are_1_to_3_and_slots_were_made(rt: HostRuntime) -> Result<(), Fail> {
    for (party, slot, fine) in [
        (1, 1, true),
        (1, 2, false),
        (1, 3, false),
        (2, 0, true),
        (2, 1, false),
        (3, 0, false),
        (0, 0, false),
        (4, 0, false),
    ] {
        assert_eq!(rt;
            comes(&rt, Step::Share { party, slot })?,
            fine,
            "{party} {slot}"
        );
    }
    Ok(())
}

fn tell(rt: &HostRuntime, source: u8, target: u8, slot: u32) -> Result<bool, Fail> {
    let step = Step::Tell {
        source,
        target,
        slot,
    };
    comes(rt, step)
}

#[test]
fn a_tell_goes_to_another_party(rt: HostRuntime) -> Result<(), Fail> {
    for (source, target, slot, fine) in [
        (1, 2, 0, true),
        (1, 3, 1, true),
        (1, 1, 0, false),
        (1, 0, 0, false),
        (1, 4, 0, false),
        (1, 2, 2, false),
        (2, 3, 1, false),
        (3, 1, 0, false),
    ] {
        assert_eq!(rt; tell(&rt, source, target, slot)?, fine, "{source} {target}");
    }
    Ok(())
}

#[test]
fn a_reveal_shows_places_of_what_it_moves(rt: HostRuntime) -> Result<(), Fail> {
    let cases: [(u8, &[u32], &[u32], bool); 9] = [
        (3, &[0], &[0], true),
        (1, &[2, 0], &[1], true),
        (1, &[2], &[2], false),
        (1, &[0], &[1], false),
        (2, &[0, 1], &[0], false),
        (2, &[], &[], false),
        (2, &[0], &[], false),
        (2, &[3], &[0], false),
        (0, &[0], &[0], false),
    ];
    for (to, moved, shown, fine) in cases {
        assert_eq!(rt; reveal(&rt, to, moved, shown)?, fine, "{moved:?}");
    }
    Ok(())
}

#[test]
fn a_steer_goes_by_an_order_of_its_rows(rt: HostRuntime) -> Result<(), Fail> {
    let cases: [(u8, u32, &[u32], bool); 7] = [
        (1, 2, &[0, 2], true),
        (1, 2, &[1], false),
        (1, 2, &[0, 1], false),
        (1, 2, &[], false),
        (1, 0, &[0], false),
        (1, 3, &[0], false),
        (2, 2, &[0], false),
    ];
    for (by, slot, moved, fine) in cases {
        assert_eq!(rt; steer(&rt, by, slot, moved)?, fine, "{moved:?}");
    }
    Ok(())
}

#[test]
fn a_task_fits_its_shapes(rt: HostRuntime) -> Result<(), Fail> {
    let cases: [(u8, &[u32], &[Shape], bool); 7] = [
        (1, &[0], &[Shape::Words(3)], true),
        (1, &[1], &[Shape::Words(1)], true),
        (1, &[0], &[Shape::Words(1)], false),
        (1, &[0], &[Shape::OrderOf(3)], false),
        (1, &[0, 1], &[Shape::Words(3)], false),
        (1, &[3], &[Shape::Words(3)], false),
        (0, &[0], &[Shape::Words(3)], false),
    ];
    for (party, takes, gives, fine) in cases {
        assert_eq!(rt; work(&rt, party, takes, gives)?, fine, "{gives:?}");
    }
    Ok(())
}

#[test]
fn a_flag_has_one_word(rt: HostRuntime) -> Result<(), Fail> {
    for (party, slot, fine) in [
        (1, 1, true),
        (1, 0, false),
        (1, 2, false),
        (1, 3, false),
        (4, 1, false),
    ] {
        assert_eq!(rt;
            comes(&rt, Step::Flag { party, slot })?,
            fine,
            "{party} {slot}"
        );
    }
    Ok(())
}
