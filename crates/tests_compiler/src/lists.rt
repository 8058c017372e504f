//! Lists of steps, and their runs.

use clear_tasks::ClearTask;
use joint_machine::{JointRun, joint_run};
use listed::{Listed, Numbers};
use std::test::Fail;
use step_lists::{ListFault, Slots, Step, StepList, list_needs};
use tapes::make_tapes;

pub(crate) type List = StepList<ClearTask>;

pub(crate) fn numbers(rt: &HostRuntime, items: &[u32]) -> Result<Numbers, Fail> {
    Ok(Listed::from_slice(rt.alloc(), items)?)
}

pub(crate) fn push(list: &mut List, step: Step<ClearTask>) -> Result<(), Fail> {
    match list.push(step) {
        Ok(()) => Ok(()),
        Err(ListFault::IllFormed(_)) => Err("ill-formed")?,
        Err(ListFault::Memory(_)) => Err("memory")?,
    }
}

// A list over first slots of these lengths.
pub(crate) fn list_of(rt: &HostRuntime, first: &[u32], second: &[u32]) -> Result<List, Fail> {
    let first = Vec::from_slice(rt.alloc(), first)?;
    let second = Vec::from_slice(rt.alloc(), second)?;
    let third = Vec::new(rt.alloc());
    if first.len() > 9 || second.len() > 9 || third.len() > 9 {
        Err("too many slots")?;
    }
    Ok(StepList::new(rt.alloc(), first, second, third))
}

// Slots with these words.
pub(crate) fn slots_of(
    rt: &HostRuntime,
    first: &[&[u64]],
    second: &[&[u64]],
) -> Result<Slots, Fail> {
    Ok(Slots::new(rows(rt, first)?, rows(rt, second)?, Vec::new(rt.alloc())))
}

pub(crate) fn rows(rt: &HostRuntime, lists: &[&[u64]]) -> Result<Vec<Vec<u64>>, Fail> {
    let mut rows = Vec::new(rt.alloc());
    for list in lists {
        rows.push(Vec::from_slice(rt.alloc(), list)?)?;
    }
    Ok(rows)
}

// The run of a list under the tapes of a seed.
pub(crate) fn run_of(
    rt: &HostRuntime,
    list: &List,
    slots: &Slots,
    seed: u64,
) -> Result<JointRun, Fail> {
    let schedule = list_needs(rt.alloc(), list)?;
    let tapes = make_tapes(rt.alloc(), &schedule, seed)?;
    Ok(joint_run(rt.alloc(), list, slots, &tapes)?)
}

// A list's AND words.
pub(crate) fn and_words(list: &List) -> u64 {
    let mut words = 0u64;
    for step in list.steps() {
        if let Step::And { left, right: _ } = step {
            if *left < list.registers() {
                words = words.saturating_add(list.length(*left) as u64);
            }
        }
    }
    words
}
