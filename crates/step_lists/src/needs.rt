//! The schedule of a list: what its steps draw from the three tapes.
#![tactic(auto)]

ghost use Rattle.std.specs.Prelude.{◌≡◌, IfOk, OnOk};
ghost use Rattle.lanes.specs.Party.{next};
ghost use Rattle.step_lists.specs.Draws.{joined, needs_each, needs_masks, needs_of, needs_order, needs_phase, needs_reveal, needs_steer, needs_words, schedule_of};
ghost use Rattle.step_lists.specs.Schedule.{lists_of};

use crate::layout::{Layout, count_in, party_of, rows_moved};
use crate::step::Step;
use crate::step_list::StepList;
use crate::task::Task;
use lanes::Party;
use std::alloc::{AllocError, Global};
use tapes::{Need, Needs, Schedule};

/// The needs of a list's steps, in order: what each tape has to hold for it.
pub fn list_needs<T: Task>(alloc: Global, list: &StepList<T>) -> Result<Schedule, AllocError>
    ensures { IfOk result (λ schedule. lists_of schedule ≡ schedule_of list.now) }
{
    let mut schedule = Schedule {
        first: Needs::new(alloc),
        second: Needs::new(alloc),
        third: Needs::new(alloc),
    };
    for step in list.steps() {
        push_needs(&mut schedule, list.layout(), step)?;
    }
    Ok(schedule)
}

// What one step draws; earlier registers and slots keep their lengths and shapes, so the list's last layout serves.
fn push_needs<T: Task>(
    schedule: &mut Schedule,
    layout: &Layout,
    step: &Step<T>,
) -> Result<(), AllocError>
    ensures { OnOk result (lists_of schedule.new ≡ joined (lists_of schedule.old) (needs_of layout.now.now step.now)) }
{
    match step {
        Step::And { left, right: _ } => push_each(schedule, layout.length(*left)),
        Step::Share { party, slot } => push_share(
            schedule,
            party_of(*party),
            count_in(layout.shape(*party, *slot)),
        ),
        Step::Reveal {
            to: _,
            moved,
            shown: _,
        } => push_reveal(schedule, moved.len(), rows_moved(layout, moved.as_slice())),
        Step::Steer { by, slot: _, moved } => push_steer(
            schedule,
            party_of(*by),
            moved.len(),
            rows_moved(layout, moved.as_slice()),
        ),
        Step::Const { words: _ } => Ok(()),
        Step::Lin { op: _ } => Ok(()),
        Step::Tell {
            source: _,
            target: _,
            slot: _,
        } => Ok(()),
        Step::Work {
            party: _,
            task: _,
            takes: _,
            gives: _,
        } => Ok(()),
        Step::Flag { party: _, slot: _ } => Ok(()),
    }
}

// So many words of one tape.
fn push_words(schedule: &mut Schedule, party: Party, count: usize) -> Result<(), AllocError>
    ensures { OnOk result (lists_of schedule.new ≡ joined (lists_of schedule.old) (needs_words party count)) }
{
    match party {
        Party::First => schedule.first.push_words(count),
        Party::Second => schedule.second.push_words(count),
        Party::Third => schedule.third.push_words(count),
    }
}

// An order of one tape.
fn push_order(schedule: &mut Schedule, party: Party, rows: u32) -> Result<(), AllocError>
    ensures { OnOk result (lists_of schedule.new ≡ joined (lists_of schedule.old) (needs_order party rows)) }
{
    match party {
        Party::First => schedule.first.push(Need::OrderOf(rows)),
        Party::Second => schedule.second.push(Need::OrderOf(rows)),
        Party::Third => schedule.third.push(Need::OrderOf(rows)),
    }
}

// A word of each tape for each word of an and.
fn push_each(schedule: &mut Schedule, count: u32) -> Result<(), AllocError>
    ensures { OnOk result (lists_of schedule.new ≡ joined (lists_of schedule.old) (needs_each count)) }
{
    schedule.first.push_words(count as usize)?;
    schedule.second.push_words(count as usize)?;
    schedule.third.push_words(count as usize)
}

// The two shares that are drawn of words that a party shares.
fn push_share(schedule: &mut Schedule, party: Party, count: u32) -> Result<(), AllocError>
    ensures { OnOk result (lists_of schedule.new ≡ joined (lists_of schedule.old) (joined (needs_words party count) (needs_words (next party) count))) }
{
    push_words(schedule, party, count as usize)?;
    push_words(schedule, party.next(), count as usize)
}

// The masks of a phase.
fn push_masks(schedule: &mut Schedule, party: Party, count: usize) -> Result<(), AllocError>
    ensures { OnOk result (lists_of schedule.new ≡ joined (lists_of schedule.old) (needs_masks party count)) }
{
    push_words(schedule, party.before(), count)?;
    push_words(schedule, party.next(), count)
}

// A phase whose order is drawn, on so many registers.
fn push_phase(
    schedule: &mut Schedule,
    party: Party,
    moved: usize,
    rows: u32,
) -> Result<(), AllocError>
    ensures { OnOk result (lists_of schedule.new ≡ joined (lists_of schedule.old) (needs_phase party moved rows)) }
{
    let count = moved.checked_mul(rows as usize).ok_or(AllocError)?;
    push_order(schedule, party, rows)?;
    push_masks(schedule, party, count)
}

fn push_reveal(schedule: &mut Schedule, moved: usize, rows: u32) -> Result<(), AllocError>
    ensures { OnOk result (lists_of schedule.new ≡ joined (lists_of schedule.old) (needs_reveal moved rows)) }
{
    push_phase(schedule, Party::First, moved, rows)?;
    push_phase(schedule, Party::Second, moved, rows)?;
    push_phase(schedule, Party::Third, moved, rows)
}

fn push_steer(schedule: &mut Schedule, by: Party, moved: usize, rows: u32) -> Result<(), AllocError>
    ensures { OnOk result (lists_of schedule.new ≡ joined (lists_of schedule.old) (needs_steer by moved rows)) }
{
    let count = moved.checked_mul(rows as usize).ok_or(AllocError)?;
    push_phase(schedule, by.next(), moved, rows)?;
    push_masks(schedule, by, count)
}
