//! A whole list on the machine.
#![tactic(auto)]

ghost use Rattle.std.specs.Prelude.{◌≡◌, IfOk, OnOk, length, map};
ghost use Rattle.std.specs.List.{AllByRecursion};
ghost use Rattle.lanes.specs.declared.party.Party.{Party};
ghost use Rattle.lanes.specs.Three.{at};
ghost use Rattle.lanes.specs.Word.{AreWords};
ghost use Rattle.step_lists.specs.Machine.{before_steps, joint_of};
ghost use Rattle.step_lists.specs.Open.{open_of};
ghost use Rattle.step_lists.specs.Possible.{TapesFit};
ghost use Rattle.step_lists.specs.Shapes.{word_lists};
ghost use Rattle.joint_machine.specs.Left.{draws_of};
ghost use Rattle.joint_machine.specs.Opens.{Opens};

use crate::machine::Machine;
use lanes::{Three, item_laws, lane_laws, shared_and_laws, xor_laws};
use std::alloc::{AllocError, Global};
use step_lists::{Slots, StepList, Task};
use tapes::{Tapes, need_laws, order_laws};

// Words in memory of their own.
fn copy_words(alloc: Global, words: &[u64]) -> Result<Vec<u64>, AllocError>
    ensures same { IfOk result (λ made. made.items ≡ words.now) }
    ensures below { AreWords words.now }
{
    Vec::from_slice(alloc, words)
}

// Slots in memory of their own.
fn copy_slots(alloc: Global, slots: &Vec<Vec<u64>>) -> Result<Vec<Vec<u64>>, AllocError>
    ensures same { IfOk result (λ made. word_lists made ≡ word_lists slots.now) }
    ensures below { OnOk result (AllByRecursion AreWords (word_lists slots.now)) }
{
    let mut made = Vec::with_capacity(alloc, slots.len())?;
    for words in slots {
        made.push(copy_words(alloc, words)?)?;
    }
    Ok(made)
}

/// The machine before the first step: the first slots, in memory of their own.
pub fn start(alloc: Global, slots: &Slots) -> Result<Machine, AllocError>
    ensures machine { IfOk result (λ machine. machine ≡ before_steps slots.now) }
    ensures below { OnOk result ((p : Party) → AllByRecursion AreWords (at p slots.now)) }
{
    let slots = Three {
        first: copy_slots(alloc, slots.party(1))?,
        second: copy_slots(alloc, slots.party(2))?,
        third: copy_slots(alloc, slots.party(3))?,
    };
    Ok(Machine::new(alloc, slots))
}

/// The machine behind a list, on slots and tapes that fit it.
pub(crate) fn run_list<T: Task>(
    alloc: Global,
    list: &StepList<T>,
    slots: &Slots,
    tapes: &Tapes,
) -> Result<Machine, AllocError>
    requires slots { (p : Party) → map length (at p slots.now) ≡ at p list.now.first }
    requires tapes { TapesFit list.now (draws_of tapes.now) }
    ensures machine { IfOk result (λ machine. machine ≡ joint_of T.answer list.now slots.now (draws_of tapes.now)) }
    ensures opens { OnOk result (Opens (joint_of T.answer list.now slots.now (draws_of tapes.now)) (open_of T.answer list.now slots.now (draws_of tapes.now))) }
{
    lane_laws();
    item_laws();
    xor_laws();
    shared_and_laws();
    order_laws();
    need_laws();
    let mut machine = start(alloc, slots)?;
    let mut readers = Three {
        first: tapes.first.cursor(),
        second: tapes.second.cursor(),
        third: tapes.third.cursor(),
    };
    for step in list.steps() {
        if !machine.is_stopped() {
            machine.run_step(step, &mut readers)?;
        }
    }
    Ok(machine)
}
