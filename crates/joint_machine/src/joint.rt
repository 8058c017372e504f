//! The public run.
#![tactic(auto)]

ghost use Rattle.std.specs.Prelude.{◌≡◌, ◌<◌, ◌^◌, IfOk, IfErr, IfSome, IsNone, OnOk, IsTrue, length, map, slice_get};
ghost use Rattle.std.specs.Option.{option_map};
ghost use Rattle.lanes.specs.Three.{at};
ghost use Rattle.step_lists.specs.Draws.{ThreeTapes};
ghost use Rattle.step_lists.specs.Layout.{party_of};
ghost use Rattle.step_lists.specs.Machine.{joint_of};
ghost use Rattle.step_lists.specs.Open.{SlotWords, open_of, stopped_at};
ghost use Rattle.step_lists.specs.Phases.{link};
ghost use Rattle.step_lists.specs.Possible.{TapesFit};
ghost use Rattle.step_lists.specs.Rules.{is_party};
ghost use Rattle.step_lists.specs.Shapes.{word_lists};
ghost use Rattle.joint_machine.specs.declared.joint.JointFault.TheVariants.{Memory};
ghost use Rattle.joint_machine.specs.Faults.{HasFirst, HaveFirst, IsFault, IsFirstMisfit, is_of, ran};
ghost use Rattle.joint_machine.specs.Left.{draws_of};

use crate::machine::Machine;
use crate::run::run_list;
use crate::steps::party_of;
use std::alloc::{AllocError, AllocFailed, Global};
use std::marker::Model;
use step_lists::{Slots, StepList, Task, list_needs};
use tapes::Tapes;
use thiserror::Error;

/// Why a list isn't run.
#[derive(Clone, Copy, Debug, PartialEq, Eq, Error)]
pub enum JointFault {
    /// The first draw of the lowest tape that doesn't match the schedule. It is the number of draws where they are too
    /// few, and the number of needs where they are too many.
    #[error("draw {draw} of tape {tape} is not what the list needs")]
    Unfit { tape: u8, draw: u64 },
    /// The first slot of the lowest party that has another length than the list's first slot, or is missing, or is one
    /// too many.
    #[error("slot {slot} of party {party} has not the length of the list's")]
    SlotLength { party: u8, slot: u32 },
    /// There is not enough memory.
    #[error("out of memory")]
    Memory,
}

impl From<AllocError> for JointFault {
    ghost from_gives = { λ _ e. e ≡ Memory };

    fn from(_: AllocError) -> JointFault {
        JointFault::Memory
    }
}

/// A run of three parties: the words that each sent to each other one, the slots of each, and where it stopped.
#[derive(Debug, Drop)]
pub struct JointRun {
    machine: Machine,
}

impl Model for JointRun {
    ghost use Rattle.joint_machine.specs.Faults.{Ran, ran};

    ghost Value = { Ran };

    ghost view = { λ r. ran r.machine };
}

// Whether a slot has a length.
fn has_length(slots: &Vec<Vec<u64>>, slot: usize, length: u32) -> bool
    ensures { result ≡ is_of length (slice_get (word_lists slots.now) slot) }
{
    match slots.get(slot) {
        Some(words) => words.len() == length as usize,
        None => false,
    }
}

// The first slot that hasn't its length.
fn first_misfit(lengths: &[u32], slots: &Vec<Vec<u64>>) -> Option<u32>
    requires { length lengths.now < 2 ^ 32 }
    ensures fits { IsNone result → map length (word_lists slots.now) ≡ lengths.now }
    ensures misfit { IfSome result (λ s. IsFirstMisfit lengths.now (word_lists slots.now) s) }
{
    for slot in 0..lengths.len() {
        if !has_length(slots, slot, lengths[slot]) {
            return Some(slot as u32);
        }
    }
    if slots.len() > lengths.len() {
        return Some(lengths.len() as u32);
    }
    None
}

// The first slot of a party that hasn't the length of the list's first slot.
fn party_misfit<T: Task>(list: &StepList<T>, slots: &Slots, party: u8) -> Option<u32>
    requires { IsTrue (is_party party) }
    ensures fits { IsNone result → HasFirst list.now slots.now (party_of party) }
    ensures misfit { IfSome result (λ s. IsFirstMisfit (at (party_of party) list.now.first) (at (party_of party) slots.now) s) }
{
    // Its contract says that a list has fewer than 2^32 first slots.
    let _ = list.steps();
    first_misfit(list.first(party), slots.party(party))
}

fn check_slots<T: Task>(list: &StepList<T>, slots: &Slots) -> Result<(), JointFault>
    ensures fits { OnOk result (HaveFirst list.now slots.now) }
    ensures fault { IfErr result (λ fault. (ds : ThreeTapes) → IsFault list.now slots.now ds fault) }
{
    if let Some(slot) = party_misfit(list, slots, 1) {
        return Err(JointFault::SlotLength { party: 1, slot });
    }
    if let Some(slot) = party_misfit(list, slots, 2) {
        return Err(JointFault::SlotLength { party: 2, slot });
    }
    if let Some(slot) = party_misfit(list, slots, 3) {
        return Err(JointFault::SlotLength { party: 3, slot });
    }
    Ok(())
}

fn check_tapes<T: Task>(alloc: Global, list: &StepList<T>, tapes: &Tapes) -> Result<(), JointFault>
    ensures fits { OnOk result (TapesFit list.now (draws_of tapes.now)) }
    ensures fault { IfErr result (λ fault. (slots : SlotWords) → HaveFirst list.now slots → IsFault list.now slots (draws_of tapes.now) fault) }
{
    let schedule = list_needs(alloc, list)?;
    if let Some(draw) = tapes.first.first_unfit(&schedule.first) {
        return Err(JointFault::Unfit { tape: 1, draw });
    }
    if let Some(draw) = tapes.second.first_unfit(&schedule.second) {
        return Err(JointFault::Unfit { tape: 2, draw });
    }
    if let Some(draw) = tapes.third.first_unfit(&schedule.third) {
        return Err(JointFault::Unfit { tape: 3, draw });
    }
    Ok(())
}

/// Whether first slots and tapes are what a list needs, before it is run.
///
/// SlotLength comes first and exactly where a first slot has another length, is missing or is one too many; then Unfit,
/// exactly where a tape isn't what the list's schedule needs. Own.
pub fn check_run<T: Task>(
    alloc: Global,
    list: &StepList<T>,
    slots: &Slots,
    tapes: &Tapes,
) -> Result<(), JointFault>
    ensures fits { OnOk result (HaveFirst list.now slots.now × TapesFit list.now (draws_of tapes.now)) }
    ensures fault { IfErr result (λ fault. IsFault list.now slots.now (draws_of tapes.now) fault) }
{
    check_slots(list, slots)?;
    check_tapes(alloc, list, tapes)?;
    Ok(())
}

/// Three parties carry out a list on first slots, with the draws of three tapes.
///
/// It is refused as by `check_run`. Own, after Araki et al. (2016) and Laur, Willemson and Zhang (2011).
pub fn joint_run<T: Task>(
    alloc: Global,
    list: &StepList<T>,
    slots: &Slots,
    tapes: &Tapes,
) -> Result<JointRun, JointFault>
    ensures run { IfOk result (λ r. r ≡ ran (joint_of T.answer list.now slots.now (draws_of tapes.now))) }
    ensures opens { IfOk result (λ r. (r.slots ≡ (open_of T.answer list.now slots.now (draws_of tapes.now)).slots)
        × (r.stop ≡ stopped_at (open_of T.answer list.now slots.now (draws_of tapes.now)).stop (open_of T.answer list.now slots.now (draws_of tapes.now)).flags)) }
    ensures fits { OnOk result (HaveFirst list.now slots.now × TapesFit list.now (draws_of tapes.now)) }
    ensures fault { IfErr result (λ fault. IsFault list.now slots.now (draws_of tapes.now) fault) }
{
    check_run(alloc, list, slots, tapes)?;
    let machine = run_list(alloc, list, slots, tapes)?;
    Ok(JointRun { machine })
}

impl JointRun {
    /// The words that one party sent to another one, each 1 to 3.
    pub fn link(&self, source: u8, target: u8) -> &Vec<u64>
        requires source { IsTrue (is_party source) }
        requires target { IsTrue (is_party target) }
        requires apart { ¬ (source ≡ target) }
        ensures { result.now.items ≡ link (party_of source) (party_of target) self.now.links }
    {
        self.machine.sent(party_of(source), party_of(target))
    }

    /// A slot of a party, 1 to 3, `None` exactly where it wasn't made before the stop.
    pub fn slot(&self, party: u8, slot: u32) -> Option<&Vec<u64>>
        requires { IsTrue (is_party party) }
        ensures { option_map (λ words. words.now.items) result ≡ slice_get (at (party_of party) self.now.slots) slot }
    {
        self.machine.find_slot(party_of(party), slot)
    }

    /// The number, among the flags, of the one that stopped the run, `None` where none did.
    pub fn stopped(&self) -> Option<u32>
        ensures { result ≡ self.now.stop }
    {
        self.machine.stopped()
    }
}
