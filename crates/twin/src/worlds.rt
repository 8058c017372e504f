//! How the unseen draws of each kind of step change.

ghost use Rattle.std.specs.Prelude.{◌≡◌, ◌<◌, IfOk, IfErr, OnOk, [], length, true};
ghost use Rattle.lanes.specs.Party.{before};
ghost use Rattle.lanes.specs.Three.{at};
ghost use Rattle.step_lists.specs.Layout.{Layout};
ghost use Rattle.step_lists.specs.Draws.{needs_of, taken};
ghost use Rattle.step_lists.specs.Machine.{slot_of};
ghost use Rattle.step_lists.specs.Seen.{AreAlike};
ghost use Rattle.step_lists.specs.Twin.{changed, twin_draws};
ghost use Rattle.joint_machine.specs.Left.{lefts};
ghost use Rattle.twin.specs.Compared.{IsToldFault, IsWordsFault};
ghost use Rattle.twin.specs.Passing.{AreReady, IsStepFault, shows};

use crate::change::Change;
use crate::compare::compare_words;
use crate::fault::TwinFault;
use crate::places::{is_same, party_of};
use joint_machine::Machine;
use lanes::{Party, Three};
use std::alloc::Global;
use step_lists::{Step, Task};
use tapes::Cursor;

/// One list in two worlds.
#[derive(Drop)]
pub(crate) struct Worlds {
    pub(crate) one: Machine,
    pub(crate) other: Machine,
}

impl Worlds {
    // The words of a slot that are opened to the viewer have to be the same.
    fn compare_slots(
        &self,
        alloc: Global,
        number: u64,
        party: Party,
        slot: u32,
    ) -> Result<Change, TwinFault>
        requires one { slot < length (at party self.now.one.slots) }
        requires other { slot < length (at party self.now.other.slots) }
        ensures change { IfOk result (λ change. (change.words.items ≡ []) × (change.order ≡ [])) }
        ensures same { OnOk result (slot_of self.now.one party slot ≡ slot_of self.now.other party slot) }
        ensures fault { IfErr result (λ fault. IsWordsFault number (slot_of self.now.one party slot) (slot_of self.now.other party slot) fault) }
    {
        let (words, others) = (self.one.slot(party, slot), self.other.slot(party, slot));
        compare_words(alloc, number, words, others)?;
        Ok(Change::none(alloc)?)
    }

    // A Tell to the viewer has to tell it the same words.
    fn tell_change(
        &self,
        alloc: Global,
        number: u64,
        told: bool,
        source: Party,
        slot: u32,
    ) -> Result<Change, TwinFault>
        requires one { slot < length (at source self.now.one.slots) }
        requires other { slot < length (at source self.now.other.slots) }
        ensures change { IfOk result (λ change. (change.words.items ≡ []) × (change.order ≡ [])) }
        ensures same { OnOk result (told ≡ true → slot_of self.now.one source slot ≡ slot_of self.now.other source slot) }
        ensures fault { IfErr result (λ fault. IsToldFault number told (slot_of self.now.one source slot) (slot_of self.now.other source slot) fault) }
    {
        if told {
            return self.compare_slots(alloc, number, source, slot);
        }
        Ok(Change::none(alloc)?)
    }

    /// How the unseen draws of a step change, whose draws come next on these tapes.
    pub(crate) fn change_of<T: Task>(
        &self,
        alloc: Global,
        viewer: Party,
        number: u64,
        step: &Step<T>,
        tapes: &mut Three<Cursor<'_>>,
    ) -> Result<Change, TwinFault>
        requires { (l : Layout) × AreReady T.accepts viewer l step.now self.now.one self.now.other (lefts tapes.old) }
        ensures change { IfOk result (λ change. (l : Layout) → AreReady T.accepts viewer l step.now self.now.one self.now.other (lefts tapes.old)
            → changed change.order change.words.items (at (before viewer) (taken (needs_of l step.now) (lefts tapes.old)))
            ≡ twin_draws viewer l self.now.one self.now.other step.now (taken (needs_of l step.now) (lefts tapes.old))) }
        ensures alike { OnOk result ((l : Layout) → AreReady T.accepts viewer l step.now self.now.one self.now.other (lefts tapes.old)
            → AreAlike (shows viewer l self.now.one step.now) (shows viewer l self.now.other step.now)) }
        ensures fault { IfErr result (λ fault. (l : Layout) → AreReady T.accepts viewer l step.now self.now.one self.now.other (lefts tapes.old)
            → IsStepFault viewer l step.now self.now.one self.now.other number fault) }
    {
        match step {
            Step::And { left, right } => Ok(self.and_change(alloc, viewer, *left, *right)?),
            Step::Share { party, slot } => {
                Ok(self.share_change(alloc, viewer, party_of(*party), *slot)?)
            }
            Step::Reveal { to, moved, shown } => self.reveal_change(
                alloc,
                viewer,
                number,
                party_of(*to),
                moved.as_slice(),
                shown.as_slice(),
                tapes,
            ),
            Step::Steer { by, slot, moved } => {
                Ok(self.steer_change(alloc, viewer, party_of(*by), *slot, moved.as_slice(), tapes)?)
            }
            Step::Tell {
                source,
                target,
                slot,
            } => {
                let told = is_same(viewer, party_of(*target));
                self.tell_change(alloc, number, told, party_of(*source), *slot)
            }
            Step::Flag { party, slot } => {
                self.compare_slots(alloc, number, party_of(*party), *slot)
            }
            Step::Const { .. } | Step::Lin { .. } | Step::Work { .. } => Ok(Change::none(alloc)?),
        }
    }
}
