//! What is done with slots alone: Tell, Work and Flag.
#![tactic(auto)]

ghost use Rattle.std.specs.Prelude.{◌≡◌, ℕ, ◌<◌, ◌+◌, ◌^◌, [], ◌∷◌, IfOk, OnOk, length, map, slice_index};
ghost use Rattle.lanes.specs.Three.{at};
ghost use Rattle.step_lists.specs.Machine.{slot_of, with_more_slots, delivered, machine_flag, to_both};
ghost use Rattle.step_lists.specs.Phases.{message};
ghost use Rattle.step_lists.specs.Shapes.{IsInput, word_lists};

use crate::machine::Machine;
use lanes::Party;
use std::alloc::AllocError;
use step_lists::Task;

impl Machine {
    /// A slot of the target with the words of a slot of the source.
    pub(crate) fn push_tell(
        &mut self,
        source: Party,
        target: Party,
        slot: u32,
    ) -> Result<(), AllocError>
        requires { slot < length (at source self.old.slots) }
        ensures { OnOk result (self.new ≡ delivered (message source target (slot_of self.old source slot)) (with_more_slots self.old target (slot_of self.old source slot ∷ []))) }
    {
        let words = Vec::from_slice(self.allocator(), self.slot(source, slot))?;
        self.send(source, target, &words)?;
        self.push_slot(target, words)
    }

    /// The word of a slot to both other parties; all stop where it isn't 0.
    pub(crate) fn pass_flag(&mut self, party: Party, slot: u32) -> Result<(), AllocError>
        requires made { slot < length (at party self.old.slots) }
        requires one { length (slot_of self.old party slot) ≡ 1 }
        requires few { self.old.flags + 1 < 2 ^ 32 }
        ensures { OnOk result (self.new ≡ delivered (to_both party (slot_of self.old party slot)) (machine_flag self.old (slot_of self.old party slot))) }
    {
        let words = Vec::from_slice(self.allocator(), self.slot(party, slot))?;
        self.send(party, party.next(), &words)?;
        self.send(party, party.before(), &words)?;
        self.count_flag(words[0] == 0);
        Ok(())
    }

    // The words of some slots of a party.
    fn taken_slots(&self, party: Party, takes: &[u32]) -> Result<Vec<Vec<u64>>, AllocError>
        requires { (k : ℕ) → k < length takes.now → slice_index takes.now k < length (at party self.now.slots) }
        ensures { IfOk result (λ taken. word_lists taken ≡ map (slot_of self.now party) takes.now) }
    {
        let alloc = self.allocator();
        let mut taken = Vec::with_capacity(alloc, takes.len())?;
        for slot in takes {
            taken.push(Vec::from_slice(alloc, self.slot(party, *slot))?)?;
        }
        Ok(taken)
    }

    /// Slots of a party that a task computes from other slots of its own.
    pub(crate) fn push_work<T: Task>(
        &mut self,
        party: Party,
        task: &T,
        takes: &[u32],
    ) -> Result<(), AllocError>
        requires made { (k : ℕ) → k < length takes.now → slice_index takes.now k < length (at party self.old.slots) }
        requires input { IsInput (T.accepts task.now) (map (slot_of self.old party) takes.now) }
        ensures { OnOk result (self.new ≡ with_more_slots self.old party (T.answer task.now (map (slot_of self.old party) takes.now))) }
    {
        let taken = self.taken_slots(party, takes)?;
        let gives = task.work(self.allocator(), &taken)?;
        self.push_slots(party, gives)
    }
}
