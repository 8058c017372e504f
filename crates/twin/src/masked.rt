//! And and Share: the words that an unseen word masks, in both worlds.

ghost use Rattle.std.specs.Prelude.{◌≡◌, ◌<◌, IfOk, length, [], if◌then◌else◌};
ghost use Rattle.lanes.specs.Lanes.{xors};
ghost use Rattle.lanes.specs.Three.{at};
ghost use Rattle.joint_machine.specs.Steps.{register_rows};
ghost use Rattle.step_lists.specs.Machine.{shares, slot_of};
ghost use Rattle.step_lists.specs.Seen.{same_party};
ghost use Rattle.step_lists.specs.Twin.{bare_and};
ghost use Rattle.twin.specs.Compared.{AreFactors};

use crate::change::Change;
use crate::places::is_same;
use crate::worlds::Worlds;
use joint_machine::Machine;
use lanes::{Party, item_laws, shared_ands, xor_words};
use std::alloc::{AllocError, Global};

// Of an and, what the next party sends to the viewer, without its two masks.
fn bare_words(
    alloc: Global,
    viewer: Party,
    machine: &Machine,
    left: u32,
    right: u32,
) -> Result<Vec<u64>, AllocError>
    requires { AreFactors machine.now left right (register_rows machine.now left) }
    ensures words { IfOk result (λ words. words.items ≡ bare_and viewer (shares machine.now left) (shares machine.now right)) }
    ensures long { IfOk result (λ words. length words.items ≡ register_rows machine.now left) }
{
    item_laws();
    let (s, t) = (machine.register(left), machine.register(right));
    let words = shared_ands(
        alloc,
        s.at(viewer.next()),
        s.at(viewer.before()),
        t.at(viewer.next()),
        t.at(viewer.before()),
    )?;
    Ok(words.into_vec())
}

impl Worlds {
    /// What the unseen mask of an And takes up.
    pub(crate) fn and_change(
        &self,
        alloc: Global,
        viewer: Party,
        left: u32,
        right: u32,
    ) -> Result<Change, AllocError>
        requires one { AreFactors self.now.one left right (register_rows self.now.one left) }
        requires other { AreFactors self.now.other left right (register_rows self.now.one left) }
        ensures words { IfOk result (λ change. change.words.items ≡ xors (bare_and viewer (shares self.now.one left) (shares self.now.one right)) (bare_and viewer (shares self.now.other left) (shares self.now.other right))) }
        ensures order { IfOk result (λ change. change.order ≡ []) }
    {
        let first = bare_words(alloc, viewer, &self.one, left, right)?;
        let second = bare_words(alloc, viewer, &self.other, left, right)?;
        let words = xor_words(alloc, &first, &second)?.into_vec();
        Change::of_words(alloc, words)
    }

    /// What the unseen mask of a Share takes up: nothing where the viewer shares.
    pub(crate) fn share_change(
        &self,
        alloc: Global,
        viewer: Party,
        party: Party,
        slot: u32,
    ) -> Result<Change, AllocError>
        requires one { slot < length (at party self.now.one.slots) }
        requires other { slot < length (at party self.now.other.slots) }
        requires long { length (slot_of self.now.one party slot) ≡ length (slot_of self.now.other party slot) }
        ensures words { IfOk result (λ change. change.words.items ≡ (if same_party party viewer then [] else xors (slot_of self.now.one party slot) (slot_of self.now.other party slot))) }
        ensures order { IfOk result (λ change. change.order ≡ []) }
    {
        if is_same(party, viewer) {
            return Change::none(alloc);
        }
        let words = xor_words(
            alloc,
            self.one.slot(party, slot),
            self.other.slot(party, slot),
        )?;
        Change::of_words(alloc, words.into_vec())
    }
}
