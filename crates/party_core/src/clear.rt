//! The steps Tell, Work and Flag at one party, on its slots.
#![tactic(auto)]

ghost use Rattle.std.specs.Prelude.{◌≡◌, ◌<◌, ◌+◌, ◌^◌, ◌∷◌, [], IfOk, IsTrue, OnErr, OnOk, map, if◌then◌else◌};
ghost use Rattle.lanes.specs.Three.{at, put};
ghost use Rattle.step_lists.specs.Draws.{nothing};
ghost use Rattle.step_lists.specs.Open.{item};
ghost use Rattle.step_lists.specs.Part.{part_flag, to_others, when_sent, with_own_slots};
ghost use Rattle.step_lists.specs.Seen.{same_party};
ghost use Rattle.step_lists.specs.Shapes.{IsInput, word_lists};
ghost use Rattle.party_core.specs.Calls.{posted};
ghost use Rattle.party_core.specs.Doing.{posted_of};

use crate::lists::word_at;
use crate::messages::same_party;
use crate::outbox::Outbox;
use crate::portion::Portion;
use crate::state::State;
use lanes::Party;
use std::alloc::{AllocError, Global};
use step_lists::Task;

/// What a party sends in a Tell, where it is the source: a slot's words, to the target.
pub(crate) fn tell_sends(
    alloc: Global,
    party: Party,
    source: Party,
    target: Party,
    slot: u32,
    state: &State,
) -> Result<Outbox, AllocError>
    ensures { IfOk result (λ out. posted out ≡ posted_of party (when_sent (same_party party source) (put target (item state.now.slots slot) nothing))) }
{
    if !same_party(party, source) {
        return Ok(Outbox::empty(alloc));
    }
    let words = Vec::from_slice(alloc, state.slot(slot))?;
    Ok(Outbox::to(alloc, party, target, words))
}

/// What a party sends in a Flag, where the flag is its own: the slot's word, to both others.
pub(crate) fn flag_sends(
    alloc: Global,
    party: Party,
    by: Party,
    slot: u32,
    state: &State,
) -> Result<Outbox, AllocError>
    ensures { IfOk result (λ out. posted out ≡ posted_of party (when_sent (same_party party by) (to_others party (item state.now.slots slot)))) }
{
    if !same_party(party, by) {
        return Ok(Outbox::empty(alloc));
    }
    Outbox::to_others(alloc, Vec::from_slice(alloc, state.slot(slot))?)
}

// A list of these words alone.
fn only(alloc: Global, words: &[u64]) -> Result<Vec<Vec<u64>>, AllocError>
    ensures { IfOk result (λ made. word_lists made ≡ words.now ∷ []) }
{
    let mut made = Vec::with_capacity(alloc, 1)?;
    made.push(Vec::from_slice(alloc, words)?)?;
    Ok(made)
}

impl State {
    /// Carries out a Tell.
    pub(crate) fn push_tell(
        &mut self,
        alloc: Global,
        party: Party,
        source: Party,
        target: Party,
        portion: &Portion<'_>,
    ) -> Result<(), AllocError>
        ensures done { OnOk result (self.new ≡ with_own_slots (same_party party target) self.old (at source portion.now.received ∷ [])) }
        ensures kept { OnErr result (self.new ≡ self.old) }
    {
        if !same_party(party, target) {
            return Ok(());
        }
        let slots = only(alloc, portion.received(source))?;
        self.push_slots(slots)
    }

    /// Carries out a Work.
    pub(crate) fn push_work<T: Task>(
        &mut self,
        alloc: Global,
        party: Party,
        by: Party,
        task: &T,
        takes: &[u32],
    ) -> Result<(), AllocError>
        requires { IsTrue (same_party party by) → IsInput (T.accepts task.now) (map (item self.old.slots) takes.now) }
        ensures done { OnOk result (self.new ≡ with_own_slots (same_party party by) self.old (T.answer task.now (map (item self.old.slots) takes.now))) }
        ensures kept { OnErr result (self.new ≡ self.old) }
    {
        if !same_party(party, by) {
            return Ok(());
        }
        let taken = self.copy_slots(alloc, takes)?;
        let gives = task.work(alloc, &taken)?;
        self.push_slots(gives)
    }

    /// Carries out a Flag: its word is a slot's, or came from its party.
    pub(crate) fn pass_flag(&mut self, party: Party, by: Party, slot: u32, portion: &Portion<'_>)
        requires { self.old.flags + 1 < 2 ^ 32 }
        ensures { self.new ≡ part_flag self.old (if same_party party by then item self.old.slots slot else at by portion.now.received) }
    {
        let word = if same_party(party, by) {
            word_at(self.slot(slot), 0)
        } else {
            word_at(portion.received(by), 0)
        };
        self.count_flag(word == 0);
    }
}
