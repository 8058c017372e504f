//! One party alone.
#![tactic(auto)]

ghost use Rattle.std.specs.Prelude.{◌≡◌, ◌-◌, ◌<◌, ◌≤◌, ◌^◌, Some, false, IsTrue, IfOk, IfErr, OnOk, OnErr, drop, length, min, slice_get};
ghost use Rattle.lanes.specs.Three.{at};
ghost use Rattle.step_lists.specs.Layout.{party_of};
ghost use Rattle.step_lists.specs.declared.step.Step.{Step};
ghost use Rattle.step_lists.specs.Part.{count_from, stage_takes};
ghost use Rattle.step_lists.specs.Rules.{is_party};
ghost use Rattle.step_lists.specs.Shapes.{word_lists};
ghost use Rattle.party_core.specs.CoreView.{fresh_core, next_step, layout_here, turned_on, took};
ghost use Rattle.party_core.specs.Core.{part_so_far, stage_want, want_of, left_of, turn_sends, breaks_order};
ghost use Rattle.party_core.specs.Calls.{IsCoreFault, IsTakeFault, IsWanted, more_posted, posted, wanted_from};
ghost use Rattle.party_core.specs.declared.want.Want.TheVariants.{Turn};
ghost use Rattle.party_core.specs.Holding.{layout_at};
ghost use Rattle.party_core.specs.Reached.{IsReached};
ghost use Rattle.party_core.specs.Stages.{stages_behind, stage_count, takes_at};

use crate::checks::{check_slots, check_tapes};
use crate::faults::{CoreFault, TakeFault};
use crate::laws::{core_facts, move_laws};
use crate::outbox::Outbox;
use crate::places::Places;
use crate::sending::sends;
use crate::stages::{
    party_of, party_taken, stage_count, step_rows, takes_at, takes_none, waits_at, words_or_turn,
};
use crate::state::State;
use crate::supply::Supply;
use crate::want::Want;
use lanes::{Party, Three};
use std::alloc::AllocError;
use std::marker::Model;
use step_lists::{Step, StepList, Task, list_needs};
use tapes::Tape;

/// One party that carries out a list: it holds its own slots, its two tapes and the words that came to it.
#[derive(Debug, Drop)]
pub struct Core<'a, T: Task> {
    list: &'a StepList<T>,
    party: Party,
    supply: Supply,
    // How many steps are done, and what the party has behind them.
    steps: usize,
    state: State,
    places: Places,
    // How many stages of the next step are done, and whether the turn of the one after them was made.
    stages: usize,
    turned: bool,
}

impl<'a, T: Task> Model for Core<'a, T> {
    ghost use Rattle.party_core.specs.CoreView.{CoreView};
    ghost use Rattle.party_core.specs.Held.{seen_of, IsHeld};

    ghost Value = { CoreView T };

    ghost view = { λ c. seen_of c.list.now c.party c.supply c.state.slots c.steps c.stages c.turned };

    ghost invariant = { λ c. IsHeld T.accepts T.answer (seen_of c.list.now c.party c.supply c.state.slots c.steps c.stages c.turned) c.state c.places };
}

// How many words of a party the step of a place takes from a stage on, or 2^128 - 1 where that is more.
fn left_in<T: Task>(
    list: &StepList<T>,
    party: Party,
    source: Party,
    place: usize,
    step: &Step<T>,
    done: usize,
) -> u128
    requires { slice_get list.now.steps place ≡ Some step.now }
    ensures left { result ≡ min (count_from source (drop done (stage_takes party (layout_at list.now place) step.now))) (2 ^ 128 - 1) }
    ensures step { slice_get list.now.steps place ≡ Some step.now }
{
    let rows = step_rows(list, place, step);
    let mut left = 0u128;
    for stage in done..stage_count(step) {
        let takes = takes_at(party, step, rows, stage);
        left = left.saturating_add(*takes.at(source));
    }
    left
}

// How many words of a party the steps from a place on take, or 2^128 - 1 where that is more.
fn left_behind<T: Task>(
    list: &StepList<T>,
    party: Party,
    source: Party,
    place: usize,
    done: usize,
) -> u128
    requires { (s : Step T) → slice_get list.now.steps place ≡ Some s → done ≤ stage_count party (layout_at list.now place) s }
    ensures { result ≡ min (count_from source (drop done (stages_behind party (layout_at list.now place) (drop place list.now.steps)))) (2 ^ 128 - 1) }
{
    let steps = list.steps();
    let mut left = 0u128;
    let mut stages = done;
    for next in place..steps.len() {
        left = left.saturating_add(left_in(list, party, source, next, &steps[next], stages));
        stages = 0;
    }
    left
}

impl<'a, T: Task> Core<'a, T> {
    /// A party, 1 to 3, before its first move: its slots, its own tape and the following party's.
    ///
    /// SlotLength comes first and exactly where a slot has another length than the list's first slot of the party, is
    /// missing or is one too many; then Unfit, exactly where a tape isn't what the list's schedule needs.
    pub fn new(
        list: &'a StepList<T>,
        party: u8,
        slots: Vec<Vec<u64>>,
        own: Tape,
        following: Tape,
    ) -> Result<Core<'a, T>, CoreFault>
        requires { IsTrue (is_party party) }
        ensures core { IfOk result (λ core. core ≡ fresh_core list.now (party_of party) (word_lists slots) own following) }
        ensures reached { IfOk result (λ core. IsReached T.accepts T.answer core) }
        ensures fault { IfErr result (λ fault. IsCoreFault list.now (party_of party) (word_lists slots) own following fault) }
    {
        move_laws::<T>();
        let alloc = *slots.allocator();
        // Its contract says that the list is well-formed.
        let _ = list.steps();
        check_slots(list.first(party), &slots)?;
        let party = party_of(party);
        let schedule = list_needs(alloc, list)?;
        check_tapes(&schedule, party, &own, &following)?;
        Ok(Core {
            list,
            party,
            supply: Supply::new(alloc, own, following),
            steps: 0,
            state: State::new(alloc, slots),
            places: Places::start(),
            stages: 0,
            turned: false,
        })
    }

    /// What it wants next.
    pub fn want(&self) -> Want
        ensures want { result ≡ want_of T.answer self.now }
        ensures reached { IsReached T.accepts T.answer self.now }
    {
        if self.state.is_stopped() {
            return Want::Stopped {
                flag: self.state.flags(),
            };
        }
        let list = self.list;
        match list.steps().get(self.steps) {
            Some(step) => self.want_in(step),
            None => Want::Done,
        }
    }

    // What it wants in the next step.
    fn want_in(&self, step: &Step<T>) -> Want
        requires { next_step self.now ≡ Some step.now }
        ensures { result ≡ stage_want self.now.party (layout_here self.now) step.now self.now.far }
    {
        if self.turned || waits_at(self.party, step, self.stages) {
            words_or_turn(&self.takes(step))
        } else {
            Want::Turn
        }
    }

    // What is taken in the next stage of the next step.
    fn takes(&self, step: &Step<T>) -> Three<u128>
        requires { next_step self.now ≡ Some step.now }
        ensures takes { result ≡ takes_at self.now.party (layout_here self.now) step.now self.now.far.stages }
        ensures first { result.first < 2 ^ 64 }
        ensures second { result.second < 2 ^ 64 }
        ensures third { result.third < 2 ^ 64 }
    {
        // Its contract says that the list is well-formed.
        let _ = self.list.steps();
        let rows = step_rows(self.list, self.steps, step);
        takes_at(self.party, step, rows, self.stages)
    }

    /// How many words of another party the rest of the list takes where no flag stops it, or 2^64 - 1 where that is more;
    /// none behind a stop.
    pub fn left(&self, source: u8) -> u64
        requires source { IsTrue (is_party source) }
        requires other { ¬ (party_of source ≡ self.now.party) }
        ensures { result ≡ left_of T.answer self.now (party_of source) }
    {
        if self.state.is_stopped() {
            return 0;
        }
        let source = party_of(source);
        let left = left_behind(self.list, self.party, source, self.steps, self.stages);
        left.min(u64::MAX as u128) as u64
    }

    /// Makes a turn, which it wants: what is sent in it goes into the outbox, behind the words that lie there. After want
    /// of memory the core and the outbox are as before.
    pub fn turn(&mut self, outbox: &mut Outbox) -> Result<(), AllocError>
        requires { want_of T.answer self.old ≡ Turn }
        ensures moved { OnOk result (self.new ≡ turned_on self.old) }
        ensures sent { OnOk result (posted outbox.new ≡ more_posted self.old.party (turn_sends T.answer self.old) (posted outbox.old)) }
        ensures reached { IsReached T.accepts T.answer self.new }
        ensures kept { OnErr result (self.new ≡ self.old) }
        ensures kept_outbox { OnErr result (posted outbox.new ≡ posted outbox.old) }
    {
        core_facts::<T>();
        let list = self.list;
        let step = &list.steps()[self.steps];
        let rows = step_rows(list, self.steps, step);
        let alloc = self.supply.allocator();
        let portion = self
            .supply
            .portion(alloc, &self.places, self.party, step, rows)?;
        let more = sends(
            alloc,
            self.party,
            step,
            rows,
            self.stages,
            &self.state,
            &portion,
        )?;
        let (next, previous) = (outbox.next.len(), outbox.previous.len());
        outbox.post(&more)?;
        if !takes_none(&takes_at(self.party, step, rows, self.stages)) {
            self.turned = true;
            return Ok(());
        }
        if self.stages + 1 < stage_count(step) {
            self.stages += 1;
            return Ok(());
        }
        if let Err(fault) = self.state.run_step(alloc, self.party, step, rows, &portion) {
            outbox.cut(next, previous);
            return Err(fault);
        }
        self.places = self
            .supply
            .places_behind(&self.places, self.party, step, rows);
        self.steps += 1;
        self.stages = 0;
        Ok(())
    }

    /// Takes the words that it wants. NotOrder exactly where they complete a private order that isn't one, unless memory
    /// is wanting before; after a fault the core is as before.
    pub fn take(&mut self, words: &[u64]) -> Result<(), TakeFault>
        requires { IsWanted (want_of T.answer self.old) words.now }
        ensures took { OnOk result (self.new ≡ took self.old (wanted_from (want_of T.answer self.old)) words.now) }
        ensures order { OnOk result (breaks_order self.old (wanted_from (want_of T.answer self.old)) words.now ≡ false) }
        ensures fault { IfErr result (λ fault. IsTakeFault (breaks_order self.old (wanted_from (want_of T.answer self.old)) words.now) fault) }
        ensures reached { IsReached T.accepts T.answer self.new }
        ensures kept { OnErr result (self.new ≡ self.old) }
    {
        core_facts::<T>();
        let list = self.list;
        let step = &list.steps()[self.steps];
        let rows = step_rows(list, self.steps, step);
        let source = party_taken(&takes_at(self.party, step, rows, self.stages));
        let count = self.supply.received(source).len();
        self.supply.take(source, words)?;
        let goes_on = self.stages + 1 < stage_count(step);
        let taken = self.state.take_stage(
            &self.supply,
            &self.places,
            self.party,
            step,
            rows,
            goes_on,
        );
        if let Err(fault) = taken {
            self.supply.cut(source, count);
            return Err(fault);
        }
        self.turned = false;
        if goes_on {
            self.stages += 1;
            return Ok(());
        }
        self.places = self
            .supply
            .places_behind(&self.places, self.party, step, rows);
        self.steps += 1;
        self.stages = 0;
        Ok(())
    }

    /// Its slots.
    pub fn slots(&self) -> &Vec<Vec<u64>>
        ensures { word_lists result.now ≡ (part_so_far T.answer self.now).slots }
    {
        self.state.slots()
    }

    /// The words that it took of a party, 1 to 3.
    pub fn received(&self, source: u8) -> &Vec<u64>
        requires { IsTrue (is_party source) }
        ensures { result.now.items ≡ at (party_of source) self.now.given.received }
    {
        self.supply.received(party_of(source))
    }
}
