//! Three parties, each by its own core.
#![tactic(auto)]

ghost use Rattle.std.specs.Prelude.{◌≡◌, All, [], IsTrue, MatchBool, IfOk, IfErr, OnOk, OnErr};
ghost use Rattle.step_lists.specs.Draws.{ThreeTapes};
ghost use Rattle.step_lists.specs.Layout.{Steps, party_of};
ghost use Rattle.step_lists.specs.Open.{SlotWords};
ghost use Rattle.step_lists.specs.Rules.{is_party};
ghost use Rattle.joint_machine.specs.Faults.{IsFault};
ghost use Rattle.joint_machine.specs.Left.{draws_of};
ghost use Rattle.party_core.specs.declared.want.Want.TheVariants.{Turn, Words};
ghost use Rattle.party_core.specs.Core.{want_of};
ghost use Rattle.trio.specs.Held.{AreBegun, IsPartRun, IsRun};
ghost use Rattle.trio.specs.RunOf.{EndsAsJoint, IsRunOf, fresh_run};
ghost use Rattle.trio.specs.Running.{HaveEnded, IsWholeRun, by_turn, core_at, in_turns, moved, moved_by, stepped, stepped_by, taken_on};

use crate::laws::{every_order_ends, runs_go_on, runs_keep};
use crate::making::make_cores;
use crate::moves::{between, has_ended, no_outboxes, party_of, take_at, turn_at};
use crate::stepped::Stepped;
use joint_machine::{JointFault, check_run, link_laws};
use lanes::{Party, Three};
use party_core::{Core, Outbox, TakeFault, Want};
use std::alloc::AllocError;
use std::marker::Model;
use step_lists::{Slots, StepList, Task};
use tapes::Tapes;

/// Three parties that carry out a list, each by its own core, and the words that each has sent; seen as these, with the
/// words that were taken among what the cores have.
#[derive(Debug, Drop)]
pub struct Trio<'a, T: Task> {
    cores: Three<Core<'a, T>>,
    sent: Three<Outbox>,
}

impl<'a, T: Task> Model for Trio<'a, T> {
    ghost use Rattle.trio.specs.Running.{Running};
    ghost use Rattle.trio.specs.Held.{IsRun, running};

    ghost Value = { Running T };

    ghost view = { λ t. running t.cores t.sent };

    ghost invariant = { λ t. IsRun T.accepts T.answer (running t.cores t.sent) };
}

impl<'a, T: Task> Trio<'a, T> {
    /// Three parties before the first move, of first slots and three tapes. It is refused as by `check_run`.
    pub fn new(list: &'a StepList<T>, slots: Slots, tapes: Tapes) -> Result<Trio<'a, T>, JointFault>
        ensures trio { IfOk result (λ trio. trio ≡ fresh_run list.now slots (draws_of tapes)) }
        ensures run { IfOk result (λ trio. IsRunOf T.accepts T.answer list.now slots (draws_of tapes) trio) }
        ensures fault { IfErr result (λ fault. IsFault list.now slots (draws_of tapes) fault) }
    {
        runs_keep::<T>();
        let alloc = *slots.party(1).allocator();
        check_run(alloc, list, &slots, &tapes)?;
        let cores = make_cores(alloc, list, slots, tapes)?;
        Ok(Trio {
            cores,
            sent: no_outboxes(alloc),
        })
    }

    /// The core of a party, 1 to 3.
    pub fn core(&self, party: u8) -> &Core<'a, T>
        requires { IsTrue (is_party party) }
        ensures { result.now ≡ core_at (party_of party) self.now }
    {
        self.cores.at(party_of(party))
    }

    /// The words that one party took of another one, each 1 to 3.
    pub fn received(&self, source: u8, target: u8) -> &Vec<u64>
        requires source { IsTrue (is_party source) }
        requires target { IsTrue (is_party target) }
        requires apart { ¬ (source ≡ target) }
        ensures { result.now.items ≡ taken_on (party_of source) (party_of target) self.now }
    {
        self.core(target).received(source)
    }

    /// One move of a party, 1 to 3: the turn that its core wants, or the words that it wants, where so many wait for it.
    /// Where fewer wait, and where the party has ended, nothing changes; nor does it after want of memory.
    pub fn step(&mut self, party: u8) -> Result<Stepped, AllocError>
        requires { IsTrue (is_party party) }
        ensures stepped { IfOk result (λ what. what ≡ stepped T.answer (party_of party) self.old) }
        ensures moved { OnOk result (self.new ≡ moved T.answer (party_of party) self.old) }
        ensures kept { OnErr result (self.new ≡ self.old) }
    {
        let party = party_of(party);
        match self.cores.at(party).want() {
            Want::Turn => {
                self.make_turn(party)?;
                Ok(Stepped::Moved)
            }
            Want::Words { source, count } => self.take_words(party, source, count),
            Want::Done => Ok(Stepped::Ended),
            Want::Stopped { flag: _ } => Ok(Stepped::Ended),
        }
    }

    // The turn that a party wants.
    fn make_turn(&mut self, party: Party) -> Result<(), AllocError>
        requires { want_of T.answer (core_at party self.old) ≡ Turn }
        ensures moved { OnOk result (self.new ≡ by_turn T.answer party self.old) }
        ensures kept { OnErr result (self.new ≡ self.old) }
    {
        runs_keep::<T>();
        link_laws::<T>();
        turn_at(&mut self.cores, &mut self.sent, party)
    }

    // The words that a party wants of another one, where so many wait for it.
    fn take_words(&mut self, party: Party, source: u8, count: usize) -> Result<Stepped, AllocError>
        requires { want_of T.answer (core_at party self.old) ≡ Words source count }
        ensures stepped { IfOk result (λ what. what ≡ stepped_by (Words source count) party self.old) }
        ensures moved { OnOk result (self.new ≡ moved_by T.answer (Words source count) party self.old) }
        ensures kept { OnErr result (self.new ≡ self.old) }
    {
        runs_keep::<T>();
        let taken = self.cores.at(party).received(source).len();
        let waiting = &between(&self.sent, party_of(source), party)[taken..];
        if waiting.len() < count {
            return Ok(Stepped::Waits { source });
        }
        match take_at(&mut self.cores, party, &waiting[..count]) {
            Ok(()) => Ok(Stepped::Moved),
            Err(TakeFault::Memory) => Err(AllocError),
            Err(TakeFault::NotOrder) => unreachable!(),
        }
    }

    /// A step for each of some turns, which are parties 1 to 3, and then rounds of parties 1, 2 and 3 until all have
    /// ended. After want of memory the steps before stay done.
    pub fn run(&mut self, turns: &[u8]) -> Result<(), AllocError>
        requires { All (λ p. IsTrue (is_party p)) turns.now }
        ensures whole { OnOk result (IsWholeRun T.answer turns.now self.old self.new) }
        ensures joint { OnOk result ((list : Steps T) (slots : SlotWords) (tapes : ThreeTapes) → IsRunOf T.accepts T.answer list slots tapes self.old
            → EndsAsJoint T.answer list slots tapes self.new) }
        ensures part { OnErr result (IsPartRun T.answer turns.now self.old self.new) }
    {
        runs_go_on::<T>();
        every_order_ends::<T>();
        self.take_turns(turns)?;
        self.run_on()
    }

    // A step for each of some turns.
    fn take_turns(&mut self, turns: &[u8]) -> Result<(), AllocError>
        requires { All (λ p. IsTrue (is_party p)) turns.now }
        ensures done { OnOk result (self.new ≡ in_turns T.answer turns.now self.old) }
        ensures begun { OnErr result (AreBegun T.answer turns.now self.old self.new) }
    {
        for party in turns {
            self.step(*party)?;
        }
        Ok(())
    }

    // Rounds of the three parties until all have ended.
    fn run_on(&mut self) -> Result<(), AllocError>
        ensures whole { OnOk result (IsWholeRun T.answer [] self.old self.new) }
        ensures part { OnErr result (IsPartRun T.answer [] self.old self.new) }
    {
        runs_keep::<T>();
        runs_go_on::<T>();
        while !self.have_ended() {
            self.take_turns(&[1, 2, 3])?;
        }
        Ok(())
    }

    // Whether all have ended.
    fn have_ended(&self) -> bool
        ensures ended { MatchBool result (HaveEnded T.answer self.now) (¬ HaveEnded T.answer self.now) }
        ensures run { IsRun T.accepts T.answer self.now }
    {
        has_ended(&self.cores.first)
            && has_ended(&self.cores.second)
            && has_ended(&self.cores.third)
    }
}
