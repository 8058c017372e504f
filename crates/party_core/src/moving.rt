//! Registers that are moved by phases, at one party.
#![tactic(auto)]

ghost use Rattle.std.specs.Prelude.{◌≡◌, ℕ, List, IfOk, OnOk};
ghost use Rattle.lanes.specs.Party.{before, next};
ghost use Rattle.lanes.specs.Three.{at};
ghost use Rattle.step_lists.specs.Draws.{words_in};
ghost use Rattle.step_lists.specs.Part.{behind_order, held_order, part_phase, phase_sends};
ghost use Rattle.party_core.specs.Calls.{posted};
ghost use Rattle.party_core.specs.Doing.{posted_of};

use crate::lists::{behind, cut};
use crate::messages::same_party;
use crate::outbox::Outbox;
use crate::pairs::Pair;
use crate::phases::{all_before_j, all_by_j, pairs_before_j, pairs_of_j, pairs_of_masks};
use crate::portion::Portion;
use lanes::{Party, Three};
use std::alloc::{AllocError, Global};
use std::marker::Model;

/// The pairs of the moved registers, and what isn't used yet of the words of both tapes and of those that came.
#[derive(Debug, Drop)]
pub(crate) struct Moving<'a> {
    pairs: Vec<Pair>,
    own: &'a [u64],
    following: &'a [u64],
    received: Three<&'a [u64]>,
}

impl<'a> Model for Moving<'a> {
    ghost use Rattle.step_lists.specs.Part.{PartMoving};
    ghost use Rattle.party_core.specs.Doing.{slices};

    ghost Value = { PartMoving };

    ghost view = { λ m. record { pairs = m.pairs.items; own = m.own.now; following = m.following.now; received = slices m.received } };
}

impl<'a> Moving<'a> {
    /// Before the first phase.
    pub(crate) fn new(pairs: Vec<Pair>, portion: &'a Portion<'_>) -> Moving<'a>
        ensures { result ≡ record { pairs = pairs.items; own = words_in portion.now.own; following = words_in portion.now.following; received = portion.now.received } }
    {
        Moving {
            pairs,
            own: portion.own_words(),
            following: portion.following_words(),
            received: Three {
                first: portion.received(Party::First),
                second: portion.received(Party::Second),
                third: portion.received(Party::Third),
            },
        }
    }

    /// The pairs.
    pub(crate) fn pairs(&self) -> &[Pair]
        ensures { result.now ≡ self.now.pairs }
    {
        self.pairs.as_slice()
    }

    /// The pairs, to be kept.
    pub(crate) fn into_pairs(self) -> Vec<Pair>
        ensures { result.items ≡ self.entry.pairs }
    {
        self.pairs
    }

    /// The words of a party that aren't used yet.
    pub(crate) fn received(&self, source: Party) -> &[u64]
        ensures { result.now ≡ at source self.now.received }
    {
        self.received.at(source)
    }

    // Phase (j, order) at party j.
    fn phase_of_j(
        &mut self,
        alloc: Global,
        j: Party,
        order: &[u64],
        rows: usize,
    ) -> Result<(), AllocError>
        ensures { OnOk result (self.new ≡ part_phase j j order.now rows self.old) }
    {
        let count = self.pairs.len();
        let got = *self.received.at(j.before());
        self.pairs = pairs_of_j(alloc, order, rows, &self.pairs, self.following, got)?;
        self.following = behind(self.following, count, rows);
        self.received.put(j.before(), behind(got, count, rows));
        Ok(())
    }

    // Phase (j, order) at party j - 1.
    fn phase_before_j(
        &mut self,
        alloc: Global,
        j: Party,
        order: &[u64],
        rows: usize,
    ) -> Result<(), AllocError>
        ensures { OnOk result (self.new ≡ part_phase (before j) j order.now rows self.old) }
    {
        let count = self.pairs.len();
        let got = *self.received.at(j);
        self.pairs = pairs_before_j(alloc, order, rows, &self.pairs, self.own, got)?;
        self.own = behind(self.own, count, rows);
        self.received.put(j, behind(got, count, rows));
        Ok(())
    }

    // Phase j at party j + 1.
    fn phase_of_masks(&mut self, alloc: Global, j: Party, rows: usize) -> Result<(), AllocError>
        ensures { (order : List ℕ) → OnOk result (self.new ≡ part_phase (next j) j order rows self.old) }
    {
        let count = self.pairs.len();
        self.pairs = pairs_of_masks(alloc, rows, &self.pairs, self.own, self.following)?;
        self.own = behind(self.own, count, rows);
        self.following = behind(self.following, count, rows);
        Ok(())
    }

    /// Phase (j, order) at a party.
    pub(crate) fn phase(
        &mut self,
        alloc: Global,
        party: Party,
        j: Party,
        order: &[u64],
        rows: usize,
    ) -> Result<(), AllocError>
        ensures { OnOk result (self.new ≡ part_phase party j order.now rows self.old) }
    {
        if same_party(party, j) {
            self.phase_of_j(alloc, j, order, rows)
        } else if same_party(party, j.before()) {
            self.phase_before_j(alloc, j, order, rows)
        } else {
            self.phase_of_masks(alloc, j, rows)
        }
    }

    /// What a party sends in phase (j, order).
    pub(crate) fn sends(
        &self,
        alloc: Global,
        party: Party,
        j: Party,
        order: &[u64],
        rows: usize,
    ) -> Result<Outbox, AllocError>
        ensures { IfOk result (λ out. posted out ≡ posted_of party (phase_sends party j order.now rows self.now)) }
    {
        if same_party(party, j) {
            let words = all_by_j(alloc, order, rows, &self.pairs, self.following)?;
            Ok(Outbox::to(alloc, party, j.before(), words))
        } else if same_party(party, j.before()) {
            let words = all_before_j(alloc, order, rows, &self.pairs, self.own)?;
            Ok(Outbox::to(alloc, party, j, words))
        } else {
            Ok(Outbox::empty(alloc))
        }
    }

    /// A phase with the order that is drawn of tape j.
    pub(crate) fn drawn_phase(
        &mut self,
        alloc: Global,
        party: Party,
        j: Party,
        portion: &Portion<'_>,
        rows: usize,
    ) -> Result<(), AllocError>
        ensures { OnOk result (self.new ≡ part_phase party j (held_order party j portion.now) rows self.old) }
    {
        let order = portion.held_order(alloc, party, j)?;
        self.phase(alloc, party, j, &order, rows)
    }

    /// What a party sends in a phase with the order that is drawn of tape j.
    pub(crate) fn drawn_sends(
        &self,
        alloc: Global,
        party: Party,
        j: Party,
        portion: &Portion<'_>,
        rows: usize,
    ) -> Result<Outbox, AllocError>
        ensures { IfOk result (λ out. posted out ≡ posted_of party (phase_sends party j (held_order party j portion.now) rows self.now)) }
    {
        let order = portion.held_order(alloc, party, j)?;
        self.sends(alloc, party, j, &order, rows)
    }

    /// Lets the words of a Steer's order go, which come before those of its phases.
    pub(crate) fn pass_order(&mut self, party: Party, by: Party, rows: usize)
        ensures { self.new ≡ behind_order party by rows self.old }
    {
        if same_party(party, by.before()) {
            let (_, left) = cut(*self.received.at(by), rows);
            self.received.put(by, left);
        }
    }
}
