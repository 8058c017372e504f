//! The steps that draw: their words and orders are read from the tapes, and the machine goes on by them.
#![tactic(auto)]

ghost use Rattle.std.specs.Prelude.{◌≡◌, ℕ, ◌<◌, OnOk, length, map, slice_index};
ghost use Rattle.lanes.specs.Three.{at, each};
ghost use Rattle.tapes.specs.Order.{IsOrder};
ghost use Rattle.step_lists.specs.Draws.{needs_each, needs_reveal, needs_steer, taken, dropped, words_in};
ghost use Rattle.step_lists.specs.Machine.{shares, slot_of};
ghost use Rattle.joint_machine.specs.Left.{lefts, needs_share, AreNext};
ghost use Rattle.joint_machine.specs.Ready.{HasRows, HaveRows, IsMade};
ghost use Rattle.joint_machine.specs.Steps.{IsAnd, IsShared, IsReveal, IsSteer, register_rows, rows_of_all};

use crate::draws::{draw_masks, draw_reveal, draw_share, draw_steer};
use crate::machine::Machine;
use lanes::{Party, Three};
use std::alloc::AllocError;
use tapes::Cursor;

impl Machine {
    // How many words each share of a register has.
    fn rows(&self, register: u32) -> usize
        requires { IsMade self.now register }
        ensures { result ≡ register_rows self.now register }
    {
        self.register(register).first.len()
    }

    // How many words a slot has.
    fn count_in(&self, party: Party, slot: u32) -> usize
        requires { slot < length (at party self.now.slots) }
        ensures { result ≡ length (slot_of self.now party slot) }
    {
        self.slot(party, slot).len()
    }

    /// The step And.
    pub(crate) fn step_and(
        &mut self,
        left: u32,
        right: u32,
        tapes: &mut Three<Cursor<'_>>,
    ) -> Result<(), AllocError>
        requires made_left { IsMade self.old left }
        requires made_right { IsMade self.old right }
        requires left { HasRows (register_rows self.old left) (shares self.old left) }
        requires right { HasRows (register_rows self.old left) (shares self.old right) }
        requires draws { AreNext (needs_each (register_rows self.old left)) (lefts tapes.old) }
        ensures machine { OnOk result (IsAnd self.old left right (each words_in (taken (needs_each (register_rows self.old left)) (lefts tapes.old))) self.new) }
        ensures left { OnOk result (lefts tapes.new ≡ dropped (needs_each (register_rows self.old left)) (lefts tapes.old)) }
    {
        let masks = draw_masks(tapes, self.rows(left));
        self.push_and(left, right, &masks)
    }

    /// The step Share.
    pub(crate) fn step_share(
        &mut self,
        party: Party,
        slot: u32,
        tapes: &mut Three<Cursor<'_>>,
    ) -> Result<(), AllocError>
        requires made { slot < length (at party self.old.slots) }
        requires draws { AreNext (needs_share party (length (slot_of self.old party slot))) (lefts tapes.old) }
        ensures machine { OnOk result (IsShared self.old party slot (taken (needs_share party (length (slot_of self.old party slot))) (lefts tapes.old)) self.new) }
        ensures left { OnOk result (lefts tapes.new ≡ dropped (needs_share party (length (slot_of self.old party slot))) (lefts tapes.old)) }
    {
        let (own, following) = draw_share(tapes, party, self.count_in(party, slot));
        self.push_share(party, slot, own, following)
    }

    /// The step Reveal.
    pub(crate) fn step_reveal(
        &mut self,
        to: Party,
        moved: &[u32],
        shown: &[u32],
        tapes: &mut Three<Cursor<'_>>,
    ) -> Result<(), AllocError>
        requires some { 0 < length moved.now }
        requires made { (k : ℕ) → k < length moved.now → IsMade self.old (slice_index moved.now k) }
        requires rows { HaveRows (rows_of_all self.old moved.now) (map (shares self.old) moved.now) }
        requires shown { (k : ℕ) → k < length shown.now → slice_index shown.now k < length moved.now }
        requires draws { AreNext (needs_reveal (length moved.now) (rows_of_all self.old moved.now)) (lefts tapes.old) }
        ensures machine { OnOk result (IsReveal self.old (rows_of_all self.old moved.now) to moved.now shown.now (taken (needs_reveal (length moved.now) (rows_of_all self.old moved.now)) (lefts tapes.old)) self.new) }
        ensures left { OnOk result (lefts tapes.new ≡ dropped (needs_reveal (length moved.now) (rows_of_all self.old moved.now)) (lefts tapes.old)) }
    {
        let rows = self.rows(moved[0]);
        let draws = draw_reveal(tapes, moved.len(), rows)?;
        self.push_reveal(to, moved, shown, &draws.one, &draws.two, &draws.three)?;
        Ok(())
    }

    /// The step Steer.
    pub(crate) fn step_steer(
        &mut self,
        by: Party,
        slot: u32,
        moved: &[u32],
        tapes: &mut Three<Cursor<'_>>,
    ) -> Result<(), AllocError>
        requires some { 0 < length moved.now }
        requires made { (k : ℕ) → k < length moved.now → IsMade self.old (slice_index moved.now k) }
        requires rows { HaveRows (rows_of_all self.old moved.now) (map (shares self.old) moved.now) }
        requires slot { slot < length (at by self.old.slots) }
        requires order { IsOrder (slot_of self.old by slot) }
        requires long { length (slot_of self.old by slot) ≡ rows_of_all self.old moved.now }
        requires draws { AreNext (needs_steer by (length moved.now) (rows_of_all self.old moved.now)) (lefts tapes.old) }
        ensures machine { OnOk result (IsSteer self.old (rows_of_all self.old moved.now) by (slot_of self.old by slot) moved.now (taken (needs_steer by (length moved.now) (rows_of_all self.old moved.now)) (lefts tapes.old)) self.new) }
        ensures left { OnOk result (lefts tapes.new ≡ dropped (needs_steer by (length moved.now) (rows_of_all self.old moved.now)) (lefts tapes.old)) }
    {
        let rows = self.rows(moved[0]);
        let draws = draw_steer(tapes, by, moved.len(), rows)?;
        self.push_steer(by, slot, moved, &draws.one, draws.mask, draws.other)?;
        Ok(())
    }
}
