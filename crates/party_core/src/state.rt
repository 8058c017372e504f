//! What a party has between two steps: pairs of shares, slots, and how many flags it passed.
#![tactic(auto)]

ghost use Rattle.std.specs.Prelude.{◌≡◌, ◌<◌, ◌+◌, ◌^◌, ◌∷◌, [], true, suc, IfOk, OnErr, OnOk, map, if◌then◌else◌};
ghost use Rattle.step_lists.specs.Open.{item};
ghost use Rattle.step_lists.specs.Part.{pair_at, part_before, with_own_slots, with_pairs};
ghost use Rattle.step_lists.specs.Shapes.{word_lists};
ghost use Rattle.party_core.specs.Doing.{share_at};

use crate::pairs::Pair;
use std::alloc::{AllocError, Global};
use std::marker::Model;

/// Which of the two shares of a register.
#[derive(Clone, Copy, Debug)]
pub(crate) enum Side {
    /// The party's own.
    Own,
    /// The following party's.
    Following,
}

/// Pairs of registers, slots, how many flags were passed, and whether the next one stopped the list; seen as a part that
/// has sent and taken nothing.
#[derive(Debug, Drop)]
pub(crate) struct State {
    pairs: Vec<Pair>,
    slots: Vec<Vec<u64>>,
    flags: u32,
    stop: bool,
}

impl Model for State {
    ghost use Rattle.step_lists.specs.Part.{Part};
    ghost use Rattle.party_core.specs.Holding.{kept};
    ghost use Rattle.step_lists.specs.Shapes.{word_lists};

    ghost Value = { Part };

    ghost view = { λ s. kept s.pairs.items (word_lists s.slots) s.flags s.stop };
}

impl State {
    /// Before the first step, with these first slots.
    pub(crate) fn new(alloc: Global, slots: Vec<Vec<u64>>) -> State
        ensures { result ≡ part_before (word_lists slots) }
    {
        State {
            pairs: Vec::new(alloc),
            slots,
            flags: 0,
            stop: false,
        }
    }

    /// Whether a flag stopped the list.
    pub(crate) fn is_stopped(&self) -> bool
        ensures { result ≡ self.now.stop }
    {
        self.stop
    }

    /// How many flags were passed.
    pub(crate) fn flags(&self) -> u32
        ensures { result ≡ self.now.flags }
    {
        self.flags
    }

    /// The slots.
    pub(crate) fn slots(&self) -> &Vec<Vec<u64>>
        ensures { word_lists result.now ≡ self.now.slots }
    {
        &self.slots
    }

    /// A share of a register, no words where it wasn't made.
    pub(crate) fn share(&self, side: Side, register: u32) -> &[u64]
        ensures { result.now ≡ share_at side self.now register }
    {
        match self.pairs.get(register as usize) {
            Some(pair) => match side {
                Side::Own => pair.own(),
                Side::Following => pair.following(),
            },
            None => &[],
        }
    }

    /// The words of a slot, none where it wasn't made.
    pub(crate) fn slot(&self, slot: u32) -> &[u64]
        ensures { result.now ≡ item self.now.slots slot }
    {
        match self.slots.get(slot as usize) {
            Some(words) => words.as_slice(),
            None => &[],
        }
    }

    // A register's pair in memory of its own.
    fn copy_pair(&self, alloc: Global, register: u32) -> Result<Pair, AllocError>
        ensures { IfOk result (λ pair. pair ≡ pair_at self.now register) }
    {
        match self.pairs.get(register as usize) {
            Some(pair) => pair.copy(alloc),
            None => Ok(Pair::empty(alloc)),
        }
    }

    /// The pairs of some registers in memory of their own.
    pub(crate) fn copy_pairs(
        &self,
        alloc: Global,
        registers: &[u32],
    ) -> Result<Vec<Pair>, AllocError>
        ensures { IfOk result (λ pairs. pairs.items ≡ map (pair_at self.now) registers.now) }
    {
        let mut pairs = Vec::with_capacity(alloc, registers.len())?;
        for register in registers {
            pairs.push(self.copy_pair(alloc, *register)?)?;
        }
        Ok(pairs)
    }

    /// The words of some slots in memory of their own.
    pub(crate) fn copy_slots(
        &self,
        alloc: Global,
        slots: &[u32],
    ) -> Result<Vec<Vec<u64>>, AllocError>
        ensures { IfOk result (λ made. word_lists made ≡ map (item self.now.slots) slots.now) }
    {
        let mut made = Vec::with_capacity(alloc, slots.len())?;
        for slot in slots {
            made.push(Vec::from_slice(alloc, self.slot(*slot))?)?;
        }
        Ok(made)
    }

    /// One more register of this pair.
    pub(crate) fn push_pair(&mut self, pair: Pair) -> Result<(), AllocError>
        ensures pushed { OnOk result (self.new ≡ with_pairs self.old (pair ∷ [])) }
        ensures kept { OnErr result (self.new ≡ self.old) }
    {
        self.pairs.push(pair)?;
        Ok(())
    }

    /// More registers of these pairs.
    pub(crate) fn push_pairs(&mut self, mut pairs: Vec<Pair>) -> Result<(), AllocError>
        ensures pushed { OnOk result (self.new ≡ with_pairs self.old pairs.items) }
        ensures kept { OnErr result (self.new ≡ self.old) }
    {
        self.pairs.append(&mut pairs)?;
        Ok(())
    }

    /// More slots.
    pub(crate) fn push_slots(&mut self, mut slots: Vec<Vec<u64>>) -> Result<(), AllocError>
        ensures pushed { OnOk result (self.new ≡ with_own_slots true self.old (word_lists slots)) }
        ensures kept { OnErr result (self.new ≡ self.old) }
    {
        self.slots.append(&mut slots)?;
        Ok(())
    }

    /// More registers, and more slots.
    pub(crate) fn push_both(
        &mut self,
        mut pairs: Vec<Pair>,
        mut slots: Vec<Vec<u64>>,
    ) -> Result<(), AllocError>
        ensures pushed { OnOk result (self.new ≡ with_own_slots true (with_pairs self.old pairs.items) (word_lists slots)) }
        ensures kept { OnErr result (self.new ≡ self.old) }
    {
        self.pairs.reserve(pairs.len())?;
        self.slots.append(&mut slots)?;
        self.pairs.append(&mut pairs).unwrap();
        Ok(())
    }

    /// One more flag that was passed, or the stop.
    pub(crate) fn count_flag(&mut self, passed: bool)
        requires { self.old.flags + 1 < 2 ^ 32 }
        ensures { self.new ≡ (if passed then record self.old { flags = suc self.old.flags } else record self.old { stop = true }) }
    {
        if passed {
            self.flags += 1;
        } else {
            self.stop = true;
        }
    }
}
