//! What three parties have between two steps: shares of registers, slots, and words sent.
#![tactic(auto)]

ghost use Rattle.std.specs.Prelude.{◌≡◌, ◌<◌, ◌+◌, ◌^◌, [], ◌∷◌, suc, true, map, length, slice_get, OnOk, if◌then◌else◌};
ghost use Rattle.std.specs.Option.{option_map};
ghost use Rattle.lanes.specs.Three.{at, each};
ghost use Rattle.step_lists.specs.Machine.{before_steps, shares, slot_of, with_shares, with_more_slots, delivered};
ghost use Rattle.step_lists.specs.Open.{stopped_at};
ghost use Rattle.step_lists.specs.Phases.{link, message};
ghost use Rattle.step_lists.specs.Shapes.{word_lists};
ghost use Rattle.joint_machine.specs.Seen.{lists};

use crate::links::Links;
use lanes::{Party, Three};
use std::alloc::{AllocError, Global};
use std::marker::Model;

/// Three shares of each register, the slots of each party, the words on the links, how many flags were passed, and
/// whether the next one stopped the run.
#[derive(Debug, Drop)]
pub struct Machine {
    registers: Vec<Three<Vec<u64>>>,
    slots: Three<Vec<Vec<u64>>>,
    links: Links,
    flags: u32,
    stop: bool,
}

impl Model for Machine {
    ghost use Rattle.std.specs.Prelude.{map};
    ghost use Rattle.lanes.specs.Three.{each};
    ghost use Rattle.step_lists.specs.Machine.{Machine};
    ghost use Rattle.step_lists.specs.Shapes.{word_lists};
    ghost use Rattle.joint_machine.specs.Seen.{lists};

    ghost Value = { Machine };

    ghost view = { λ m. record {
      registers = map lists m.registers.items;
      slots = each word_lists m.slots;
      links = m.links;
      flags = m.flags;
      stop = m.stop;
    } };
}

impl Machine {
    /// Before the first step, with these first slots.
    pub(crate) fn new(alloc: Global, slots: Three<Vec<Vec<u64>>>) -> Machine
        ensures { result ≡ before_steps (each word_lists slots) }
    {
        Machine {
            registers: Vec::new(alloc),
            slots,
            links: Links::new(alloc),
            flags: 0,
            stop: false,
        }
    }

    /// Whether a flag stopped the run.
    pub fn is_stopped(&self) -> bool
        ensures { result ≡ self.now.stop }
    {
        self.stop
    }

    /// The number of the flag that stopped the run.
    pub(crate) fn stopped(&self) -> Option<u32>
        ensures { result ≡ stopped_at self.now.stop self.now.flags }
    {
        if self.stop { Some(self.flags) } else { None }
    }

    /// The words that one party sent to another one.
    pub(crate) fn sent(&self, source: Party, target: Party) -> &Vec<u64>
        ensures { result.now.items ≡ link source target self.now.links }
    {
        self.links.between(source, target)
    }

    /// A slot, `None` where it wasn't made.
    pub(crate) fn find_slot(&self, party: Party, slot: u32) -> Option<&Vec<u64>>
        ensures { option_map (λ words. words.now.items) result ≡ slice_get (at party self.now.slots) slot }
    {
        self.slots.at(party).get(slot as usize)
    }

    pub(crate) fn allocator(&self) -> Global {
        *self.registers.allocator()
    }

    /// The shares of a register.
    pub fn register(&self, register: u32) -> &Three<Vec<u64>>
        requires { register < length self.now.registers }
        ensures { lists result.now ≡ shares self.now register }
    {
        &self.registers[register as usize]
    }

    /// One more register of these shares.
    pub(crate) fn push_register(&mut self, shares: Three<Vec<u64>>) -> Result<(), AllocError>
        ensures { OnOk result (self.new ≡ with_shares self.old (lists shares ∷ [])) }
    {
        self.registers.push(shares)?;
        Ok(())
    }

    /// More registers of these shares.
    pub(crate) fn push_registers(
        &mut self,
        mut more: Vec<Three<Vec<u64>>>,
    ) -> Result<(), AllocError>
        ensures { OnOk result (self.new ≡ with_shares self.old (map lists more.items)) }
    {
        self.registers.append(&mut more)?;
        Ok(())
    }

    /// The words of a slot.
    pub fn slot(&self, party: Party, slot: u32) -> &Vec<u64>
        requires { slot < length (at party self.now.slots) }
        ensures { result.now.items ≡ slot_of self.now party slot }
    {
        &self.slots.at(party)[slot as usize]
    }

    /// One more slot of a party.
    pub(crate) fn push_slot(&mut self, party: Party, words: Vec<u64>) -> Result<(), AllocError>
        ensures { OnOk result (self.new ≡ with_more_slots self.old party (words.items ∷ [])) }
    {
        match party {
            Party::First => self.slots.first.push(words)?,
            Party::Second => self.slots.second.push(words)?,
            Party::Third => self.slots.third.push(words)?,
        }
        Ok(())
    }

    /// More slots of a party.
    pub(crate) fn push_slots(
        &mut self,
        party: Party,
        mut more: Vec<Vec<u64>>,
    ) -> Result<(), AllocError>
        ensures { OnOk result (self.new ≡ with_more_slots self.old party (word_lists more)) }
    {
        match party {
            Party::First => self.slots.first.append(&mut more)?,
            Party::Second => self.slots.second.append(&mut more)?,
            Party::Third => self.slots.third.append(&mut more)?,
        }
        Ok(())
    }

    /// One more flag that was passed, or the stop.
    pub(crate) fn count_flag(&mut self, passed: bool)
        requires { self.old.flags + 1 < 2 ^ 32 }
        ensures { self.new ≡ (if passed then record self.old { flags = suc self.old.flags } else record self.old { stop = true }) }
    {
        if passed {
            self.flags += 1;
        } else {
            self.stop = true;
        }
    }

    /// More words from one party to another one.
    pub(crate) fn send(
        &mut self,
        source: Party,
        target: Party,
        words: &[u64],
    ) -> Result<(), AllocError>
        ensures { OnOk result (self.new ≡ delivered (message source target words.now) self.old) }
    {
        self.links.send(source, target, words)
    }
}
