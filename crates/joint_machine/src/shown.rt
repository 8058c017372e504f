//! What is shown of registers behind the phases of a Reveal.
#![tactic(auto)]

ghost use Rattle.std.specs.Prelude.{◌≡◌, ℕ, ◌<◌, IfOk, OnOk, length, map, slice_index};
ghost use Rattle.std.specs.List.{flat_map};
ghost use Rattle.lanes.specs.Party.{next, before};
ghost use Rattle.lanes.specs.Three.{at, opened};
ghost use Rattle.step_lists.specs.Machine.{with_more_slots, delivered};
ghost use Rattle.step_lists.specs.Phases.{message};
ghost use Rattle.step_lists.specs.Shapes.{word_lists};
ghost use Rattle.joint_machine.specs.Ready.{HasRows, HaveRows};
ghost use Rattle.joint_machine.specs.Seen.{lists};
ghost use Rattle.joint_machine.specs.Steps.{shown_of};

use crate::machine::Machine;
use lanes::{Party, Three, item_laws, xor_into};
use std::alloc::{AllocError, Global};

/// What three shares stand for.
pub fn open(alloc: Global, shares: &Three<Vec<u64>>) -> Result<Vec<u64>, AllocError>
    requires { HasRows (length shares.now.first.items) (lists shares.now) }
    ensures { IfOk result (λ words. words.items ≡ opened (lists shares.now)) }
{
    item_laws();
    let mut words = Vec::from_slice(alloc, &shares.first)?;
    xor_into(&mut words, &shares.second);
    xor_into(&mut words, &shares.third);
    Ok(words)
}

// A party's share of the shown registers, one behind the other.
fn shown_share(
    alloc: Global,
    party: Party,
    shares: &[Three<Vec<u64>>],
    shown: &[u32],
) -> Result<Vec<u64>, AllocError>
    requires { (k : ℕ) → k < length shown.now → slice_index shown.now k < length shares.now }
    ensures { IfOk result (λ words. words.items ≡ flat_map (at party) (shown_of (map lists shares.now) shown.now)) }
{
    let mut words = Vec::new(alloc);
    for place in shown {
        words.extend_from_slice(shares[*place as usize].at(party))?;
    }
    Ok(words)
}

// What the shown registers stand for.
fn open_shown(
    alloc: Global,
    shares: &[Three<Vec<u64>>],
    shown: &[u32],
    rows: usize,
) -> Result<Vec<Vec<u64>>, AllocError>
    requires made { (k : ℕ) → k < length shown.now → slice_index shown.now k < length shares.now }
    requires rows { HaveRows rows (map lists shares.now) }
    ensures { IfOk result (λ made. word_lists made ≡ map opened (shown_of (map lists shares.now) shown.now)) }
{
    let mut made = Vec::with_capacity(alloc, shown.len())?;
    for place in shown {
        made.push(open(alloc, &shares[*place as usize])?)?;
    }
    Ok(made)
}

impl Machine {
    /// The party misses one share of each register: the next party sends those of the shown ones, and each of them
    /// becomes a slot.
    pub(crate) fn show(
        &mut self,
        party: Party,
        shares: &[Three<Vec<u64>>],
        shown: &[u32],
        rows: usize,
    ) -> Result<(), AllocError>
        requires made { (k : ℕ) → k < length shown.now → slice_index shown.now k < length shares.now }
        requires rows { HaveRows rows (map lists shares.now) }
        ensures { OnOk result (self.new ≡ with_more_slots
            (delivered (message (next party) party (flat_map (at (before party)) (shown_of (map lists shares.now) shown.now))) self.old)
            party (map opened (shown_of (map lists shares.now) shown.now))) }
    {
        let alloc = self.allocator();
        let words = shown_share(alloc, party.before(), shares, shown)?;
        self.send(party.next(), party, &words)?;
        let slots = open_shown(alloc, shares, shown, rows)?;
        self.push_slots(party, slots)
    }
}
