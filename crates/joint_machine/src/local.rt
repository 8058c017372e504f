//! What each party does on its own shares.
#![tactic(auto)]

ghost use Rattle.std.specs.Prelude.{◌≡◌, ℕ, ◌<◌, ◌≤◌, [], ◌∷◌, IfOk, OnOk, bit_and, length, map, slice_index};
ghost use Rattle.std.specs.List.{flat_map};
ghost use Rattle.lanes.specs.Lanes.{lanewise1, nots, picked};
ghost use Rattle.lanes.specs.Shifts.{shifted_left, shifted_right, spread_word};
ghost use Rattle.lanes.specs.Three.{at};
ghost use Rattle.lanes.specs.declared.party.Party.{Party};
ghost use Rattle.step_lists.specs.Draws.{parties};
ghost use Rattle.step_lists.specs.Lin.{lin_share};
ghost use Rattle.step_lists.specs.Machine.{const_share, shares, with_shares};
ghost use Rattle.joint_machine.specs.Seen.{lists};
ghost use Rattle.joint_machine.specs.Ready.{IsReadyLin};

use crate::machine::Machine;
use lanes::{Party, Three, pick_words, xor_words};
use std::alloc::{AllocError, Global};
use step_lists::LinOp;

// The shares of words that all know.
fn const_shares(alloc: Global, words: &[u64]) -> Result<Three<Vec<u64>>, AllocError>
    ensures { IfOk result (λ made. lists made ≡ parties (λ i. const_share i words.now)) }
{
    Ok(Three {
        first: Vec::from_slice(alloc, words)?,
        second: vec![in alloc; 0; words.len()]?,
        third: vec![in alloc; 0; words.len()]?,
    })
}

fn turned(alloc: Global, words: &[u64]) -> Result<Vec<u64>, AllocError>
    ensures { IfOk result (λ made. made.items ≡ nots words.now) }
{
    words.iter().map(|word| !*word).collect(alloc)
}

fn shifted_left(alloc: Global, words: &[u64], by: u32) -> Result<Vec<u64>, AllocError>
    requires { by ≤ 63 }
    ensures { IfOk result (λ made. made.items ≡ lanewise1 (shifted_left by) words.now) }
{
    words.iter().map(|word| *word << by).collect(alloc)
}

fn shifted_right(alloc: Global, words: &[u64], by: u32) -> Result<Vec<u64>, AllocError>
    requires { by ≤ 63 }
    ensures { IfOk result (λ made. made.items ≡ lanewise1 (shifted_right by) words.now) }
{
    words.iter().map(|word| *word >> by).collect(alloc)
}

fn masked(alloc: Global, words: &[u64], mask: u64) -> Result<Vec<u64>, AllocError>
    ensures { IfOk result (λ made. made.items ≡ lanewise1 (λ x. bit_and x mask) words.now) }
{
    words.iter().map(|word| *word & mask).collect(alloc)
}

fn spread(alloc: Global, words: &[u64]) -> Result<Vec<u64>, AllocError>
    ensures { IfOk result (λ made. made.items ≡ lanewise1 spread_word words.now) }
{
    words
        .iter()
        .map(|word| (*word % 2) * u64::MAX)
        .collect(alloc)
}

impl Machine {
    /// A register of words that all know.
    pub(crate) fn push_const(&mut self, words: &[u64]) -> Result<(), AllocError>
        ensures { OnOk result (self.new ≡ with_shares self.old (parties (λ i. const_share i words.now) ∷ [])) }
    {
        let made = const_shares(self.allocator(), words)?;
        self.push_register(made)
    }

    // A party's share of some registers, one behind the other.
    fn joined_shares(&self, party: Party, sources: &[u32]) -> Result<Vec<u64>, AllocError>
        requires { (k : ℕ) → k < length sources.now → slice_index sources.now k < length self.now.registers }
        ensures { IfOk result (λ made. made.items ≡ flat_map (λ r. at party (shares self.now r)) sources.now) }
    {
        let mut joined = Vec::new(self.allocator());
        for source in sources {
            joined.extend_from_slice(self.register(*source).at(party))?;
        }
        Ok(joined)
    }
}

impl Machine {
    // What a party makes of its share of one register.
    fn lin_share(&self, party: Party, op: &LinOp) -> Result<Vec<u64>, AllocError>
        requires { IsReadyLin self.now party op.now }
        ensures { IfOk result (λ made. made.items ≡ lin_share party op.now (λ r. at party (shares self.now r))) }
    {
        let alloc = self.allocator();
        match op {
            LinOp::Xor(left, right) => {
                let left = self.register(*left).at(party);
                let right = self.register(*right).at(party);
                Ok(xor_words(alloc, left, right)?.into_vec())
            }
            LinOp::Not(register) => {
                let words = self.register(*register).at(party);
                match party {
                    Party::First => turned(alloc, words),
                    Party::Second => Vec::from_slice(alloc, words),
                    Party::Third => Vec::from_slice(alloc, words),
                }
            }
            LinOp::Left(register, by) => {
                shifted_left(alloc, self.register(*register).at(party), *by)
            }
            LinOp::Right(register, by) => {
                shifted_right(alloc, self.register(*register).at(party), *by)
            }
            LinOp::Mask(register, word) => masked(alloc, self.register(*register).at(party), *word),
            LinOp::Spread(register) => spread(alloc, self.register(*register).at(party)),
            LinOp::Gather { sources, places } => {
                let joined = self.joined_shares(party, sources.as_slice())?;
                Ok(pick_words(alloc, &joined, places.as_slice())?.into_vec())
            }
        }
    }

    /// A register of an operation on registers.
    pub(crate) fn push_lin(&mut self, op: &LinOp) -> Result<(), AllocError>
        requires { (p : Party) → IsReadyLin self.old p op.now }
        ensures { OnOk result (self.new ≡ with_shares self.old (parties (λ i. lin_share i op.now (λ r. at i (shares self.old r))) ∷ [])) }
    {
        let made = Three {
            first: self.lin_share(Party::First, op)?,
            second: self.lin_share(Party::Second, op)?,
            third: self.lin_share(Party::Third, op)?,
        };
        self.push_register(made)
    }
}
