//! The steps Const and Lin at one party, which it does on its own shares.
#![tactic(auto)]

ghost use Rattle.std.specs.Prelude.{◌≡◌, ◌≤◌, ◌∷◌, [], IfOk, OnErr, OnOk, bit_and};
ghost use Rattle.std.specs.List.{flat_map};
ghost use Rattle.lanes.specs.Lanes.{lanewise1, nots, picked};
ghost use Rattle.lanes.specs.Party.{next};
ghost use Rattle.lanes.specs.Shifts.{shifted_left, shifted_right, spread_word};
ghost use Rattle.step_lists.specs.Lin.{lin_share};
ghost use Rattle.step_lists.specs.Machine.{const_share};
ghost use Rattle.step_lists.specs.Part.{pair_at, with_pairs};
ghost use Rattle.party_core.specs.Doing.{IsShift, share_at};

use crate::lists::{word_at, xored};
use crate::pairs::Pair;
use crate::state::{Side, State};
use lanes::Party;
use std::alloc::{AllocError, Global};
use step_lists::LinOp;

// A party's share of words that all know.
fn const_share(alloc: Global, party: Party, words: &[u64]) -> Result<Vec<u64>, AllocError>
    ensures { IfOk result (λ made. made.items ≡ const_share party words.now) }
{
    match party {
        Party::First => Vec::from_slice(alloc, words),
        Party::Second => vec![in alloc; 0; words.len()],
        Party::Third => vec![in alloc; 0; words.len()],
    }
}

fn turned(alloc: Global, words: &[u64]) -> Result<Vec<u64>, AllocError>
    ensures { IfOk result (λ made. made.items ≡ nots words.now) }
{
    words.iter().map(|word| !*word).collect(alloc)
}

fn shifted_left(alloc: Global, words: &[u64], by: u32) -> Result<Vec<u64>, AllocError>
    requires { by ≤ 63 }
    ensures { IfOk result (λ made. made.items ≡ lanewise1 (shifted_left by) words.now) }
{
    words.iter().map(|word| *word << by).collect(alloc)
}

fn shifted_right(alloc: Global, words: &[u64], by: u32) -> Result<Vec<u64>, AllocError>
    requires { by ≤ 63 }
    ensures { IfOk result (λ made. made.items ≡ lanewise1 (shifted_right by) words.now) }
{
    words.iter().map(|word| *word >> by).collect(alloc)
}

fn masked(alloc: Global, words: &[u64], mask: u64) -> Result<Vec<u64>, AllocError>
    ensures { IfOk result (λ made. made.items ≡ lanewise1 (λ x. bit_and x mask) words.now) }
{
    words.iter().map(|word| *word & mask).collect(alloc)
}

fn spread(alloc: Global, words: &[u64]) -> Result<Vec<u64>, AllocError>
    ensures { IfOk result (λ made. made.items ≡ lanewise1 spread_word words.now) }
{
    words
        .iter()
        .map(|word| (*word % 2) * u64::MAX)
        .collect(alloc)
}

// The words of a share at these places, 0 where there is none.
fn picked(alloc: Global, places: &[u32], words: &[u64]) -> Result<Vec<u64>, AllocError>
    ensures { IfOk result (λ made. made.items ≡ picked places.now words.now) }
{
    let mut made = Vec::with_capacity(alloc, places.len())?;
    for place in places {
        made.push(word_at(words, *place as u64))?;
    }
    Ok(made)
}

// One side's share of some registers, one behind the other.
fn joined(
    alloc: Global,
    side: Side,
    registers: &[u32],
    state: &State,
) -> Result<Vec<u64>, AllocError>
    ensures { IfOk result (λ words. words.items ≡ flat_map (λ r. share_at side state.now r) registers.now) }
{
    let mut words = Vec::new(alloc);
    for register in registers {
        words.extend_from_slice(state.share(side, *register))?;
    }
    Ok(words)
}

// What a party makes of one of its two shares of registers: its own, or the following party's.
fn lin_share(
    alloc: Global,
    party: Party,
    op: &LinOp,
    side: Side,
    state: &State,
) -> Result<Vec<u64>, AllocError>
    requires { IsShift op.now }
    ensures { IfOk result (λ made. made.items ≡ lin_share party op.now (λ r. share_at side state.now r)) }
{
    match op {
        LinOp::Xor(left, right) => {
            xored(alloc, state.share(side, *left), state.share(side, *right))
        }
        LinOp::Not(register) => {
            let words = state.share(side, *register);
            match party {
                Party::First => turned(alloc, words),
                Party::Second => Vec::from_slice(alloc, words),
                Party::Third => Vec::from_slice(alloc, words),
            }
        }
        LinOp::Left(register, by) => shifted_left(alloc, state.share(side, *register), *by),
        LinOp::Right(register, by) => shifted_right(alloc, state.share(side, *register), *by),
        LinOp::Mask(register, word) => masked(alloc, state.share(side, *register), *word),
        LinOp::Spread(register) => spread(alloc, state.share(side, *register)),
        LinOp::Gather { sources, places } => {
            let words = joined(alloc, side, sources.as_slice(), state)?;
            picked(alloc, places.as_slice(), &words)
        }
    }
}

impl State {
    /// Carries out a Const.
    pub(crate) fn push_const(
        &mut self,
        alloc: Global,
        party: Party,
        words: &[u64],
    ) -> Result<(), AllocError>
        ensures done { OnOk result (self.new ≡ with_pairs self.old (record { own = const_share party words.now; following = const_share (next party) words.now } ∷ [])) }
        ensures kept { OnErr result (self.new ≡ self.old) }
    {
        let own = const_share(alloc, party, words)?;
        let following = const_share(alloc, party.next(), words)?;
        self.push_pair(Pair::new(own, following))
    }

    /// Carries out a Lin.
    pub(crate) fn push_lin(
        &mut self,
        alloc: Global,
        party: Party,
        op: &LinOp,
    ) -> Result<(), AllocError>
        requires { IsShift op.now }
        ensures done { OnOk result (self.new ≡ with_pairs self.old (record { own = lin_share party op.now (λ r. (pair_at self.old r).own); following = lin_share (next party) op.now (λ r. (pair_at self.old r).following) } ∷ [])) }
        ensures kept { OnErr result (self.new ≡ self.old) }
    {
        let own = lin_share(alloc, party, op, Side::Own, self)?;
        let following = lin_share(alloc, party.next(), op, Side::Following, self)?;
        self.push_pair(Pair::new(own, following))
    }
}
