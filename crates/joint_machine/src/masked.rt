//! And and Share: new shares under masks, and what is sent of them.
#![tactic(auto)]

ghost use Rattle.std.specs.Prelude.{◌≡◌, ℕ, ◌<◌, ◌≤◌, [], ◌∷◌, IfOk, OnOk, length, slice_index, List};
ghost use Rattle.lanes.specs.declared.party.Party.{Party};
ghost use Rattle.lanes.specs.declared.three.Three.{Three};
ghost use Rattle.lanes.specs.Lanes.{crosses, xors};
ghost use Rattle.lanes.specs.Party.{next, before};
ghost use Rattle.lanes.specs.SharedAnd.{and_shares};
ghost use Rattle.lanes.specs.Three.{at, put};
ghost use Rattle.step_lists.specs.Draws.{nothing};
ghost use Rattle.step_lists.specs.Machine.{shares, slot_of};
ghost use Rattle.joint_machine.specs.Steps.{IsAnd, IsShare};
ghost use Rattle.joint_machine.specs.Ready.{HasRows, IsMade};
ghost use Rattle.joint_machine.specs.Seen.{lists, slices};

use crate::machine::Machine;
use lanes::{Party, Three, item_laws, shared_and, xor_into};
use std::alloc::{AllocError, Global};

// One lane of a party's new share: its part of the products, under its own mask and the next party's.
fn masked_lane(
    own: &[u64],
    next: &[u64],
    other_own: &[u64],
    other_next: &[u64],
    mask: &[u64],
    next_mask: &[u64],
    i: usize,
) -> u64
    requires lane { i < length own.now }
    requires next { length next.now ≡ length own.now }
    requires other_own { length other_own.now ≡ length own.now }
    requires other_next { length other_next.now ≡ length own.now }
    requires mask { length mask.now ≡ length own.now }
    requires next_mask { length next_mask.now ≡ length own.now }
    ensures { result ≡ slice_index (xors (xors (crosses own.now next.now other_own.now other_next.now) mask.now) next_mask.now) i }
{
    item_laws();
    shared_and(own[i], next[i], other_own[i], other_next[i]) ^ mask[i] ^ next_mask[i]
}

// The three lists of a register, lent.
fn lend(shares: &Three<Vec<u64>>) -> Three<&[u64]>
    ensures { slices result ≡ lists shares.now }
{
    Three {
        first: shares.first.as_slice(),
        second: shares.second.as_slice(),
        third: shares.third.as_slice(),
    }
}

// The three new shares of an and, in one pass over the words.
fn and_shares(
    alloc: Global,
    s: &Three<&[u64]>,
    t: &Three<&[u64]>,
    masks: &Three<&[u64]>,
) -> Result<Three<Vec<u64>>, AllocError>
    requires left { HasRows (length masks.now.first.now) (slices s.now) }
    requires right { HasRows (length masks.now.first.now) (slices t.now) }
    requires masks { HasRows (length masks.now.first.now) (slices masks.now) }
    ensures { IfOk result (λ made. lists made ≡ and_shares (slices s.now) (slices t.now) (slices masks.now)) }
{
    item_laws();
    let count = masks.first.len();
    let mut first = Vec::with_capacity(alloc, count)?;
    let mut second = Vec::with_capacity(alloc, count)?;
    let mut third = Vec::with_capacity(alloc, count)?;
    for i in 0..count {
        first.push(masked_lane(
            s.first,
            s.second,
            t.first,
            t.second,
            masks.first,
            masks.second,
            i,
        ))?;
        second.push(masked_lane(
            s.second,
            s.third,
            t.second,
            t.third,
            masks.second,
            masks.third,
            i,
        ))?;
        third.push(masked_lane(
            s.third,
            s.first,
            t.third,
            t.first,
            masks.third,
            masks.first,
            i,
        ))?;
    }
    Ok(Three {
        first,
        second,
        third,
    })
}

// Words less one mask and another one.
fn under_masks(
    alloc: Global,
    words: &[u64],
    mask: &[u64],
    other: &[u64],
) -> Result<Vec<u64>, AllocError>
    requires mask { length mask.now ≡ length words.now }
    requires other { length other.now ≡ length words.now }
    ensures { IfOk result (λ made. made.items ≡ xors (xors words.now mask.now) other.now) }
{
    item_laws();
    let mut made = Vec::from_slice(alloc, words)?;
    xor_into(&mut made, mask);
    xor_into(&mut made, other);
    Ok(made)
}

// The three shares of words of a party, of which it keeps two masks and gives away the third.
fn deal(
    alloc: Global,
    party: Party,
    given: &[u64],
    own: &[u64],
    following: &[u64],
) -> Result<Three<Vec<u64>>, AllocError>
    ensures { IfOk result (λ made. lists made ≡ put party own.now (put (next party) following.now (put (before party) given.now nothing))) }
{
    let given = Vec::from_slice(alloc, given)?;
    let own = Vec::from_slice(alloc, own)?;
    let following = Vec::from_slice(alloc, following)?;
    Ok(match party {
        Party::First => Three {
            first: own,
            second: following,
            third: given,
        },
        Party::Second => Three {
            first: given,
            second: own,
            third: following,
        },
        Party::Third => Three {
            first: following,
            second: given,
            third: own,
        },
    })
}

impl Machine {
    /// A register of the and of two registers, under a mask of each tape.
    pub(crate) fn push_and(
        &mut self,
        left: u32,
        right: u32,
        masks: &Three<&[u64]>,
    ) -> Result<(), AllocError>
        requires made_left { IsMade self.old left }
        requires made_right { IsMade self.old right }
        requires left { HasRows (length masks.now.first.now) (shares self.old left) }
        requires right { HasRows (length masks.now.first.now) (shares self.old right) }
        requires masks { HasRows (length masks.now.first.now) (slices masks.now) }
        ensures { OnOk result (IsAnd self.old left right (slices masks.now) self.new) }
    {
        let made = and_shares(
            self.allocator(),
            &lend(self.register(left)),
            &lend(self.register(right)),
            masks,
        )?;
        self.send(Party::First, Party::Third, &made.first)?;
        self.send(Party::Second, Party::First, &made.second)?;
        self.send(Party::Third, Party::Second, &made.third)?;
        self.push_register(made)
    }

    /// A register of the words of a slot, under a mask of the party's own tape and one of the next tape.
    pub(crate) fn push_share(
        &mut self,
        party: Party,
        slot: u32,
        own: &[u64],
        following: &[u64],
    ) -> Result<(), AllocError>
        requires made { slot < length (at party self.old.slots) }
        requires own { length own.now ≡ length (slot_of self.old party slot) }
        requires following { length following.now ≡ length (slot_of self.old party slot) }
        ensures { OnOk result (IsShare self.old party slot own.now following.now self.new) }
    {
        let alloc = self.allocator();
        let given = under_masks(alloc, self.slot(party, slot), own, following)?;
        let made = deal(alloc, party, &given, own, following)?;
        self.send(party, party.next(), &given)?;
        self.send(party, party.before(), &given)?;
        self.push_register(made)
    }
}
