//! Phases: registers get a new order and new shares.
#![tactic(auto)]

ghost use Rattle.std.specs.Prelude.{◌≡◌, ℕ, ◌<◌, ◌≤◌, ◌*◌, ◌++◌, [], ◌∷◌, IfOk, OnOk, length, map, slice_index, List};
ghost use Rattle.lanes.specs.declared.party.Party.{Party};
ghost use Rattle.lanes.specs.Lanes.{xors};
ghost use Rattle.lanes.specs.Party.{next, before};
ghost use Rattle.lanes.specs.Three.{at, put};
ghost use Rattle.tapes.specs.Order.{applied};
ghost use Rattle.step_lists.specs.Draws.{nothing};
ghost use Rattle.step_lists.specs.Machine.{shares};
ghost use Rattle.step_lists.specs.Phases.{there, back, reshared};
ghost use Rattle.joint_machine.specs.Ready.{HasRows, HaveRows, IsMade};
ghost use Rattle.joint_machine.specs.Seen.{lists};
ghost use Rattle.joint_machine.specs.Steps.{IsTurned, IsPhase};

use crate::machine::Machine;
use lanes::{Party, Three, item_laws, xor_into, xor_words};
use std::alloc::{AllocError, Global};
use tapes::Order;

/// Registers behind a phase, and what its two parties send.
#[derive(Debug, Drop)]
pub struct Turned {
    /// The new shares of each register.
    pub shares: Vec<Three<Vec<u64>>>,
    /// What party j - 1 sends to party j.
    pub there: Vec<u64>,
    /// What party j sends to party j - 1.
    pub back: Vec<u64>,
}

// An order applied to words, under a mask.
fn order_masked(
    alloc: Global,
    order: &Order,
    source: &[u64],
    mask: &[u64],
) -> Result<Vec<u64>, AllocError>
    requires source { length source.now ≡ length order.now }
    requires mask { length mask.now ≡ length order.now }
    ensures made { IfOk result (λ made. made.items ≡ xors (applied order.now source.now) mask.now) }
    ensures long { IfOk result (λ made. length made.items ≡ length order.now) }
{
    item_laws();
    let mut made = vec![in alloc; 0; order.len()]?;
    order.apply(source, &mut made);
    xor_into(&mut made, mask);
    Ok(made)
}

fn there(
    alloc: Global,
    j: Party,
    order: &Order,
    shares: &Three<Vec<u64>>,
    mask: &[u64],
) -> Result<Vec<u64>, AllocError>
    requires shares { HasRows (length order.now) (lists shares.now) }
    requires mask { length mask.now ≡ length order.now }
    ensures long { IfOk result (λ made. length made.items ≡ length order.now) }
    ensures made { IfOk result (λ made. made.items ≡ there j order.now (lists shares.now) mask.now) }
{
    item_laws();
    let both = xor_words(alloc, shares.at(j.before()), shares.at(j))?;
    order_masked(alloc, order, both.as_slice(), mask)
}

fn back(
    alloc: Global,
    j: Party,
    order: &Order,
    shares: &Three<Vec<u64>>,
    mask: &[u64],
) -> Result<Vec<u64>, AllocError>
    requires shares { HasRows (length order.now) (lists shares.now) }
    requires mask { length mask.now ≡ length order.now }
    ensures long { IfOk result (λ made. length made.items ≡ length order.now) }
    ensures made { IfOk result (λ made. made.items ≡ back j order.now (lists shares.now) mask.now) }
{
    order_masked(alloc, order, shares.at(j.next()), mask)
}

// The new shares: two masks, and the xor of the two messages.
fn reshare(
    alloc: Global,
    j: Party,
    sum: Vec<u64>,
    mask: &[u64],
    other: &[u64],
) -> Result<Three<Vec<u64>>, AllocError>
    ensures { IfOk result (λ made. lists made ≡ put (before j) mask.now (put (next j) other.now (put j sum.items nothing))) }
{
    let mask = Vec::from_slice(alloc, mask)?;
    let other = Vec::from_slice(alloc, other)?;
    Ok(match j {
        Party::First => Three {
            first: sum,
            second: other,
            third: mask,
        },
        Party::Second => Three {
            first: mask,
            second: sum,
            third: other,
        },
        Party::Third => Three {
            first: other,
            second: mask,
            third: sum,
        },
    })
}

impl Turned {
    // One more register, by a mask of tape j - 1 and one of tape j + 1.
    fn push(
        &mut self,
        alloc: Global,
        j: Party,
        order: &Order,
        shares: &Three<Vec<u64>>,
        mask: &[u64],
        other: &[u64],
    ) -> Result<(), AllocError>
        requires shares { HasRows (length order.now) (lists shares.now) }
        requires mask { length mask.now ≡ length order.now }
        requires other { length other.now ≡ length order.now }
        ensures shares { OnOk result (map lists self.new.shares.items ≡ map lists self.old.shares.items ++ reshared j order.now (lists shares.now) mask.now other.now ∷ []) }
        ensures there { OnOk result (self.new.there.items ≡ self.old.there.items ++ there j order.now (lists shares.now) mask.now) }
        ensures back { OnOk result (self.new.back.items ≡ self.old.back.items ++ back j order.now (lists shares.now) other.now) }
    {
        let there = there(alloc, j, order, shares, mask)?;
        let back = back(alloc, j, order, shares, other)?;
        self.there.extend_from_slice(&there)?;
        self.back.extend_from_slice(&back)?;
        let sum = xor_words(alloc, &there, &back)?.into_vec();
        self.shares.push(reshare(alloc, j, sum, mask, other)?)?;
        Ok(())
    }
}

// A phase of party j on registers, by a mask of tape j - 1 and one of tape j + 1.
fn turn(
    alloc: Global,
    j: Party,
    order: &Order,
    shares: &[Three<Vec<u64>>],
    mask: &[u64],
    other: &[u64],
) -> Result<Turned, AllocError>
    requires shares { HaveRows (length order.now) (map lists shares.now) }
    requires mask { length mask.now ≡ length shares.now * length order.now }
    requires other { length other.now ≡ length shares.now * length order.now }
    ensures { IfOk result (λ made. IsTurned j order.now (map lists shares.now) mask.now other.now (map lists made.shares.items) made.there.items made.back.items) }
{
    let mut turned = Turned {
        shares: Vec::with_capacity(alloc, shares.len())?,
        there: Vec::with_capacity(alloc, mask.len())?,
        back: Vec::with_capacity(alloc, mask.len())?,
    };
    let mut masks = mask;
    let mut others = other;
    for i in 0..shares.len() {
        let (mask, masks_left) = masks.split_at(order.len());
        let (other, others_left) = others.split_at(order.len());
        turned.push(alloc, j, order, &shares[i], mask, other)?;
        masks = masks_left;
        others = others_left;
    }
    Ok(turned)
}

/// A phase of party j on some registers, by a mask of tape j - 1 and one of tape j + 1. Own, after Laur, Willemson and
/// Zhang (2011).
pub fn phase(
    alloc: Global,
    j: Party,
    order: &Order,
    shares: &[Three<Vec<u64>>],
    mask: &[u64],
    other: &[u64],
) -> Result<Turned, AllocError>
    requires shares { HaveRows (length order.now) (map lists shares.now) }
    requires mask { length mask.now ≡ length shares.now * length order.now }
    requires other { length other.now ≡ length shares.now * length order.now }
    ensures turned { IfOk result (λ made. IsTurned j order.now (map lists shares.now) mask.now other.now (map lists made.shares.items) made.there.items made.back.items) }
    ensures rows { IfOk result (λ made. HaveRows (length order.now) (map lists made.shares.items)) }
    ensures count { IfOk result (λ made. length made.shares.items ≡ length shares.now) }
{
    item_laws();
    let turned = turn(alloc, j, order, shares, mask, other)?;
    Ok(turned)
}

impl Machine {
    /// A phase of party j on some registers: the new shares, and what its two parties send.
    pub(crate) fn run_phase(
        &mut self,
        j: Party,
        order: &Order,
        shares: &[Three<Vec<u64>>],
        mask: &[u64],
        other: &[u64],
    ) -> Result<Vec<Three<Vec<u64>>>, AllocError>
        requires shares { HaveRows (length order.now) (map lists shares.now) }
        requires mask { length mask.now ≡ length shares.now * length order.now }
        requires other { length other.now ≡ length shares.now * length order.now }
        ensures phase { IfOk result (λ made. IsPhase self.old j order.now (map lists shares.now) mask.now other.now (map lists made.items) self.new) }
        ensures rows { IfOk result (λ made. HaveRows (length order.now) (map lists made.items)) }
        ensures count { IfOk result (λ made. length made.items ≡ length shares.now) }
    {
        let turned = phase(self.allocator(), j, order, shares, mask, other)?;
        self.send(j.before(), j, &turned.there)?;
        self.send(j, j.before(), &turned.back)?;
        Ok(turned.shares)
    }
}

impl Machine {
    /// The shares of some registers, in memory of their own.
    pub fn moved_shares(&self, moved: &[u32]) -> Result<Vec<Three<Vec<u64>>>, AllocError>
        requires { (k : ℕ) → k < length moved.now → IsMade self.now (slice_index moved.now k) }
        ensures { IfOk result (λ made. map lists made.items ≡ map (shares self.now) moved.now) }
    {
        let alloc = self.allocator();
        let mut made = Vec::with_capacity(alloc, moved.len())?;
        for register in moved {
            made.push(copy_shares(alloc, self.register(*register))?)?;
        }
        Ok(made)
    }
}

fn copy_shares(alloc: Global, shares: &Three<Vec<u64>>) -> Result<Three<Vec<u64>>, AllocError>
    ensures { IfOk result (λ made. lists made ≡ lists shares.now) }
{
    Ok(Three {
        first: Vec::from_slice(alloc, &shares.first)?,
        second: Vec::from_slice(alloc, &shares.second)?,
        third: Vec::from_slice(alloc, &shares.third)?,
    })
}

/// What a phase draws: an order, a mask of tape j - 1 and one of tape j + 1.
#[derive(Clone, Copy, Debug)]
pub struct Drawn<'a> {
    /// The order of the phase.
    pub order: &'a Order,
    /// What masks the words that party j takes.
    pub mask: &'a [u64],
    /// What masks the words that it gives back.
    pub other: &'a [u64],
}
