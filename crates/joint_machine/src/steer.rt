//! The step Steer: the order of a slot, through a phase of a drawn order and a phase of what is left to it.
#![tactic(auto)]

ghost use Rattle.std.specs.Prelude.{◌≡◌, ℕ, ◌<◌, ◌≤◌, ◌^◌, ◌*◌, IfOk, OnOk, length, map, slice_index};
ghost use Rattle.lanes.specs.Three.{at};
ghost use Rattle.tapes.specs.Order.{IsOrder, composed, inverse_of};
ghost use Rattle.step_lists.specs.Draws.{ThreeTapes};
ghost use Rattle.step_lists.specs.Machine.{shares, slot_of};
ghost use Rattle.joint_machine.specs.Ready.{HaveRows, IsMade};
ghost use Rattle.joint_machine.specs.Steps.{IsDrawnFor, HoldSteer, IsSteer, drawn};

use crate::machine::Machine;
use crate::phases::Drawn;
use lanes::Party;
use std::alloc::{AllocError, Global};
use tapes::Order;

// The order that words stand for.
fn order_of_words(alloc: Global, words: &[u64]) -> Result<Order, AllocError>
    requires order { IsOrder words.now }
    requires short { length words.now ≤ 2 ^ 32 }
    ensures { IfOk result (λ order. order ≡ words.now) }
{
    let mut places = Vec::with_capacity(alloc, words.len())?;
    for word in words {
        places.push(*word as u32)?;
    }
    Ok(Order::new(places).unwrap())
}

// An order as words, to be sent.
fn words_of_order(alloc: Global, order: &Order) -> Result<Vec<u64>, AllocError>
    ensures { IfOk result (λ words. words.items ≡ order.now) }
{
    let places = order.places();
    let mut words = Vec::with_capacity(alloc, places.len())?;
    for place in places {
        words.push(*place as u64)?;
    }
    Ok(words)
}

// What is left to an order behind a drawn one: the way back, and then the order.
fn order_behind(alloc: Global, drawn: &Order, words: &[u64]) -> Result<Order, AllocError>
    requires order { IsOrder words.now }
    requires long { length words.now ≡ length drawn.now }
    ensures { IfOk result (λ order. order ≡ composed (inverse_of drawn.now) words.now) }
{
    // A drawn order has at most 2^32 items, and so has one of as many words.
    let _ = drawn.places();
    let private = order_of_words(alloc, words)?;
    drawn.inverse(alloc)?.then(alloc, &private)
}

impl Machine {
    /// Registers of the moved ones in the order of a slot, which its party alone knows.
    pub(crate) fn push_steer(
        &mut self,
        by: Party,
        slot: u32,
        moved: &[u32],
        one: &Drawn<'_>,
        mask: &[u64],
        other: &[u64],
    ) -> Result<(), AllocError>
        requires made { (k : ℕ) → k < length moved.now → IsMade self.old (slice_index moved.now k) }
        requires rows { HaveRows (length one.now.order.now) (map (shares self.old) moved.now) }
        requires slot { slot < length (at by self.old.slots) }
        requires order { IsOrder (slot_of self.old by slot) }
        requires long { length (slot_of self.old by slot) ≡ length one.now.order.now }
        requires one { IsDrawnFor (length one.now.order.now) (length moved.now * length one.now.order.now) (drawn one.now.order.now one.now.mask.now one.now.other.now) }
        requires mask { length mask.now ≡ length moved.now * length one.now.order.now }
        requires other { length other.now ≡ length moved.now * length one.now.order.now }
        ensures { OnOk result ((ds : ThreeTapes)
            → HoldSteer by ds (drawn one.now.order.now one.now.mask.now one.now.other.now) mask.now other.now
            → IsSteer self.old (length one.now.order.now) by (slot_of self.old by slot) moved.now ds self.new) }
    {
        let alloc = self.allocator();
        let order = order_behind(alloc, one.order, self.slot(by, slot))?;
        let start = self.moved_shares(moved)?;
        self.send(by, by.before(), &words_of_order(alloc, &order)?)?;
        let first = self.run_phase(by.next(), one.order, &start, one.mask, one.other)?;
        let second = self.run_phase(by, &order, &first, mask, other)?;
        self.push_registers(second)?;
        Ok(())
    }
}
