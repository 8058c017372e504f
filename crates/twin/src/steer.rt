//! A Steer in both worlds: how its unseen order and words change.

ghost use Rattle.std.specs.Prelude.{◌≡◌, ◌<◌, ◌≤◌, ◌^◌, ℕ, IfOk, length, map, slice_index, if◌then◌else◌};
ghost use Rattle.lanes.specs.Party.{next, before};
ghost use Rattle.lanes.specs.Three.{at};
ghost use Rattle.tapes.specs.Order.{IsOrder, composed, inverse_of};
ghost use Rattle.step_lists.specs.Draws.{ThreeTapes, needs_steer, taken};
ghost use Rattle.step_lists.specs.Machine.{slot_of};
ghost use Rattle.step_lists.specs.Seen.{same_party};
ghost use Rattle.step_lists.specs.Twin.{begin_both, changed, steer_both, steered_order, twin_steer};
ghost use Rattle.joint_machine.specs.Left.{AreNext, lefts};
ghost use Rattle.joint_machine.specs.Steps.{HoldSteer, drawn, rows_of_all};
ghost use Rattle.twin.specs.Compared.{AreMovable};
ghost use Rattle.twin.specs.Steered.{AreSteerDraws, IsPrivate};

use crate::both::turn_both;
use crate::change::Change;
use crate::counts::rows_in;
use crate::laws::facts;
use crate::places::is_same;
use crate::worlds::Worlds;
use joint_machine::{PhaseDrawn, SteerDraws, draw_steer};
use lanes::{Party, Three, item_laws};
use std::alloc::{AllocError, Global};
use tapes::{Cursor, Order};

// The order that words stand for.
fn order_of_words(alloc: Global, words: &[u64]) -> Result<Order, AllocError>
    requires order { IsOrder words.now }
    requires short { length words.now ≤ 2 ^ 32 }
    ensures { IfOk result (λ order. order ≡ words.now) }
{
    let mut places = Vec::with_capacity(alloc, words.len())?;
    for word in words {
        places.push(*word as u32)?;
    }
    Ok(Order::new(places).unwrap())
}

// The order of the first phase in the second world: t after the inverse of g after h where the next party steers.
fn first_order(
    alloc: Global,
    steered: bool,
    t: &Order,
    g: &Order,
    h: &Order,
) -> Result<Order, AllocError>
    requires g { length g.now ≡ length t.now }
    requires h { length h.now ≡ length t.now }
    ensures { IfOk result (λ order. order ≡ (if steered then steered_order t.now g.now h.now else t.now)) }
{
    item_laws();
    if steered {
        return h.then(alloc, &g.inverse(alloc)?)?.then(alloc, t);
    }
    t.copy(alloc)
}

// What is left to a private order behind a drawn one: the way back, and then the order.
fn order_behind(alloc: Global, drawn: &Order, private: &Order) -> Result<Order, AllocError>
    requires { length private.now ≡ length drawn.now }
    ensures { IfOk result (λ order. order ≡ composed (inverse_of drawn.now) private.now) }
{
    drawn.inverse(alloc)?.then(alloc, private)
}

impl Worlds {
    // How the unseen words of both phases change, with these orders in the first and in the second world.
    fn turn_two(
        &self,
        alloc: Global,
        viewer: Party,
        by: Party,
        moved: &[u32],
        draws: &SteerDraws<'_>,
        order: &Order,
        g: &Order,
        h: &Order,
    ) -> Result<Vec<u64>, AllocError>
        requires movable { AreMovable self.now.one self.now.other (length draws.now.one.order.now) moved.now }
        requires draws { AreSteerDraws (length moved.now) (length draws.now.one.order.now) (drawn draws.now.one.order.now draws.now.one.mask.now draws.now.one.other.now) draws.now.mask.now draws.now.other.now }
        requires order { length order.now ≡ length draws.now.one.order.now }
        requires g { length g.now ≡ length draws.now.one.order.now }
        requires h { length h.now ≡ length draws.now.one.order.now }
        ensures { IfOk result (λ changes. (ds : ThreeTapes)
            → HoldSteer by ds (drawn draws.now.one.order.now draws.now.one.mask.now draws.now.one.other.now) draws.now.mask.now draws.now.other.now
            → changes.items ≡ (steer_both viewer by draws.now.one.order.now order.now g.now h.now (length draws.now.one.order.now) (begin_both self.now.one self.now.other moved.now ds)).changes) }
    {
        facts();
        let start = self.begin_both(alloc, moved)?;
        let first = turn_both(alloc, viewer, by.next(), &start, &draws.one, order)?;
        let behind = order_behind(alloc, draws.one.order, g)?;
        let other_behind = order_behind(alloc, order, h)?;
        let private = PhaseDrawn {
            order: &behind,
            mask: draws.mask,
            other: draws.other,
        };
        let second = turn_both(alloc, viewer, by, &first, &private, &other_behind)?;
        Ok(second.changes)
    }

    /// How the unseen draws of a Steer change.
    pub(crate) fn steer_change(
        &self,
        alloc: Global,
        viewer: Party,
        by: Party,
        slot: u32,
        moved: &[u32],
        tapes: &mut Three<Cursor<'_>>,
    ) -> Result<Change, AllocError>
        requires movable { AreMovable self.now.one self.now.other (rows_of_all self.now.one moved.now) moved.now }
        requires one { IsPrivate self.now.one by slot (rows_of_all self.now.one moved.now) }
        requires other { IsPrivate self.now.other by slot (rows_of_all self.now.one moved.now) }
        requires draws { AreNext (needs_steer by (length moved.now) (rows_of_all self.now.one moved.now)) (lefts tapes.old) }
        ensures { IfOk result (λ change. changed change.order change.words.items (at (before viewer) (taken (needs_steer by (length moved.now) (rows_of_all self.now.one moved.now)) (lefts tapes.old)))
            ≡ twin_steer viewer by (slot_of self.now.one by slot) (slot_of self.now.other by slot) (rows_of_all self.now.one moved.now) moved.now self.now.one self.now.other
            (taken (needs_steer by (length moved.now) (rows_of_all self.now.one moved.now)) (lefts tapes.old))) }
    {
        let rows = rows_in(&self.one, moved[0]);
        let draws = draw_steer(tapes, by, moved.len(), rows)?;
        let g = order_of_words(alloc, self.one.slot(by, slot))?;
        let h = order_of_words(alloc, self.other.slot(by, slot))?;
        let steered = is_same(by, viewer.next());
        let order = first_order(alloc, steered, draws.one.order, &g, &h)?;
        let words = self.turn_two(alloc, viewer, by, moved, &draws, &order, &g, &h)?;
        Ok(Change { words, order })
    }
}
