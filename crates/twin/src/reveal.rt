//! A Reveal in both worlds: how its unseen order and words change.

ghost use Rattle.std.specs.Prelude.{◌≡◌, ◌<◌, ◌^◌, ℕ, [], IfOk, IfErr, OnOk, length, map, slice_index, true, if◌then◌else◌};
ghost use Rattle.bags.specs.Bag.{SameBag};
ghost use Rattle.lanes.specs.declared.party.Party.{Party};
ghost use Rattle.lanes.specs.Party.{before};
ghost use Rattle.lanes.specs.Three.{at};
ghost use Rattle.step_lists.specs.Draws.{ThreeTapes, needs_reveal, order_in, taken};
ghost use Rattle.step_lists.specs.Seen.{same_party};
ghost use Rattle.step_lists.specs.Shapes.{word_lists};
ghost use Rattle.step_lists.specs.Twin.{aligning, begin_both, changed, open_rows, earlier_orders, reveal_order, shifted, third_both, twin_reveal, with_order};
ghost use Rattle.joint_machine.specs.Left.{AreNext, IsRevealDraw, lefts};
ghost use Rattle.joint_machine.specs.Steps.{IsDrawnFor, HoldPhases, drawn, rows_of_all};
ghost use Rattle.twin.specs.Compared.{AreMovable, IsRowsFault};
ghost use Rattle.twin.specs.Revealed.{AreRevealDraws, OrdersOf};

use crate::both::turn_both;
use crate::change::Change;
use crate::compare::{not_aligned, open_rows};
use crate::counts::rows_in;
use crate::fault::TwinFault;
use crate::laws::facts;
use crate::places::is_same;
use crate::worlds::Worlds;
use joint_machine::{RevealDraws, draw_reveal};
use lanes::{Party, Three, item_laws};
use std::alloc::{AllocError, Global};
use tapes::{AlignFault, Cursor, Order, align, align_laws, order_laws};

// The order that takes the rows of the second world to those of the first one.
fn align_rows(
    alloc: Global,
    step: u64,
    rows: Vec<Vec<u64>>,
    others: Vec<Vec<u64>>,
) -> Result<Order, TwinFault>
    requires rows { length rows.items < 2 ^ 32 }
    requires others { length others.items < 2 ^ 32 }
    ensures order { IfOk result (λ order. order ≡ aligning (word_lists others) (word_lists rows)) }
    ensures same { OnOk result (SameBag (word_lists rows) (word_lists others)) }
    ensures fault { IfErr result (λ fault. IsRowsFault step true (word_lists rows) (word_lists others) fault) }
{
    bags::laws::bags_are_equivalence();
    align_laws();
    match align(alloc, &others, &rows) {
        Ok(order) => Ok(order),
        Err(AlignFault::NotSameBag) => Err(not_aligned(step, rows, others)),
        Err(AlignFault::Memory) => Err(TwinFault::Memory),
    }
}

// The orders of the phases before that of a party, one after the other.
fn earlier_order(alloc: Global, party: Party, draws: &RevealDraws<'_>) -> Result<Order, AllocError>
    requires short { length draws.now.one.order.now < 2 ^ 32 }
    requires two { length draws.now.two.order.now ≡ length draws.now.one.order.now }
    ensures { IfOk result (λ order. (ds : ThreeTapes) → OrdersOf draws.now.one.order.now draws.now.two.order.now draws.now.three.order.now ds → order ≡ earlier_orders party (length draws.now.one.order.now) ds) }
{
    match party {
        Party::First => Order::identity(alloc, draws.one.order.len() as u32),
        Party::Second => draws.one.order.copy(alloc),
        Party::Third => draws.one.order.then(alloc, draws.two.order),
    }
}

// The order of a party's phase.
fn order_of<'a>(draws: &RevealDraws<'a>, party: Party) -> &'a Order
    ensures { (ds : ThreeTapes) → OrdersOf draws.now.one.order.now draws.now.two.order.now draws.now.three.order.now ds → result.now ≡ order_in (at party ds) }
{
    match party {
        Party::First => draws.one.order,
        Party::Second => draws.two.order,
        Party::Third => draws.three.order,
    }
}

// p after a after d after the inverse of a.
fn shift(alloc: Global, p: &Order, a: &Order, d: &Order) -> Result<Order, AllocError>
    requires a { length a.now ≡ length p.now }
    requires d { length d.now ≡ length p.now }
    ensures { IfOk result (λ order. order ≡ shifted p.now a.now d.now) }
{
    item_laws();
    a.inverse(alloc)?
        .then(alloc, d)?
        .then(alloc, a)?
        .then(alloc, p)
}

// The order of a party's phase in the second world: another one for the tape that isn't seen.
fn second_order<'a>(unseen: Party, j: Party, order: &'a Order, drawn: &'a Order) -> &'a Order
    ensures { result.now ≡ (if same_party j unseen then order.now else drawn.now) }
{
    if is_same(j, unseen) { order } else { drawn }
}

impl Worlds {
    // The unseen order of a Reveal in the second world.
    fn reveal_order(
        &self,
        alloc: Global,
        viewer: Party,
        step: u64,
        to: Party,
        moved: &[u32],
        shown: &[u32],
        draws: &RevealDraws<'_>,
    ) -> Result<Order, TwinFault>
        requires movable { AreMovable self.now.one self.now.other (length draws.now.one.order.now) moved.now }
        requires shown { (k : ℕ) → k < length shown.now → slice_index shown.now k < length moved.now }
        requires two { length draws.now.two.order.now ≡ length draws.now.one.order.now }
        requires three { length draws.now.three.order.now ≡ length draws.now.one.order.now }
        ensures order { IfOk result (λ order. (ds : ThreeTapes) → OrdersOf draws.now.one.order.now draws.now.two.order.now draws.now.three.order.now ds
            → order ≡ (if same_party to viewer
            then reveal_order viewer (length draws.now.one.order.now) ds (open_rows self.now.one (length draws.now.one.order.now) moved.now shown.now) (open_rows self.now.other (length draws.now.one.order.now) moved.now shown.now)
            else order_in (at (before viewer) ds))) }
        ensures long { IfOk result (λ order. length order ≡ length draws.now.one.order.now) }
        ensures same { OnOk result (same_party to viewer ≡ true
            → SameBag (open_rows self.now.one (length draws.now.one.order.now) moved.now shown.now) (open_rows self.now.other (length draws.now.one.order.now) moved.now shown.now)) }
        ensures fault { IfErr result (λ fault. IsRowsFault step (same_party to viewer)
            (open_rows self.now.one (length draws.now.one.order.now) moved.now shown.now) (open_rows self.now.other (length draws.now.one.order.now) moved.now shown.now) fault) }
    {
        facts();
        let unseen = order_of(draws, viewer.before());
        if !is_same(to, viewer) {
            return Ok(unseen.copy(alloc)?);
        }
        let count = draws.one.order.len();
        let rows = open_rows(alloc, &self.one, count, moved, shown)?;
        let others = open_rows(alloc, &self.other, count, moved, shown)?;
        let aligned = align_rows(alloc, step, rows, others)?;
        let earlier = earlier_order(alloc, viewer.before(), draws)?;
        Ok(shift(alloc, unseen, &earlier, &aligned)?)
    }

    // How the unseen words of the three phases change, with this unseen order in the second world.
    fn turn_three(
        &self,
        alloc: Global,
        viewer: Party,
        moved: &[u32],
        draws: &RevealDraws<'_>,
        order: &Order,
    ) -> Result<Vec<u64>, AllocError>
        requires movable { AreMovable self.now.one self.now.other (length draws.now.one.order.now) moved.now }
        requires draws { AreRevealDraws (length moved.now) (length draws.now.one.order.now) (drawn draws.now.one.order.now draws.now.one.mask.now draws.now.one.other.now)
            (drawn draws.now.two.order.now draws.now.two.mask.now draws.now.two.other.now) (drawn draws.now.three.order.now draws.now.three.mask.now draws.now.three.other.now) }
        requires order { length order.now ≡ length draws.now.one.order.now }
        ensures { IfOk result (λ changes. (ds : ThreeTapes)
            → HoldPhases ds (drawn draws.now.one.order.now draws.now.one.mask.now draws.now.one.other.now) (drawn draws.now.two.order.now draws.now.two.mask.now draws.now.two.other.now) (drawn draws.now.three.order.now draws.now.three.mask.now draws.now.three.other.now)
            → order_in (changed order.now [] (at (before viewer) ds)) ≡ order.now
            → changes.items ≡ (third_both viewer ds (with_order viewer order.now ds) (length draws.now.one.order.now) (begin_both self.now.one self.now.other moved.now ds)).changes) }
    {
        facts();
        let unseen = viewer.before();
        let start = self.begin_both(alloc, moved)?;
        let one = second_order(unseen, Party::First, order, draws.one.order);
        let first = turn_both(alloc, viewer, Party::First, &start, &draws.one, one)?;
        let two = second_order(unseen, Party::Second, order, draws.two.order);
        let second = turn_both(alloc, viewer, Party::Second, &first, &draws.two, two)?;
        let three = second_order(unseen, Party::Third, order, draws.three.order);
        let third = turn_both(alloc, viewer, Party::Third, &second, &draws.three, three)?;
        Ok(third.changes)
    }

    /// How the unseen draws of a Reveal change.
    pub(crate) fn reveal_change(
        &self,
        alloc: Global,
        viewer: Party,
        step: u64,
        to: Party,
        moved: &[u32],
        shown: &[u32],
        tapes: &mut Three<Cursor<'_>>,
    ) -> Result<Change, TwinFault>
        requires movable { AreMovable self.now.one self.now.other (rows_of_all self.now.one moved.now) moved.now }
        requires shown { (k : ℕ) → k < length shown.now → slice_index shown.now k < length moved.now }
        requires draws { AreNext (needs_reveal (length moved.now) (rows_of_all self.now.one moved.now)) (lefts tapes.old) }
        ensures change { IfOk result (λ change. changed change.order change.words.items (at (before viewer) (taken (needs_reveal (length moved.now) (rows_of_all self.now.one moved.now)) (lefts tapes.old)))
            ≡ twin_reveal viewer to (rows_of_all self.now.one moved.now) moved.now shown.now self.now.one self.now.other (taken (needs_reveal (length moved.now) (rows_of_all self.now.one moved.now)) (lefts tapes.old))) }
        ensures same { OnOk result (same_party to viewer ≡ true
            → SameBag (open_rows self.now.one (rows_of_all self.now.one moved.now) moved.now shown.now) (open_rows self.now.other (rows_of_all self.now.one moved.now) moved.now shown.now)) }
        ensures fault { IfErr result (λ fault. IsRowsFault step (same_party to viewer)
            (open_rows self.now.one (rows_of_all self.now.one moved.now) moved.now shown.now) (open_rows self.now.other (rows_of_all self.now.one moved.now) moved.now shown.now) fault) }
    {
        let rows = rows_in(&self.one, moved[0]);
        let draws = draw_reveal(tapes, moved.len(), rows)?;
        let order = self.reveal_order(alloc, viewer, step, to, moved, shown, &draws)?;
        let words = self.turn_three(alloc, viewer, moved, &draws, &order)?;
        Ok(Change { words, order })
    }
}
