//! A phase in both worlds: in the second one the viewer is sent the words of the first.

ghost use Rattle.std.specs.Prelude.{◌≡◌, ◌*◌, ℕ, ◌<◌, [], true, IfOk, length, map, slice_index, if◌then◌else◌};
ghost use Rattle.lanes.specs.Lanes.{xors};
ghost use Rattle.lanes.specs.Party.{next};
ghost use Rattle.step_lists.specs.Machine.{shares};
ghost use Rattle.step_lists.specs.Seen.{same_party};
ghost use Rattle.joint_machine.specs.Ready.{IsMade};
ghost use Rattle.joint_machine.specs.Seen.{lists};
ghost use Rattle.joint_machine.specs.Steps.{IsDrawnFor, drawn};
ghost use Rattle.twin.specs.Turning.{AreWide, AreTurned, taken_up};

use crate::laws::facts;
use crate::places::is_same;
use crate::worlds::Worlds;
use joint_machine::{PhaseDrawn, Turned, phase};
use lanes::{Party, Three, item_laws, xor_words};
use std::alloc::{AllocError, Global};
use tapes::Order;

/// Registers that are moved in both worlds, and how the unseen words are changed so far.
#[derive(Drop)]
pub(crate) struct Both {
    pub(crate) one: Vec<Three<Vec<u64>>>,
    pub(crate) other: Vec<Three<Vec<u64>>>,
    pub(crate) changes: Vec<u64>,
}

// What two worlds differ by in what the viewer is sent under a word that it doesn't see, with the masks as they are.
fn difference(
    alloc: Global,
    viewer: Party,
    j: Party,
    one: &Turned,
    tried: &Turned,
) -> Result<Vec<u64>, AllocError>
    requires there { length one.now.there.items ≡ length tried.now.there.items }
    requires back { length one.now.back.items ≡ length tried.now.back.items }
    ensures { IfOk result (λ words. words.items ≡ (if same_party j viewer then xors one.now.there.items tried.now.there.items else (if same_party j (next viewer) then xors one.now.back.items tried.now.back.items else []))) }
{
    if is_same(j, viewer) {
        return Ok(xor_words(alloc, &one.there, &tried.there)?.into_vec());
    }
    if is_same(j, viewer.next()) {
        return Ok(xor_words(alloc, &one.back, &tried.back)?.into_vec());
    }
    Ok(Vec::new(alloc))
}

// A mask, with the changes if the viewer doesn't see it.
fn mask_anew(
    alloc: Global,
    unseen: bool,
    mask: &[u64],
    changes: &[u64],
) -> Result<Vec<u64>, AllocError>
    requires { unseen ≡ true → length mask.now ≡ length changes.now }
    ensures made { IfOk result (λ made. made.items ≡ taken_up unseen mask.now changes.now) }
    ensures long { IfOk result (λ made. length made.items ≡ length mask.now) }
{
    item_laws();
    if unseen {
        return Ok(xor_words(alloc, mask, changes)?.into_vec());
    }
    Vec::from_slice(alloc, mask)
}

/// Phase j with this draw in the first world, and with another order in the second one.
pub(crate) fn turn_both(
    alloc: Global,
    viewer: Party,
    j: Party,
    both: &Both,
    draw: &PhaseDrawn<'_>,
    order: &Order,
) -> Result<Both, AllocError>
    requires wide { AreWide (length draw.now.order.now) (length both.now.one.items) (map lists both.now.one.items) (map lists both.now.other.items) }
    requires draw { IsDrawnFor (length draw.now.order.now) (length both.now.one.items * length draw.now.order.now) (drawn draw.now.order.now draw.now.mask.now draw.now.other.now) }
    requires order { length order.now ≡ length draw.now.order.now }
    ensures turned { IfOk result (λ made. AreTurned viewer j draw.now.order.now order.now (length draw.now.order.now) draw.now.mask.now draw.now.other.now
        (map lists both.now.one.items) (map lists both.now.other.items) both.now.changes.items
        (map lists made.one.items) (map lists made.other.items) made.changes.items) }
    ensures wide { IfOk result (λ made. AreWide (length draw.now.order.now) (length both.now.one.items) (map lists made.one.items) (map lists made.other.items)) }
{
    facts();
    let one = phase(alloc, j, draw.order, &both.one, draw.mask, draw.other)?;
    let tried = phase(alloc, j, order, &both.other, draw.mask, draw.other)?;
    let changed = difference(alloc, viewer, j, &one, &tried)?;
    let mask = mask_anew(alloc, is_same(j, viewer), draw.mask, &changed)?;
    let back = mask_anew(alloc, is_same(j, viewer.next()), draw.other, &changed)?;
    let other = phase(alloc, j, order, &both.other, &mask, &back)?;
    let mut changes = Vec::from_slice(alloc, &both.changes)?;
    changes.extend_from_slice(&changed)?;
    Ok(Both {
        one: one.shares,
        other: other.shares,
        changes,
    })
}

impl Worlds {
    /// Before the first phase.
    pub(crate) fn begin_both(&self, alloc: Global, moved: &[u32]) -> Result<Both, AllocError>
        requires made_one { (k : ℕ) → k < length moved.now → IsMade self.now.one (slice_index moved.now k) }
        requires made_other { (k : ℕ) → k < length moved.now → IsMade self.now.other (slice_index moved.now k) }
        ensures one { IfOk result (λ both. map lists both.one.items ≡ map (shares self.now.one) moved.now) }
        ensures other { IfOk result (λ both. map lists both.other.items ≡ map (shares self.now.other) moved.now) }
        ensures changes { IfOk result (λ both. both.changes.items ≡ []) }
    {
        Ok(Both {
            one: self.one.moved_shares(moved)?,
            other: self.other.moved_shares(moved)?,
            changes: Vec::new(alloc),
        })
    }
}
