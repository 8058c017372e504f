//! The step Steer at one party.
#![tactic(auto)]

ghost use Rattle.std.specs.Prelude.{◌≡◌, ℕ, List, ⊤, IfOk, OnErr, OnOk, slice_index_or, take};
ghost use Rattle.lanes.specs.Party.{next};
ghost use Rattle.step_lists.specs.declared.step.Step.TheVariants.{Steer};
ghost use Rattle.step_lists.specs.Draws.{nothing};
ghost use Rattle.step_lists.specs.Layout.{Layout, rows_moved};
ghost use Rattle.step_lists.specs.Part.{behind_order, held_order, part_drawn, part_private, part_step, phase_sends, stage_sends, steered};
ghost use Rattle.party_core.specs.Calls.{posted};
ghost use Rattle.party_core.specs.Doing.{posted_of};

use crate::lists::{cut, pick};
use crate::messages::same_party;
use crate::moving::Moving;
use crate::outbox::Outbox;
use crate::portion::Portion;
use crate::reveal::start;
use crate::stages::party_of;
use crate::state::State;
use lanes::Party;
use std::alloc::{AllocError, Global};

// The private order of a Steer: its party makes it, and the party before was sent it.
fn steered(
    alloc: Global,
    party: Party,
    by: Party,
    secret: &[u64],
    portion: &Portion<'_>,
) -> Result<Vec<u64>, AllocError>
    ensures { IfOk result (λ order. order.items ≡ steered party by secret.now portion.now) }
{
    if same_party(party, by) {
        let way_back = portion.way_back(alloc)?;
        pick(alloc, secret, &way_back)
    } else {
        Vec::from_slice(alloc, portion.received(by))
    }
}

// Behind the phase whose order is drawn.
fn behind_drawn<'a>(
    alloc: Global,
    party: Party,
    by: Party,
    mut moving: Moving<'a>,
    portion: &Portion<'_>,
    rows: usize,
) -> Result<Moving<'a>, AllocError>
    ensures { IfOk result (λ new. new ≡ part_drawn party by rows portion.now moving.entry) }
{
    moving.pass_order(party, by, rows);
    moving.drawn_phase(alloc, party, by.next(), portion, rows)?;
    Ok(moving)
}

// What a party sends in the phase whose order is drawn.
fn drawn_sends(
    alloc: Global,
    party: Party,
    by: Party,
    mut moving: Moving<'_>,
    portion: &Portion<'_>,
    rows: usize,
) -> Result<Outbox, AllocError>
    ensures { IfOk result (λ out. posted out ≡ posted_of party (phase_sends party (next by) (held_order party (next by) portion.now) rows (behind_order party by rows moving.entry))) }
{
    moving.pass_order(party, by, rows);
    moving.drawn_sends(alloc, party, by.next(), portion, rows)
}

// What a party sends in the phase of the private order.
fn private_sends(
    alloc: Global,
    party: Party,
    by: Party,
    secret: &[u64],
    moving: Moving<'_>,
    portion: &Portion<'_>,
    rows: usize,
) -> Result<Outbox, AllocError>
    ensures { IfOk result (λ out. posted out ≡ posted_of party (phase_sends party by (take rows (steered party by secret.now portion.now)) rows (part_drawn party by rows portion.now moving.entry))) }
{
    let order = steered(alloc, party, by, secret, portion)?;
    let (places, _) = cut(&order, rows);
    let drawn = behind_drawn(alloc, party, by, moving, portion, rows)?;
    drawn.sends(alloc, party, by, places, rows)
}

/// What a party sends in a stage of a Steer.
pub(crate) fn steer_sends(
    alloc: Global,
    party: Party,
    by: u8,
    slot: u32,
    moved: &[u32],
    rows: usize,
    stage: usize,
    state: &State,
    portion: &Portion<'_>,
) -> Result<Outbox, AllocError>
    ensures { IfOk result (λ out. (l : Layout) → rows_moved l moved.now ≡ rows
        → posted out ≡ posted_of party (slice_index_or (stage_sends {T = ⊤} party l state.now (Steer by slot moved.now) portion.now) stage nothing)) }
{
    let by = party_of(by);
    let secret = state.slot(slot);
    let moving = start(alloc, state, moved, portion)?;
    match stage {
        0 if same_party(party, by) => {
            let order = steered(alloc, party, by, secret, portion)?;
            Ok(Outbox::to_previous(alloc, order))
        }
        1 => drawn_sends(alloc, party, by, moving, portion, rows),
        2 => private_sends(alloc, party, by, secret, moving, portion, rows),
        _ => Ok(Outbox::empty(alloc)),
    }
}

// Behind the phase of the private order.
fn behind_private<'a>(
    alloc: Global,
    party: Party,
    by: Party,
    secret: &[u64],
    moving: Moving<'a>,
    portion: &Portion<'_>,
    rows: usize,
) -> Result<Moving<'a>, AllocError>
    ensures { IfOk result (λ new. new ≡ part_private party by secret.now rows portion.now moving.entry) }
{
    let order = steered(alloc, party, by, secret, portion)?;
    let (places, _) = cut(&order, rows);
    let mut drawn = behind_drawn(alloc, party, by, moving, portion, rows)?;
    drawn.phase(alloc, party, by, places, rows)?;
    Ok(drawn)
}

impl State {
    /// Carries out a Steer.
    pub(crate) fn push_steer(
        &mut self,
        alloc: Global,
        party: Party,
        by: u8,
        slot: u32,
        moved: &[u32],
        rows: usize,
        portion: &Portion<'_>,
    ) -> Result<(), AllocError>
        ensures done { OnOk result ((answer : ⊤ → List (List ℕ) → List (List ℕ)) (l : Layout) → rows_moved l moved.now ≡ rows
            → self.new ≡ part_step answer party l self.old (Steer by slot moved.now) portion.now) }
        ensures kept { OnErr result (self.new ≡ self.old) }
    {
        let by = party_of(by);
        let moving = start(alloc, self, moved, portion)?;
        let private = behind_private(alloc, party, by, self.slot(slot), moving, portion, rows)?;
        self.push_pairs(private.into_pairs())
    }
}
