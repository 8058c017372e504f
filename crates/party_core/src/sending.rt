//! What a party sends in a stage of a step.
#![tactic(auto)]

ghost use Rattle.std.specs.Prelude.{◌≡◌, IfOk, slice_index_or};
ghost use Rattle.step_lists.specs.Draws.{nothing};
ghost use Rattle.step_lists.specs.Layout.{Layout};
ghost use Rattle.step_lists.specs.Part.{stage_sends};
ghost use Rattle.party_core.specs.Calls.{posted};
ghost use Rattle.party_core.specs.Doing.{IsOnce, IsReady, posted_of};
ghost use Rattle.party_core.specs.Holding.{rows_of};

use crate::clear::{flag_sends, tell_sends};
use crate::masked::{and_sends, share_sends};
use crate::outbox::Outbox;
use crate::portion::Portion;
use crate::reveal::reveal_sends;
use crate::stages::party_of;
use crate::state::State;
use crate::steer::steer_sends;
use lanes::Party;
use std::alloc::{AllocError, Global};
use step_lists::{Step, Task};

// What a party sends in the first stage of a step that has one stage or none.
fn sends_once<T: Task>(
    alloc: Global,
    party: Party,
    step: &Step<T>,
    state: &State,
    portion: &Portion<'_>,
) -> Result<Outbox, AllocError>
    requires { (l : Layout) × IsReady T.accepts party l step.now state.now portion.now }
    ensures { IfOk result (λ out. IsOnce step.now → (l : Layout) → posted out ≡ posted_of party (slice_index_or (stage_sends party l state.now step.now portion.now) 0 nothing)) }
{
    match step {
        Step::And { left, right } => and_sends(alloc, *left, *right, state, portion),
        Step::Share { party: by, slot } => {
            share_sends(alloc, party, party_of(*by), *slot, state, portion)
        }
        Step::Tell {
            source,
            target,
            slot,
        } => tell_sends(
            alloc,
            party,
            party_of(*source),
            party_of(*target),
            *slot,
            state,
        ),
        Step::Flag { party: by, slot } => flag_sends(alloc, party, party_of(*by), *slot, state),
        _ => Ok(Outbox::empty(alloc)),
    }
}

/// What a party sends in a stage of a step that is about so many words.
pub(crate) fn sends<T: Task>(
    alloc: Global,
    party: Party,
    step: &Step<T>,
    rows: u32,
    stage: usize,
    state: &State,
    portion: &Portion<'_>,
) -> Result<Outbox, AllocError>
    requires { (l : Layout) × IsReady T.accepts party l step.now state.now portion.now }
    ensures { IfOk result (λ out. (l : Layout) → rows_of l step.now ≡ rows → posted out ≡ posted_of party (slice_index_or (stage_sends party l state.now step.now portion.now) stage nothing)) }
{
    let rows = rows as usize;
    match step {
        Step::Reveal { to, moved, shown } => {
            let (moved, shown) = (moved.as_slice(), shown.as_slice());
            reveal_sends(alloc, party, *to, moved, shown, rows, stage, state, portion)
        }
        Step::Steer { by, slot, moved } => {
            let moved = moved.as_slice();
            steer_sends(alloc, party, *by, *slot, moved, rows, stage, state, portion)
        }
        _ if stage == 0 => sends_once(alloc, party, step, state, portion),
        _ => Ok(Outbox::empty(alloc)),
    }
}
