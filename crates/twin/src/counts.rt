//! How many draws a step takes of each tape.

ghost use Rattle.std.specs.Prelude.{◌≡◌, ◌<◌, IfOk, length};
ghost use Rattle.lanes.specs.Three.{at, each};
ghost use Rattle.step_lists.specs.Layout.{Layout};
ghost use Rattle.step_lists.specs.Draws.{ThreeTapes, needs_of, needs_reveal, needs_steer};
ghost use Rattle.step_lists.specs.Machine.{slot_of};
ghost use Rattle.joint_machine.specs.Left.{needs_share};
ghost use Rattle.joint_machine.specs.Ready.{IsMade};
ghost use Rattle.joint_machine.specs.Steps.{register_rows};
ghost use Rattle.joint_machine.specs.Stepping.{IsReady};

use crate::places::party_of;
use joint_machine::Machine;
use lanes::{Party, Three};
use std::alloc::AllocError;
use step_lists::{Step, Task};

// More than 2^64 - 1 draws are more than memory holds, and count as want of memory.
fn checked(count: Option<usize>) -> Result<usize, AllocError>
    ensures { IfOk result (λ n. count ≡ Some n) }
{
    count.ok_or(AllocError)
}

/// How many words each share of a register has.
pub(crate) fn rows_in(machine: &Machine, register: u32) -> usize
    requires { IsMade machine.now register }
    ensures { result ≡ register_rows machine.now register }
{
    machine.register(register).first.len()
}

// How many words a slot has.
fn words_in(machine: &Machine, party: Party, slot: u32) -> usize
    requires { slot < length (at party machine.now.slots) }
    ensures { result ≡ length (slot_of machine.now party slot) }
{
    machine.slot(party, slot).len()
}

fn count_share(party: Party, words: usize) -> Three<usize>
    ensures { result ≡ each length (needs_share party words) }
{
    let (first, second, third) = match party {
        Party::First => (words, words, 0),
        Party::Second => (0, words, words),
        Party::Third => (words, 0, words),
    };
    Three {
        first,
        second,
        third,
    }
}

fn count_reveal(moved: usize, rows: usize) -> Result<Three<usize>, AllocError>
    ensures { IfOk result (λ counts. counts ≡ each length (needs_reveal moved rows)) }
{
    let words = checked(moved.checked_mul(rows))?;
    let masks = checked(words.checked_add(words))?;
    let count = checked(masks.checked_add(1))?;
    Ok(Three {
        first: count,
        second: count,
        third: count,
    })
}

fn count_steer(by: Party, moved: usize, rows: usize) -> Result<Three<usize>, AllocError>
    ensures { IfOk result (λ counts. counts ≡ each length (needs_steer by moved rows)) }
{
    let own = checked(moved.checked_mul(rows))?;
    let following = checked(own.checked_add(1))?;
    let earlier = checked(own.checked_add(own))?;
    let (first, second, third) = match by {
        Party::First => (own, following, earlier),
        Party::Second => (earlier, own, following),
        Party::Third => (following, earlier, own),
    };
    Ok(Three {
        first,
        second,
        third,
    })
}

/// How many draws a step takes of each tape.
pub(crate) fn count_draws<T: Task>(
    machine: &Machine,
    step: &Step<T>,
) -> Result<Three<usize>, AllocError>
    requires { (l : Layout) × ((ds : ThreeTapes) × IsReady T.accepts l step.now machine.now ds) }
    ensures { IfOk result (λ counts. (l : Layout) (ds : ThreeTapes) → IsReady T.accepts l step.now machine.now ds → counts ≡ each length (needs_of l step.now)) }
{
    match step {
        Step::And { left, right: _ } => {
            let count = rows_in(machine, *left);
            Ok(Three {
                first: count,
                second: count,
                third: count,
            })
        }
        Step::Share { party, slot } => {
            let party = party_of(*party);
            Ok(count_share(party, words_in(machine, party, *slot)))
        }
        Step::Reveal {
            to: _,
            moved,
            shown: _,
        } => {
            let moved = moved.as_slice();
            count_reveal(moved.len(), rows_in(machine, moved[0]))
        }
        Step::Steer { by, slot: _, moved } => {
            let moved = moved.as_slice();
            count_steer(party_of(*by), moved.len(), rows_in(machine, moved[0]))
        }
        Step::Const { .. }
        | Step::Lin { .. }
        | Step::Tell { .. }
        | Step::Work { .. }
        | Step::Flag { .. } => Ok(Three {
            first: 0,
            second: 0,
            third: 0,
        }),
    }
}
