//! The twin of a tape, made in one pass over a list in both worlds at once.

ghost use Rattle.std.specs.Prelude.{◌≡◌, IfOk, IfErr, OnOk, IsTrue};
ghost use Rattle.step_lists.specs.Layout.{party_of};
ghost use Rattle.step_lists.specs.Possible.{TapesFit};
ghost use Rattle.step_lists.specs.Rules.{is_party};
ghost use Rattle.step_lists.specs.Seen.{AreAlike, seen};
ghost use Rattle.step_lists.specs.Twin.{twin_tape, twin_tapes};
ghost use Rattle.joint_machine.specs.Faults.{HaveFirst};
ghost use Rattle.joint_machine.specs.Left.{draws_of};
ghost use Rattle.twin.specs.Called.{IsTwinFault};

use crate::change::push_kept;
use crate::fault::TwinFault;
use crate::laws::facts;
use crate::pass::Pass;
use crate::places::{party_of, tape_of};
use crate::worlds::Worlds;
use joint_machine::{opened_laws, start, steps_fit};
use lanes::Three;
use std::alloc::{AllocError, Global};
use step_lists::{Slots, StepList, Task};
use tapes::{Tape, Tapes};

/// For a viewer, 1 to 3, and two worlds, the tape that the viewer doesn't hold, made anew: with it in the old one's
/// place the second world sends the viewer the words that the first one sends it under the tapes that are given.
///
/// NotAligned comes exactly at the first step at which the rows opened to the viewer differ as bags, or the words told
/// or flagged to it as lists. Own.
pub fn twin<T: Task>(
    alloc: Global,
    list: &StepList<T>,
    viewer: u8,
    slots: &Slots,
    other: &Slots,
    tapes: &Tapes,
) -> Result<Tape, TwinFault>
    requires viewer { IsTrue (is_party viewer) }
    requires slots { HaveFirst list.now slots.now }
    requires other { HaveFirst list.now other.now }
    requires tapes { TapesFit list.now (draws_of tapes.now) }
    ensures twin { IfOk result (λ tape. tape ≡ twin_tape T.answer (party_of viewer) list.now slots.now other.now (draws_of tapes.now)) }
    ensures alike { OnOk result (AreAlike (seen T.answer (party_of viewer) list.now slots.now (draws_of tapes.now))
        (seen T.answer (party_of viewer) list.now other.now (twin_tapes T.answer (party_of viewer) list.now slots.now other.now (draws_of tapes.now)))) }
    ensures fault { IfErr result (λ fault. IsTwinFault T.answer (party_of viewer) list.now slots.now other.now (draws_of tapes.now) fault) }
{
    facts();
    opened_laws::<T>();
    steps_fit::<T>();
    // Its contract says that each register is shorter than 2^32 words.
    let _ = list.registers();
    let viewer = party_of(viewer);
    let unseen = tape_of(tapes, viewer.before());
    let mut pass = Pass {
        worlds: Worlds {
            one: start(alloc, slots)?,
            other: start(alloc, other)?,
        },
        places: Three {
            first: 0,
            second: 0,
            third: 0,
        },
        made: Tape::with_room(alloc, unseen.len())?,
    };
    let steps = list.steps().as_slice();
    for number in 0..steps.len() {
        if !pass.worlds.one.is_stopped() {
            pass.take_step(alloc, viewer, number as u64, &steps[number], tapes)?;
        }
    }
    let place = *pass.places.at(viewer.before());
    push_kept(alloc, unseen, place, &mut pass.made)?;
    Ok(pass.made)
}
