//! One pass over a list in both worlds at once.

ghost use Rattle.std.specs.Prelude.{◌≡◌, ◌+◌, ◌≤◌, IfErr, OnOk, length};
ghost use Rattle.lanes.specs.declared.party.Party.{Party};
ghost use Rattle.lanes.specs.Three.{at};
ghost use Rattle.step_lists.specs.Layout.{Layout};
ghost use Rattle.joint_machine.specs.Left.{draws_of};
ghost use Rattle.twin.specs.Passing.{AreReady, ArePassed, IsStepFault, left_at};

use crate::change::push_changed;
use crate::counts::count_draws;
use crate::fault::TwinFault;
use crate::places::{readers_at, readers_with, tape_of};
use crate::worlds::Worlds;
use lanes::{Party, Three};
use std::alloc::Global;
use step_lists::{Step, Task};
use tapes::{Tape, Tapes};

/// Two worlds before a step, where its draws begin on the three tapes, and the twin so far.
#[derive(Drop)]
pub(crate) struct Pass {
    pub(crate) worlds: Worlds,
    pub(crate) places: Three<usize>,
    pub(crate) made: Tape,
}

// The places behind so many draws.
fn advance(tapes: &Tapes, places: &Three<usize>, counts: &Three<usize>) -> Three<usize>
    requires { (p : Party) → at p places.now + at p counts.now ≤ length (at p (draws_of tapes.now)) }
    ensures { (p : Party) → at p result ≡ at p places.now + at p counts.now }
{
    // A tape has fewer than 2^64 draws.
    let _ = (tapes.first.len(), tapes.second.len(), tapes.third.len());
    Three {
        first: places.first + counts.first,
        second: places.second + counts.second,
        third: places.third + counts.third,
    }
}

impl Pass {
    /// A step of both worlds, in the second one under the twin's draws.
    pub(crate) fn take_step<T: Task>(
        &mut self,
        alloc: Global,
        viewer: Party,
        number: u64,
        step: &Step<T>,
        tapes: &Tapes,
    ) -> Result<(), TwinFault>
        requires ready { (l : Layout) × AreReady T.accepts viewer l step.now self.old.worlds.one self.old.worlds.other (left_at self.old.places (draws_of tapes.now)) }
        requires within { (p : Party) → at p self.old.places ≤ length (at p (draws_of tapes.now)) }
        ensures passed { OnOk result ((l : Layout) → AreReady T.accepts viewer l step.now self.old.worlds.one self.old.worlds.other (left_at self.old.places (draws_of tapes.now))
            → ArePassed T.answer viewer l step.now self.old.worlds.one self.old.worlds.other (left_at self.old.places (draws_of tapes.now)) self.old.made
            self.new.worlds.one self.new.worlds.other (left_at self.new.places (draws_of tapes.now)) self.new.made) }
        ensures within { OnOk result ((p : Party) → at p self.new.places ≤ length (at p (draws_of tapes.now))) }
        ensures fault { IfErr result (λ fault. (l : Layout) → AreReady T.accepts viewer l step.now self.old.worlds.one self.old.worlds.other (left_at self.old.places (draws_of tapes.now))
            → IsStepFault viewer l step.now self.old.worlds.one self.old.worlds.other number fault) }
    {
        let unseen = viewer.before();
        let counts = count_draws(&self.worlds.one, step)?;
        let mut readers = readers_at(tapes, &self.places);
        let change = self
            .worlds
            .change_of(alloc, viewer, number, step, &mut readers)?;
        let places = advance(tapes, &self.places, &counts);
        let place = self.made.len();
        push_changed(
            alloc,
            tape_of(tapes, unseen),
            *self.places.at(unseen),
            *places.at(unseen),
            &change.order,
            &change.words,
            &mut self.made,
        )?;
        let mut readers = readers_at(tapes, &self.places);
        self.worlds.one.run_step(step, &mut readers)?;
        let mut others = readers_with(tapes, &self.places, unseen, &self.made, place);
        self.worlds.other.run_step(step, &mut others)?;
        self.places = places;
        Ok(())
    }
}
