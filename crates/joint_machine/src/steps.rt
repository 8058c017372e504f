//! One step of the joint machine.
#![tactic(auto)]

ghost use Rattle.std.specs.Prelude.{◌≡◌, OnOk};
ghost use Rattle.step_lists.specs.Layout.{Layout, party_of};
ghost use Rattle.joint_machine.specs.Left.{lefts};
ghost use Rattle.joint_machine.specs.Stepping.{IsReady, IsStepped};

use crate::machine::Machine;
use lanes::{Party, Three};
use std::alloc::AllocError;
use step_lists::{Step, Task};
use tapes::Cursor;

/// The party of a number; one that isn't 1 or 2 is taken as the third.
pub(crate) fn party_of(number: u8) -> Party
    ensures { result ≡ party_of number }
{
    match number {
        1 => Party::First,
        2 => Party::Second,
        _ => Party::Third,
    }
}

impl Machine {
    /// Does a step that may come next; its draws come next on the tapes.
    pub fn run_step<T: Task>(
        &mut self,
        step: &Step<T>,
        tapes: &mut Three<Cursor<'_>>,
    ) -> Result<(), AllocError>
        requires { (l : Layout) × IsReady T.accepts l step.now self.old (lefts tapes.old) }
        ensures { OnOk result ((l : Layout) → IsReady T.accepts l step.now self.old (lefts tapes.old)
            → IsStepped T.answer l step.now self.old (lefts tapes.old) self.new (lefts tapes.new)) }
    {
        match step {
            Step::Const { words } => self.push_const(words.as_slice()),
            Step::Lin { op } => self.push_lin(op),
            Step::And { left, right } => self.step_and(*left, *right, tapes),
            Step::Share { party, slot } => self.step_share(party_of(*party), *slot, tapes),
            Step::Reveal { to, moved, shown } => {
                self.step_reveal(party_of(*to), moved.as_slice(), shown.as_slice(), tapes)
            }
            Step::Steer { by, slot, moved } => {
                self.step_steer(party_of(*by), *slot, moved.as_slice(), tapes)
            }
            Step::Tell {
                source,
                target,
                slot,
            } => self.push_tell(party_of(*source), party_of(*target), *slot),
            Step::Work {
                party,
                task,
                takes,
                gives: _,
            } => self.push_work(party_of(*party), task, takes.as_slice()),
            Step::Flag { party, slot } => self.pass_flag(party_of(*party), *slot),
        }
    }
}
