//! What a step makes of what a party has.
#![tactic(auto)]

ghost use Rattle.std.specs.Prelude.{◌≡◌, ◌+◌, ◌≤◌, false, IfErr, OnErr, OnOk, length, if◌then◌else◌};
ghost use Rattle.lanes.specs.Party.{next};
ghost use Rattle.step_lists.specs.Layout.{Layout};
ghost use Rattle.step_lists.specs.Part.{part_step, takes_bad_order};
ghost use Rattle.party_core.specs.Calls.{IsTakeFault};
ghost use Rattle.party_core.specs.Doing.{IsReady, draws_by, portion_here};
ghost use Rattle.party_core.specs.Holding.{rows_of};

use crate::faults::TakeFault;
use crate::orders::takes_bad_order;
use crate::places::Places;
use crate::portion::Portion;
use crate::stages::party_of;
use crate::state::State;
use crate::supply::Supply;
use lanes::Party;
use std::alloc::{AllocError, Global};
use step_lists::{Step, Task};

impl State {
    /// Carries out a step that is about so many words, all of whose words came.
    pub(crate) fn run_step<T: Task>(
        &mut self,
        alloc: Global,
        party: Party,
        step: &Step<T>,
        rows: u32,
        portion: &Portion<'_>,
    ) -> Result<(), AllocError>
        requires { (l : Layout) × IsReady T.accepts party l step.now self.old portion.now }
        ensures done { OnOk result ((l : Layout) → rows_of l step.now ≡ rows → self.new ≡ part_step T.answer party l self.old step.now portion.now) }
        ensures kept { OnErr result (self.new ≡ self.old) }
    {
        let rows = rows as usize;
        match step {
            Step::Const { words } => self.push_const(alloc, party, words.as_slice()),
            Step::Lin { op } => self.push_lin(alloc, party, op),
            Step::And { left, right } => self.push_and(alloc, party, *left, *right, portion),
            Step::Share { party: by, slot: _ } => self.push_share(
                alloc,
                party,
                party_of(*by),
                portion,
            ),
            Step::Reveal { to, moved, shown } => {
                let (moved, shown) = (moved.as_slice(), shown.as_slice());
                self.push_reveal(alloc, party, *to, moved, shown, rows, portion)
            }
            Step::Steer { by, slot, moved } => {
                self.push_steer(alloc, party, *by, *slot, moved.as_slice(), rows, portion)
            }
            Step::Tell {
                source,
                target,
                slot: _,
            } => self.push_tell(alloc, party, party_of(*source), party_of(*target), portion),
            Step::Work {
                party: by,
                task,
                takes,
                gives: _,
            } => self.push_work(alloc, party, party_of(*by), task, takes.as_slice()),
            Step::Flag { party: by, slot } => {
                self.pass_flag(party, party_of(*by), *slot, portion);
                Ok(())
            }
        }
    }

    /// The words of a stage came: they complete no private order that isn't one, and where the stage is the step's last
    /// one, the step is carried out.
    pub(crate) fn take_stage<T: Task>(
        &mut self,
        supply: &Supply,
        places: &Places,
        party: Party,
        step: &Step<T>,
        rows: u32,
        goes_on: bool,
    ) -> Result<(), TakeFault>
        requires own { places.now.own + draws_by party step.now rows ≤ length supply.now.own }
        requires following { places.now.following + draws_by (next party) step.now rows ≤ length supply.now.following }
        requires ready { (l : Layout) × IsReady T.accepts party l step.now self.old (portion_here supply.now places.now party step.now rows) }
        ensures done { OnOk result ((l : Layout) → rows_of l step.now ≡ rows
            → self.new ≡ (if goes_on then self.old else part_step T.answer party l self.old step.now (portion_here supply.now places.now party step.now rows))) }
        ensures order { OnOk result ((l : Layout) → rows_of l step.now ≡ rows → takes_bad_order party l step.now (portion_here supply.now places.now party step.now rows) ≡ false) }
        ensures fault { IfErr result (λ fault. (l : Layout) → rows_of l step.now ≡ rows → IsTakeFault (takes_bad_order party l step.now (portion_here supply.now places.now party step.now rows)) fault) }
        ensures kept { OnErr result (self.new ≡ self.old) }
    {
        let alloc = supply.allocator();
        if takes_bad_order(alloc, party, step, rows, &supply.left(places))? {
            return Err(TakeFault::NotOrder);
        }
        if goes_on {
            return Ok(());
        }
        let portion = supply.portion(alloc, places, party, step, rows)?;
        self.run_step(alloc, party, step, rows, &portion)?;
        Ok(())
    }
}
