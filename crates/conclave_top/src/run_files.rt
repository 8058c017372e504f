//! What a run writes.

ghost use Rattle.std.specs.Prelude.{◌≡◌, [], ◌∷◌, IfOk, OnOk, length, map};
ghost use Rattle.clear_tasks.specs.ClearTask.{answer};
ghost use Rattle.joint_machine.specs.Faults.{HaveFirst};
ghost use Rattle.joint_machine.specs.Left.{draws_of};
ghost use Rattle.lanes.specs.Three.{at};
ghost use Rattle.lanes.specs.declared.party.Party.{Party};
ghost use Rattle.lowering.specs.Plan.{IsCorrect};
ghost use Rattle.plain_meaning.specs.Fits.{IsWorldOf};
ghost use Rattle.plain_meaning.specs.Plain.{rows_of_tables};
ghost use Rattle.step_lists.specs.Layout.{layout_of};
ghost use Rattle.step_lists.specs.Machine.{joint_of};
ghost use Rattle.step_lists.specs.Open.{open_of};
ghost use Rattle.step_lists.specs.Possible.{TapesFit};
ghost use Rattle.conclave_top.specs.Added.{AreAdded};
ghost use Rattle.conclave_top.specs.Deliver.{write_of};
ghost use Rattle.conclave_top.specs.PartyFiles.{view_file};
ghost use Rattle.conclave_top.specs.Run.{first_slots_of, links_of, run_output, run_writes, view_writes};
ghost use Rattle.conclave_top.specs.Views.{view_bytes};

use crate::answer_files::{add_answers, slots_of};
use crate::party_files::view_file;
use crate::views::view_bytes;
use clear_tasks::ClearTask;
use joint_machine::{JointFault, JointRun, joint_run};
use lanes::Party;
use lowering::{Plan, load};
use plain_meaning::World;
use std::alloc::{AllocError, Global};
use step_lists::laws::values_have_shapes;
use step_lists::{Slots, StepList};
use tapes::{Tapes, need_laws};

/// Files, each a name and bytes, in the order in which they are written, and what is printed.
#[derive(Drop)]
pub(crate) struct Results {
    pub(crate) writes: Vec<(String, Vec<u8>)>,
    pub(crate) output: Vec<u8>,
}

/// The views and answers of a correct plan over a world, with tapes that fit.
pub(crate) fn results_of(
    alloc: Global,
    plan: &Plan,
    world: &World,
    name: &str,
    tapes: &Tapes,
) -> Result<Results, AllocError>
    requires correct { IsCorrect plan.now }
    requires world { IsWorldOf plan.now.graph.nodes (rows_of_tables world.now) }
    requires tapes { TapesFit plan.now.list (draws_of tapes.now) }
    ensures writes { IfOk result (λ results. map write_of results.writes.items ≡ run_writes name.now plan.now world.now (draws_of tapes.now)) }
    ensures output { IfOk result (λ results. results.output.items ≡ run_output plan.now world.now) }
{
    let run = run_plan(alloc, plan, world, tapes)?;
    let mut results = no_results(alloc);
    add_views(alloc, name, &run, &mut results)?;
    let slots = slots_of(alloc, plan, &run)?;
    add_answers(alloc, plan, &slots, &mut results)?;
    Ok(results)
}

/// Nothing to write or to print.
fn no_results(alloc: Global) -> Results
    ensures writes { result.writes.items ≡ [] }
    ensures output { result.output.items ≡ [] }
{
    Results {
        writes: Vec::new(alloc),
        output: Vec::new(alloc),
    }
}

/// The run of a correct plan's list over a world, with tapes that fit. It makes all slots.
fn run_plan(
    alloc: Global,
    plan: &Plan,
    world: &World,
    tapes: &Tapes,
) -> Result<JointRun, AllocError>
    requires correct { IsCorrect plan.now }
    requires world { IsWorldOf plan.now.graph.nodes (rows_of_tables world.now) }
    requires tapes { TapesFit plan.now.list (draws_of tapes.now) }
    ensures links { IfOk result (λ run. run.links ≡ links_of plan.now world.now (draws_of tapes.now)) }
    ensures slots { IfOk result (λ run. run.slots ≡ (open_of answer plan.now.list (first_slots_of plan.now world.now) (draws_of tapes.now)).slots) }
    ensures whole { IfOk result (λ run. (p : Party) → length (at p run.slots) ≡ length (at p (layout_of plan.now.list).slots)) }
{
    // Law: values have the shapes of a well-formed list's layout, and a list's contract says that it is one.
    values_have_shapes::<ClearTask>();
    let _ = plan.list().steps();
    let slots = load(alloc, plan, world)?;
    run_list(alloc, plan.list(), &slots, tapes)
}

/// The run of a list on its first slots, with tapes that fit.
pub(crate) fn run_list(
    alloc: Global,
    list: &StepList<ClearTask>,
    slots: &Slots,
    tapes: &Tapes,
) -> Result<JointRun, AllocError>
    requires slots { HaveFirst list.now slots.now }
    requires tapes { TapesFit list.now (draws_of tapes.now) }
    ensures links { IfOk result (λ run. run.links ≡ (joint_of answer list.now slots.now (draws_of tapes.now)).links) }
    ensures slots { IfOk result (λ run. run.slots ≡ (open_of answer list.now slots.now (draws_of tapes.now)).slots) }
{
    // Law: draws that fit have no first that doesn't.
    need_laws();
    match joint_run(alloc, list, slots, tapes) {
        Ok(run) => Ok(run),
        Err(JointFault::Memory) => Err(AllocError),
        Err(_) => unreachable!(),
    }
}

/// Adds the view of each party.
fn add_views(
    alloc: Global,
    name: &str,
    run: &JointRun,
    results: &mut Results,
) -> Result<(), AllocError>
    ensures { OnOk result (AreAdded (view_writes name.now run.now.links) results.old results.new) }
{
    add_view(alloc, name, run, Party::First, results)?;
    add_view(alloc, name, run, Party::Second, results)?;
    add_view(alloc, name, run, Party::Third, results)?;
    Ok(())
}

/// Adds the view of a party.
fn add_view(
    alloc: Global,
    name: &str,
    run: &JointRun,
    party: Party,
    results: &mut Results,
) -> Result<(), AllocError>
    ensures { OnOk result (AreAdded ((view_file name.now party, view_bytes run.now.links party) ∷ []) results.old results.new) }
{
    let file = view_file(alloc, name, party)?;
    results.writes.push((file, view_bytes(alloc, run, party)?))?;
    Ok(())
}
