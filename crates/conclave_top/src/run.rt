//! The command `run`, stage by stage: the query's plan, the files of its relations, the tapes, the run and its answers.

ghost use Rattle.std.specs.Prelude.{◌≡◌, [], All, length, map};
ghost use Rattle.joint_machine.specs.Left.{draws_of};
ghost use Rattle.lanes.specs.Three.{each};
ghost use Rattle.lowering.specs.Plan.{IsCorrect};
ghost use Rattle.plain_meaning.specs.Fits.{AreFiles, IsWorldOf, relations};
ghost use Rattle.plain_meaning.specs.Plain.{rows_of_tables};
ghost use Rattle.step_lists.specs.Possible.{TapesFit};
ghost use Rattle.conclave_top.specs.Command.{run};
ghost use Rattle.conclave_top.specs.End.{Ended};
ghost use Rattle.conclave_top.specs.Jobs.{CommandEnded};
ghost use Rattle.conclave_top.specs.Outside.{ports_at};
ghost use Rattle.conclave_top.specs.Plain.{tables_in};
ghost use Rattle.conclave_top.specs.Relations.{IsStored};
ghost use Rattle.conclave_top.specs.Run.{run_job, run_on};
ghost use Rattle.conclave_top.specs.Stages.{over_tables_job, tapes_job, with_bytes_job};

use crate::deliver::deliver;
use crate::end::{Cause, End};
use crate::plans::plan_file;
use crate::relations::{read_relations, relations_of, tables_of};
use crate::run_files::results_of;
use crate::tapes_of::{read_tapes, tapes_of};
use lanes::Three;
use lowering::Plan;
use outside::{Folder, Sink};
use plain_meaning::World;
use query_graph::Node;
use std::alloc::Global;
use tables::{Table, read_tables_fit};
use tapes::Tapes;

/// The command `run`: reads the query, the files of its relations and the tapes, and writes views and answers.
pub(crate) fn run<F: Folder, O: Sink>(
    alloc: Global,
    query: &str,
    tapes: &str,
    files: &mut F,
    out: &mut O,
) -> End
    ensures { CommandEnded (run query.now tapes.now)
        (ports_at F.Folder O.Sink files.old out.old) (ports_at F.Folder O.Sink files.new out.new) result }
{
    match plan_file(alloc, query, files) {
        Ok(plan) => run_with(alloc, &plan, tapes, files, out),
        Err(end) => end,
    }
}

/// The same with a plan that is handed in.
pub(crate) fn run_with<F: Folder, O: Sink>(
    alloc: Global,
    plan: &Plan,
    tapes: &str,
    files: &mut F,
    out: &mut O,
) -> End
    requires correct { IsCorrect plan.now }
    ensures { Ended (run_job (F.files files.old) tapes.now plan.now)
        (ports_at F.Folder O.Sink files.old out.old) (ports_at F.Folder O.Sink files.new out.new) result }
{
    let Ok(nodes) = relations_of(alloc, plan.graph()) else {
        return End::Memory;
    };
    match read_relations(alloc, "", &nodes, files) {
        Ok(bytes) => over_files(alloc, plan, &nodes, &bytes, tapes, files, out),
        Err(end) => end,
    }
}

/// The same behind the first reads: over the bytes of the relations' files.
fn over_files<F: Folder, O: Sink>(
    alloc: Global,
    plan: &Plan,
    nodes: &[&Node],
    bytes: &[Vec<u8>],
    tapes: &str,
    files: &mut F,
    out: &mut O,
) -> End
    requires correct { IsCorrect plan.now }
    requires relations { map (λ node. node.now) nodes.now ≡ relations plan.now.graph.nodes }
    requires stored { All (λ node. IsStored node.now) nodes.now }
    requires as_many { length bytes.now ≡ length nodes.now }
    ensures { Ended (over_tables_job (F.files files.old) tapes.now plan.now (run_on tapes.now plan.now) (tables_in plan.now.graph (map (λ b. b.items) bytes.now)))
        (ports_at F.Folder O.Sink files.old out.old) (ports_at F.Folder O.Sink files.new out.new) result }
{
    // What is read fits, so the tables make a world.
    read_tables_fit();
    match tables_of(alloc, "", nodes, bytes) {
        Ok(tables) => over_tables(alloc, plan, tables, tapes, files, out),
        Err(stop) => stop.end(Cause::Faulty),
    }
}

/// The same behind the relations' files: over their tables.
fn over_tables<F: Folder, O: Sink>(
    alloc: Global,
    plan: &Plan,
    tables: Vec<Table>,
    tapes: &str,
    files: &mut F,
    out: &mut O,
) -> End
    requires correct { IsCorrect plan.now }
    requires files { AreFiles plan.now.graph.nodes tables.items }
    ensures { Ended (tapes_job (F.files files.old) tapes.now plan.now (run_on tapes.now plan.now tables.items))
        (ports_at F.Folder O.Sink files.old out.old) (ports_at F.Folder O.Sink files.new out.new) result }
{
    let Ok(world) = World::new(plan.graph(), tables) else {
        unreachable!();
    };
    match read_tapes(alloc, tapes, files) {
        Ok(bytes) => over_tapes(alloc, plan, &world, tapes, &bytes, files, out),
        Err(end) => end,
    }
}

/// The same behind all reads: over the bytes of the tapes.
fn over_tapes<F: Folder, O: Sink>(
    alloc: Global,
    plan: &Plan,
    world: &World,
    name: &str,
    bytes: &Three<Vec<u8>>,
    files: &mut F,
    out: &mut O,
) -> End
    requires correct { IsCorrect plan.now }
    requires world { IsWorldOf plan.now.graph.nodes (rows_of_tables world.now) }
    ensures { Ended (with_bytes_job name.now plan.now (run_on name.now plan.now world.now) (each (λ b. b.items) bytes.now))
        (ports_at F.Folder O.Sink files.old out.old) (ports_at F.Folder O.Sink files.new out.new) result }
{
    match tapes_of(alloc, plan, name, bytes) {
        Ok(tapes) => over_run(alloc, plan, world, name, &tapes, files, out),
        Err(stop) => stop.end(Cause::Unfit),
    }
}

/// The same over tapes that fit.
fn over_run<F: Folder, O: Sink>(
    alloc: Global,
    plan: &Plan,
    world: &World,
    name: &str,
    tapes: &Tapes,
    files: &mut F,
    out: &mut O,
) -> End
    requires correct { IsCorrect plan.now }
    requires world { IsWorldOf plan.now.graph.nodes (rows_of_tables world.now) }
    requires tapes { TapesFit plan.now.list (draws_of tapes.now) }
    ensures { Ended (run_on name.now plan.now world.now (draws_of tapes.now))
        (ports_at F.Folder O.Sink files.old out.old) (ports_at F.Folder O.Sink files.new out.new) result }
{
    let Ok(results) = results_of(alloc, plan, world, name, tapes) else {
        return End::Memory;
    };
    deliver(&results.writes, &results.output, files, out)
}
