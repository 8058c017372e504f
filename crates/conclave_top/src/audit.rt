//! The command `audit`, stage by stage: the query's plan, the files of its relations in two folders, the tapes, and the twin of
//! one of them or the first part in which the worlds differ.

ghost use Rattle.std.specs.Prelude.{◌≡◌, [], All, None, Some, length, map};
ghost use Rattle.joint_machine.specs.Left.{draws_of};
ghost use Rattle.lanes.specs.Three.{each};
ghost use Rattle.lowering.specs.Isolated.{IsIsolated};
ghost use Rattle.plain_meaning.specs.Fits.{AreFiles, IsWorldOf, relations};
ghost use Rattle.plain_meaning.specs.Plain.{rows_of_tables};
ghost use Rattle.query_graph.specs.declared.node.Node as nodes;
ghost use Rattle.step_lists.specs.Possible.{TapesFit};
ghost use Rattle.conclave_top.specs.declared.end.Cause.TheVariants.{Disagree};
ghost use Rattle.conclave_top.specs.Audit.{AgreeFor, IsDifferenceFor, IsTwin, audit_job, audit_on, inside, both};
ghost use Rattle.conclave_top.specs.Command.{asked_in, audit};
ghost use Rattle.conclave_top.specs.Due.{does, stops};
ghost use Rattle.conclave_top.specs.End.{Ended};
ghost use Rattle.conclave_top.specs.Job.{only};
ghost use Rattle.conclave_top.specs.Jobs.{CommandEnded};
ghost use Rattle.conclave_top.specs.Lines.{disagree_line};
ghost use Rattle.conclave_top.specs.Outside.{Ports, ports_at};
ghost use Rattle.conclave_top.specs.Relations.{IsStored, tables_of};
ghost use Rattle.conclave_top.specs.Stages.{over_tables_job, tapes_job, with_bytes_job};

use crate::deliver::deliver;
use crate::end::{Cause, End};
use crate::lines::disagree_line;
use crate::plans::plan_file;
use crate::relations::relations_of;
use crate::tapes_of::{read_tapes, tapes_of};
use crate::twins::twin_results;
use crate::worlds::{Two, difference, read_worlds, tables_of_both};
use lanes::{Party, Three};
use lowering::Plan;
use outside::{Folder, Sink};
use plain_meaning::World;
use query_graph::Node;
use std::alloc::Global;
use tables::{Table, read_tables_fit};
use tapes::Tapes;
use trust_sets::Differs;

/// What an audit is asked: for which party, over which two folders, and with the tapes of which name.
#[derive(Clone, Copy)]
pub(crate) struct Question<'a> {
    pub(crate) party: Party,
    pub(crate) first: &'a str,
    pub(crate) second: &'a str,
    pub(crate) tapes: &'a str,
}

/// The command `audit`: reads the query, the files of its relations in both folders and the tapes, and writes a twin.
pub(crate) fn audit<F: Folder, O: Sink>(
    alloc: Global,
    query: &str,
    asked: &Question<'_>,
    files: &mut F,
    out: &mut O,
) -> End
    ensures { CommandEnded (audit query.now (asked_in asked.now))
        (ports_at F.Folder O.Sink files.old out.old) (ports_at F.Folder O.Sink files.new out.new) result }
{
    match plan_file(alloc, query, files) {
        Ok(plan) => audit_with(alloc, &plan, asked, files, out),
        Err(end) => end,
    }
}

/// The same with a plan that is handed in.
pub(crate) fn audit_with<F: Folder, O: Sink>(
    alloc: Global,
    plan: &Plan,
    asked: &Question<'_>,
    files: &mut F,
    out: &mut O,
) -> End
    requires isolated { IsIsolated plan.now }
    ensures { Ended (audit_job (F.files files.old) (asked_in asked.now) plan.now)
        (ports_at F.Folder O.Sink files.old out.old) (ports_at F.Folder O.Sink files.new out.new) result }
{
    let Ok(nodes) = relations_of(alloc, plan.graph()) else {
        return End::Memory;
    };
    match read_worlds(alloc, asked, &nodes, files) {
        Ok(bytes) => over_files(alloc, plan, asked, &nodes, &bytes, files, out),
        Err(end) => end,
    }
}

/// The same behind the first reads: over the bytes of the relations' files.
fn over_files<F: Folder, O: Sink>(
    alloc: Global,
    plan: &Plan,
    asked: &Question<'_>,
    nodes: &[&Node],
    bytes: &Two<Vec<Vec<u8>>>,
    files: &mut F,
    out: &mut O,
) -> End
    requires isolated { IsIsolated plan.now }
    requires relations { map (λ node. node.now) nodes.now ≡ relations plan.now.graph.nodes }
    requires stored { All (λ node. IsStored node.now) nodes.now }
    requires first { length bytes.now.first.items ≡ length nodes.now }
    requires second { length bytes.now.second.items ≡ length nodes.now }
    ensures { Ended (over_tables_job (F.files files.old) asked.now.tapes.now plan.now (audit_on (asked_in asked.now) plan.now)
        (both (tables_of (inside asked.now.first.now) (relations plan.now.graph.nodes) (map (λ b. b.items) bytes.now.first.items))
        (tables_of (inside asked.now.second.now) (relations plan.now.graph.nodes) (map (λ b. b.items) bytes.now.second.items))))
        (ports_at F.Folder O.Sink files.old out.old) (ports_at F.Folder O.Sink files.new out.new) result }
{
    // What is read fits, so the tables make worlds.
    read_tables_fit();
    match tables_of_both(alloc, asked, nodes, bytes) {
        Ok(tables) => over_tables(alloc, plan, asked, tables, files, out),
        Err(stop) => stop.end(Cause::Faulty),
    }
}

/// The same behind the relations' files: over their tables.
fn over_tables<F: Folder, O: Sink>(
    alloc: Global,
    plan: &Plan,
    asked: &Question<'_>,
    tables: Two<Vec<Table>>,
    files: &mut F,
    out: &mut O,
) -> End
    requires isolated { IsIsolated plan.now }
    requires first { AreFiles plan.now.graph.nodes tables.first.items }
    requires second { AreFiles plan.now.graph.nodes tables.second.items }
    ensures { Ended (tapes_job (F.files files.old) asked.now.tapes.now plan.now (audit_on (asked_in asked.now) plan.now (tables.first.items, tables.second.items)))
        (ports_at F.Folder O.Sink files.old out.old) (ports_at F.Folder O.Sink files.new out.new) result }
{
    let Ok(first) = World::new(plan.graph(), tables.first) else {
        unreachable!();
    };
    let Ok(second) = World::new(plan.graph(), tables.second) else {
        unreachable!();
    };
    let worlds = Two { first, second };
    match read_tapes(alloc, asked.tapes, files) {
        Ok(bytes) => over_tapes(alloc, plan, asked, &worlds, &bytes, files, out),
        Err(end) => end,
    }
}

/// The same behind all reads: over the bytes of the tapes.
fn over_tapes<F: Folder, O: Sink>(
    alloc: Global,
    plan: &Plan,
    asked: &Question<'_>,
    worlds: &Two<World>,
    bytes: &Three<Vec<u8>>,
    files: &mut F,
    out: &mut O,
) -> End
    requires isolated { IsIsolated plan.now }
    requires first { IsWorldOf plan.now.graph.nodes (rows_of_tables worlds.now.first) }
    requires second { IsWorldOf plan.now.graph.nodes (rows_of_tables worlds.now.second) }
    ensures { Ended (with_bytes_job asked.now.tapes.now plan.now (audit_on (asked_in asked.now) plan.now (worlds.now.first, worlds.now.second)) (each (λ b. b.items) bytes.now))
        (ports_at F.Folder O.Sink files.old out.old) (ports_at F.Folder O.Sink files.new out.new) result }
{
    match tapes_of(alloc, plan, asked.tapes, bytes) {
        Ok(tapes) => over_draws(alloc, plan, asked, worlds, &tapes, files, out),
        Err(stop) => stop.end(Cause::Unfit),
    }
}

/// The same over tapes that fit.
fn over_draws<F: Folder, O: Sink>(
    alloc: Global,
    plan: &Plan,
    asked: &Question<'_>,
    worlds: &Two<World>,
    tapes: &Tapes,
    files: &mut F,
    out: &mut O,
) -> End
    requires isolated { IsIsolated plan.now }
    requires first { IsWorldOf plan.now.graph.nodes (rows_of_tables worlds.now.first) }
    requires second { IsWorldOf plan.now.graph.nodes (rows_of_tables worlds.now.second) }
    requires tapes { TapesFit plan.now.list (draws_of tapes.now) }
    ensures { Ended (audit_on (asked_in asked.now) plan.now (worlds.now.first, worlds.now.second) (draws_of tapes.now))
        (ports_at F.Folder O.Sink files.old out.old) (ports_at F.Folder O.Sink files.new out.new) result }
{
    match difference(alloc, plan, asked.party, worlds) {
        Ok(None) => agreeing(alloc, plan, asked, worlds, tapes, files, out),
        Ok(Some(differs)) => disagreeing(alloc, plan, asked, worlds, tapes, differs),
        Err(_) => End::Memory,
    }
}

/// The same of worlds that agree.
fn agreeing<F: Folder, O: Sink>(
    alloc: Global,
    plan: &Plan,
    asked: &Question<'_>,
    worlds: &Two<World>,
    tapes: &Tapes,
    files: &mut F,
    out: &mut O,
) -> End
    requires isolated { IsIsolated plan.now }
    requires first { IsWorldOf plan.now.graph.nodes (rows_of_tables worlds.now.first) }
    requires second { IsWorldOf plan.now.graph.nodes (rows_of_tables worlds.now.second) }
    requires tapes { TapesFit plan.now.list (draws_of tapes.now) }
    requires agree { AgreeFor plan.now asked.now.party (worlds.now.first, worlds.now.second) }
    ensures { Ended (audit_on (asked_in asked.now) plan.now (worlds.now.first, worlds.now.second) (draws_of tapes.now))
        (ports_at F.Folder O.Sink files.old out.old) (ports_at F.Folder O.Sink files.new out.new) result }
{
    let Ok(results) = twin_results(alloc, plan, asked, worlds, tapes) else {
        return End::Memory;
    };
    deliver(&results.writes, &results.output, files, out)
}

/// The same of worlds that don't agree: nothing is written.
fn disagreeing(
    alloc: Global,
    plan: &Plan,
    asked: &Question<'_>,
    worlds: &Two<World>,
    tapes: &Tapes,
    differs: Differs,
) -> End
    requires { IsDifferenceFor plan.now asked.now.party (worlds.now.first, worlds.now.second) (Some differs) }
    ensures { (ports : Ports) → Ended (audit_on (asked_in asked.now) plan.now (worlds.now.first, worlds.now.second) (draws_of tapes.now)) ports ports result }
{
    match disagree_line(alloc, plan.graph().nodes(), differs) {
        Ok(line) => End::Stopped(Cause::Disagree, line),
        Err(_) => End::Memory,
    }
}
