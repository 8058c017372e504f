//! A query compiled, loaded and run over the bytes of its files.

ghost use Rattle.std.specs.Prelude.{IfOk, IsTrue};
ghost use Rattle.plain_meaning.specs.Fits.{IsWorldOf};
ghost use Rattle.plain_meaning.specs.Plain.{rows_of_tables};
ghost use Rattle.step_lists.specs.Rules.{is_party};
ghost use Rattle.tables.specs.File.{HasNoFlag};

use joint_machine::{JointRun, joint_run};
use lowering::{Plan, answer_table, load};
use plain_meaning::{World, plain};
use std::alloc::Global;
use std::test::Fail;
use step_lists::list_needs;
use tables::{Table, answer_text, read_table};
use tapes::make_tapes;
use words::{Column, Kind};

// The world of these files, in the order of the relations.
pub(crate) fn world_of(alloc: Global, plan: &Plan, files: &[&str]) -> Result<World, Fail>
    ensures { IfOk result (λ world. IsWorldOf plan.now.graph.nodes (rows_of_tables world)) }
{
    let mut tables = Vec::new(alloc);
    for node in plan.graph().nodes() {
        if node.shape.is_relation() {
            let file = files.get(tables.len()).ok_or("too few files")?;
            let table = table_of(alloc, file.as_bytes(), node.columns.as_slice(), node.rows)?;
            tables.push(table)?;
        }
    }
    match World::new(plan.graph(), tables) {
        Ok(world) => Ok(world),
        Err(_) => Err("no world")?,
    }
}

// The table of a file.
fn table_of(alloc: Global, file: &[u8], columns: &[Column], rows: u32) -> Result<Table, Fail> {
    let columns = columns_of(alloc, columns)?;
    Ok(read_table(alloc, file, &columns, rows)?)
}

// Columns that a file can have.
fn columns_of(alloc: Global, columns: &[Column]) -> Result<Vec<Column>, Fail>
    ensures { IfOk result (λ copy. HasNoFlag copy.items) }
{
    let mut copy = Vec::new(alloc);
    for column in columns {
        if column.kind == Kind::Flag {
            Err("a flag in a file")?;
        }
        copy.push(column.clone()?)?;
    }
    Ok(copy)
}

// All slots of a party behind a run.
fn slots_of(alloc: Global, plan: &Plan, run: &JointRun, party: u8) -> Result<Vec<Vec<u64>>, Fail>
    requires { IsTrue (is_party party) }
{
    let mut slots = Vec::new(alloc);
    for slot in 0..plan.list().slots(party) {
        slots.push(run.slot(party, slot).ok_or("no slot")?.clone()?)?;
    }
    Ok(slots)
}

// A party's slots behind a run that doesn't stop.
fn run_of(alloc: Global, plan: &Plan, world: &World, party: u8) -> Result<Vec<Vec<u64>>, Fail>
    requires world { IsWorldOf plan.now.graph.nodes (rows_of_tables world.now) }
    requires party { IsTrue (is_party party) }
{
    let schedule = list_needs(alloc, plan.list())?;
    let tapes = make_tapes(alloc, &schedule, 7)?;
    let slots = load(alloc, plan, world)?;
    let run = joint_run(alloc, plan.list(), &slots, &tapes)?;
    if run.stopped().is_some() {
        Err("stopped")?;
    }
    slots_of(alloc, plan, &run, party)
}

// The answer of an output at a party, as text.
pub(crate) fn answer_of(
    alloc: Global,
    plan: &Plan,
    world: &World,
    output: u32,
    party: u8,
) -> Result<Vec<u8>, Fail>
    requires { IsWorldOf plan.now.graph.nodes (rows_of_tables world.now) }
{
    if party < 1 || party > 3 || output as usize >= plan.graph().outputs().len() {
        Err("no such answer")?;
    }
    let slots = run_of(alloc, plan, world, party)?;
    let table = answer_table(alloc, plan, output, party, &slots)?;
    Ok(answer_text(alloc, &table)?)
}

// The same by the plain meaning.
pub(crate) fn plain_answer(
    alloc: Global,
    plan: &Plan,
    world: &World,
    output: u32,
) -> Result<Vec<u8>, Fail>
    requires { IsWorldOf plan.now.graph.nodes (rows_of_tables world.now) }
{
    let rows = plain(alloc, plan.graph(), world)?;
    let output = plan
        .graph()
        .outputs()
        .get(output as usize)
        .ok_or("no such output")?;
    let table = rows
        .tables
        .as_slice()
        .get(output.node as usize)
        .ok_or("no such node")?;
    Ok(answer_text(alloc, table)?)
}
