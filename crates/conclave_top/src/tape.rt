//! The command `tape`: the query's plan, and the tapes of a seed for it.

ghost use Rattle.std.specs.Prelude.{[], IfOk, map};
ghost use Rattle.conclave_top.specs.Command.{tape};
ghost use Rattle.conclave_top.specs.Deliver.{write_of};
ghost use Rattle.conclave_top.specs.Due.{does};
ghost use Rattle.conclave_top.specs.End.{Ended};
ghost use Rattle.conclave_top.specs.Jobs.{CommandEnded};
ghost use Rattle.conclave_top.specs.Outside.{ports_at};
ghost use Rattle.conclave_top.specs.Tape.{IsTaped, tape_job};

use crate::deliver::deliver;
use crate::end::End;
use crate::party_files::tape_file;
use crate::plans::plan_file;
use lanes::Party;
use lowering::Plan;
use outside::{Folder, Sink};
use std::alloc::{AllocError, Global};
use step_lists::list_needs;
use tapes::{make_tapes, write_tape};

/// The command `tape`: reads the query, and writes the tapes of a seed for its plan.
pub(crate) fn tape<F: Folder, O: Sink>(
    alloc: Global,
    query: &str,
    seed: u64,
    tapes: &str,
    files: &mut F,
    out: &mut O,
) -> End
    ensures { CommandEnded (tape query.now seed tapes.now)
        (ports_at F.Folder O.Sink files.old out.old) (ports_at F.Folder O.Sink files.new out.new) result }
{
    match plan_file(alloc, query, files) {
        Ok(plan) => tape_with(alloc, &plan, seed, tapes, files, out),
        Err(end) => end,
    }
}

/// The same with a plan that is handed in.
pub(crate) fn tape_with<F: Folder, O: Sink>(
    alloc: Global,
    plan: &Plan,
    seed: u64,
    tapes: &str,
    files: &mut F,
    out: &mut O,
) -> End
    ensures { Ended (tape_job seed tapes.now plan.now)
        (ports_at F.Folder O.Sink files.old out.old) (ports_at F.Folder O.Sink files.new out.new) result }
{
    let Ok(writes) = tape_writes(alloc, plan, seed, tapes) else {
        return End::Memory;
    };
    deliver(&writes, &[], files, out)
}

/// The files of the tapes of a seed for a plan.
fn tape_writes(
    alloc: Global,
    plan: &Plan,
    seed: u64,
    name: &str,
) -> Result<Vec<(String, Vec<u8>)>, AllocError>
    ensures { IfOk result (λ writes. IsTaped seed name.now plan.now (does [] (map write_of writes.items) [])) }
{
    let schedule = list_needs(alloc, plan.list())?;
    let tapes = make_tapes(alloc, &schedule, seed)?;
    let mut writes = Vec::with_capacity(alloc, 3)?;
    let first = tape_file(alloc, name, Party::First)?;
    writes.push((first, write_tape(alloc, &tapes.first)?))?;
    let second = tape_file(alloc, name, Party::Second)?;
    writes.push((second, write_tape(alloc, &tapes.second)?))?;
    let third = tape_file(alloc, name, Party::Third)?;
    writes.push((third, write_tape(alloc, &tapes.third)?))?;
    Ok(writes)
}
