//! The twin of a tape for two worlds, and what is written of it.

ghost use Rattle.std.specs.Prelude.{◌≡◌, ◌+◌, IfOk, length, map};
ghost use Rattle.joint_machine.specs.Left.{draws_of};
ghost use Rattle.lanes.specs.Party.{before, next};
ghost use Rattle.lowering.specs.Isolated.{IsIsolated};
ghost use Rattle.plain_meaning.specs.Fits.{IsWorldOf};
ghost use Rattle.plain_meaning.specs.Plain.{rows_of_tables};
ghost use Rattle.step_lists.specs.Phases.{link};
ghost use Rattle.step_lists.specs.Possible.{TapesFit};
ghost use Rattle.conclave_top.specs.Audit.{AgreeFor, audit_output, audit_writes, twin_in, view_in, words_of};
ghost use Rattle.conclave_top.specs.Command.{asked_in};
ghost use Rattle.conclave_top.specs.Deliver.{write_of};

use crate::audit::Question;
use crate::lines::twin_lines;
use crate::party_files::twin_file;
use crate::run_files::{Results, run_list};
use crate::views::words_from;
use crate::worlds::Two;
use clear_tasks::ClearTask;
use joint_machine::JointRun;
use lanes::Party;
use lowering::laws::isolated_is_never_apart;
use lowering::{Plan, load};
use plain_meaning::World;
use std::alloc::{AllocError, Global};
use step_lists::Slots;
use tapes::{Tape, Tapes, write_tape};
use twin::{TwinFault, twin};

/// The file of the twin for two worlds that agree, and what is printed.
pub(crate) fn twin_results(
    alloc: Global,
    plan: &Plan,
    asked: &Question<'_>,
    worlds: &Two<World>,
    tapes: &Tapes,
) -> Result<Results, AllocError>
    requires isolated { IsIsolated plan.now }
    requires first { IsWorldOf plan.now.graph.nodes (rows_of_tables worlds.now.first) }
    requires second { IsWorldOf plan.now.graph.nodes (rows_of_tables worlds.now.second) }
    requires tapes { TapesFit plan.now.list (draws_of tapes.now) }
    requires agree { AgreeFor plan.now asked.now.party (worlds.now.first, worlds.now.second) }
    ensures writes { IfOk result (λ results. map write_of results.writes.items ≡ audit_writes (asked_in asked.now) plan.now (worlds.now.first, worlds.now.second) (draws_of tapes.now)) }
    ensures output { IfOk result (λ results. results.output.items ≡ audit_output (asked_in asked.now) plan.now (worlds.now.first, worlds.now.second) (draws_of tapes.now)) }
{
    let file = twin_file(alloc, asked.tapes, asked.party.before())?;
    let words = words_in(alloc, plan, asked.party, &worlds.first, tapes)?;
    let output = twin_lines(alloc, &file, words)?;
    let twin = twin_in(alloc, plan, asked.party, worlds, tapes)?;
    let mut writes = Vec::with_capacity(alloc, 1)?;
    writes.push((file, write_tape(alloc, &twin)?))?;
    Ok(Results { writes, output })
}

/// The twin of the tape that the party doesn't hold, from the first world to the second.
fn twin_in(
    alloc: Global,
    plan: &Plan,
    party: Party,
    worlds: &Two<World>,
    tapes: &Tapes,
) -> Result<Tape, AllocError>
    requires isolated { IsIsolated plan.now }
    requires first { IsWorldOf plan.now.graph.nodes (rows_of_tables worlds.now.first) }
    requires second { IsWorldOf plan.now.graph.nodes (rows_of_tables worlds.now.second) }
    requires tapes { TapesFit plan.now.list (draws_of tapes.now) }
    requires agree { AgreeFor plan.now party (worlds.now.first, worlds.now.second) }
    ensures { IfOk result (λ tape. tape ≡ twin_in plan.now party (worlds.now.first, worlds.now.second) (draws_of tapes.now)) }
{
    // Law: no step of an isolated plan tells the party apart two worlds that agree for it.
    isolated_is_never_apart();
    let first = load(alloc, plan, &worlds.first)?;
    let second = load(alloc, plan, &worlds.second)?;
    match twin::<ClearTask>(alloc, plan.list(), party.number(), &first, &second, tapes) {
        Ok(tape) => Ok(tape),
        Err(TwinFault::Memory) => Err(AllocError),
        Err(TwinFault::NotAligned { .. }) => unreachable!(),
    }
}

/// The number of words that a party gets in a world.
fn words_in(
    alloc: Global,
    plan: &Plan,
    party: Party,
    world: &World,
    tapes: &Tapes,
) -> Result<usize, AllocError>
    requires world { IsWorldOf plan.now.graph.nodes (rows_of_tables world.now) }
    requires tapes { TapesFit plan.now.list (draws_of tapes.now) }
    ensures { IfOk result (λ words. words ≡ words_of (view_in plan.now party world.now (draws_of tapes.now))) }
{
    let slots = load(alloc, plan, world)?;
    let run = run_list(alloc, plan.list(), &slots, tapes)?;
    Ok(words_to(&run, party))
}

/// The number of words that a party gets from the others.
fn words_to(run: &JointRun, party: Party) -> usize
    ensures { result ≡ length (link (next party) party run.now.links) + length (link (before party) party run.now.links) }
{
    words_from(run, party.next(), party).len() + words_from(run, party.before(), party).len()
}
